//! Laws of the text of reports, each as the contract of a function that does nothing.
//!
//! *Stands on* `stream_base`, whose `specs/Model` are the definitions of journals and their text.
#![tactic(auto)]

pub mod read_back;
