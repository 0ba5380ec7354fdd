//! Laws of the definitions, each as the contract of a function that does nothing: what a reader may
//! believe of journals, windows and changes in place of how they are computed.
//!
//! *Stands on* `stream_base`, whose `specs/Model` are the definitions.
#![tactic(auto)]

pub mod changes;
pub mod cuts;
pub mod kept;
pub mod limits;
pub mod routes;
pub mod standing;
pub mod watermarks;
pub mod windows;
