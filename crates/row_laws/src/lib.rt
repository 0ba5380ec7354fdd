//! Laws of the rows that a report's text tells: they are those that stand.
//!
//! *Stands on* `stream_base`, whose `specs/Model` are the definitions of reports, on `model_laws` for
//! how changes lead to what stands, and on `report_laws` for how a report is read back.
#![tactic(auto)]

pub mod reading;
