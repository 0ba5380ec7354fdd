//! Whether a report is lawful, judged at the pace of a run.
//!
//! *From* the bytes of a report and the entries of its sources *to* a finding. *Stands on* the judge of
//! `report_check`, on a shard for the changes of each journal that one takes, and on plain lists for
//! those of any other.
//! *Promise*: what `check_report` answers is the finding of its definition, for any bytes, as that of
//! `report_check` is. Which journals a shard takes is told by no finding.
#![tactic(auto)]

mod by_shard;
mod check;
mod replay;
mod tell;

pub use check::check_report;
