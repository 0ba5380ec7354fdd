//! Reports of one shard each, which are parts of a report of all shards: whether a text is one, and what
//! of it stands in the report of all.
//!
//! *From* the bytes of a report *to* what is wrong with it, or its lines. *Stands on* `report_check`
//! for the journals that stand in a text, on `source_feed` for where entries go, and on `part_laws`
//! for the definition of a joined report. *Promise*: a text is accepted exactly where it begins and
//! ends as the report of one shard does, holds one journal, and all entries of that go to the shard.
#![tactic(auto)]

mod body;
mod join_why;
mod judge;
pub mod laws;

pub use body::{body_of, is_second_form};
pub use join_why::JoinWhy;
pub use judge::judge_shard_report;
