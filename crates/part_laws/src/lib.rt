//! Laws of parts: a source's entries for one shard, written out, are a source of their own, and runs
//! of one shard over such parts are, taken together, a run of all shards.
//!
//! *Stands on* `stream_base` and `source_feed`, whose `specs` are the definitions, and on `csv`.
#![tactic(auto)]

pub mod joined;
pub mod part;
pub mod run;
