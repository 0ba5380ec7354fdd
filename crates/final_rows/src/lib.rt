//! The rows that stand once all sources have ended, whatever the schedule.
//!
//! *From* the rows that stand in each shard *to* one list in one order. *Stands on* the definitions
//! of `stream_base`, the laws of `window_laws`, and for the generated input on `source_feed`.
//! *Promise*: where nothing is dropped and no key has two tuples of one time, this list is that of
//! the definition, which knows the sources' entries alone: no shard, no schedule and no position in
//! a journal. The generated sources are such.
#![tactic(auto)]

mod at_end;
mod generated;
mod sorted;

pub use at_end::rows_at_the_end_are_the_final_rows;
pub use generated::generated_sources_have_one_result;
pub use sorted::sort_rows;
