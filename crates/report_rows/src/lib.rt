//! What a report's lines tell of its shards: the rows that stand behind each journal.
//!
//! *From* the bytes of a report, one after another, *to* its shards. *Stands on* the lines of
//! `report_lines`, on the rows of `standing_rows`, and on the laws of `row_laws`. *Promise*: what is told
//! is what the definition reads in the text, whatever the text; a line that may not stand where it does is
//! refused by its number as soon as it was read. No report is refused. Memory follows what stands.
#![tactic(auto)]

mod change;
mod entry_log;
mod fields;
mod fits;
mod numbers;
mod place;
mod shard;
mod sources;
mod text;
mod text_fault;
mod told;

pub use change::change_in;
pub use shard::ShardRows;
pub use text::{TextReader, rows_of};
pub use text_fault::TextFault;
