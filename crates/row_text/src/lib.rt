//! The rows of shards as lines for other tools: a table of comma-separated values with a header, or one
//! JSON object a line.
//!
//! *From* the shards that a report tells *to* bytes. *Stands on* `report_rows`, and on the rules of `csv`
//! for what a field is written as. *Promise*: what is put behind a text are exactly the lines of the
//! definition: a line for each row, or for each of one key, in the order of the shards and of their rows.
#![tactic(auto)]

mod csv_line;
mod format;
mod json_line;
mod quoting;
mod table;

pub use format::Format;
pub use table::put_rows;
