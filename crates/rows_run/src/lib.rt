//! The rows of a report, over any files and any sink: the words of the command line in, the rows or the
//! first fault out, and a status.
//!
//! *From* the words *to* a status. *Stands on* `report_rows` for what a report tells, and on `row_text` for
//! how rows are written. *Promise*: the contract of `rows`, the call that the program makes.
#![tactic(auto)]

mod command;
mod fault;
mod reading;
mod sending;
mod status;
mod words;

pub use command::rows;
pub use fault::RowsFault;
pub use status::Status;
pub use words::{RowsWords, words_of};
