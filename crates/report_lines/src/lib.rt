//! The lines of reports: told and read.
//!
//! *From* the bytes of a line *to* the entry that it spells, and back; of changes only back. *Stands on*
//! `stream_base`, and on `report_laws` for how lines are told from each other. *Promise*: a line is taken
//! for what it spells by the letter, and what is told are exactly the lines of the definitions. `Line`
//! alone knows how they are written, for those who write a report and for those who read one.
#![tactic(auto)]

mod change_line;
mod entry_line;
mod guess;
mod line;
mod numbers;
mod pieces;
mod read;
mod report_form;
mod words;

pub use change_line::{put_change, put_changes};
pub use entry_line::put_entry;
pub use line::Line;
pub use numbers::{key_in, number_in};
pub use pieces::{end_piece, put_pieces};
pub use read::{entry_in, is_header};
pub use report_form::ReportForm;
pub use words::{split_at, split_line, split_word};
