//! Words that help: sentences for standard error, which say what is wrong in the words of the command line, in
//! definitions, in a record or with a file, and what is allowed there.
//!
//! *From* words, and the bytes of files that are read once more, *to* a text. *Stands on* what reads definitions and
//! records. *Promise*: each call is safe and ends, whatever the words and the files are. No contract says what the
//! sentences are: tests do. They stand beside the answer of the program, and change nothing of it.
#![tactic(auto)]

mod again;
mod def_words;
mod defs_words;
mod file_words;
mod help;
mod lines;
mod row_words;
mod rule;
mod slot;
mod usage;

pub use again::{Again, Look};
pub use defs_words::put_defs;
pub use file_words::{
    put_file, put_full_report, put_full_shard, put_full_source, put_full_watch, put_memory,
    put_unopened, put_unread,
};
pub use help::Help;
pub use lines::{line_from, start_of_line};
pub use row_words::put_row;
pub use usage::put_usage;
