//! The words of the command line: which command they are, if they are one.
//!
//! *From* words *to* a command with what it names. *Stands on* `emission_text` for the forms of a
//! report, on `window_defs` for the words of functions, and on `tail_windows` for what a run of tails
//! selects. *Promise*: words are those of at most one command, which is told with all that it names;
//! other words are none's.
#![tactic(auto)]

mod last_words;
mod way;
mod words;

pub use last_words::{LastWords, last_of};
pub use way::Way;
pub use words::{
    CheckWords, MadeWords, RunWords, WatchWords, are_names, check_of,
    commands_are_told_apart_by_their_words, is_name, made_of, number_within, run_of, says,
    watch_of,
};
