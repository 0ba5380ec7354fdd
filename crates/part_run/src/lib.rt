//! The commands of the program that parts sources and joins reports, over any files and any sink.
//!
//! *From* the words of the command line *to* a status. *Stands on* `part_text` and `report_join` for
//! parts and reports, on `command_words` for words, and on `run_inputs` for files and statuses.
//! *Promise*: the contract of `scotty_part`, the call that the program makes.
#![tactic(auto)]

mod command;
mod defs;
mod join;
mod part;
mod part_fault;
mod printing;
mod reports;
mod words;

pub use command::scotty_part;
pub use part_fault::PartFault;
pub use words::{PartWords, defs_of, join_of, part_of};
