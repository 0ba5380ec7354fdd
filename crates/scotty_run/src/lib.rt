//! A run of the program over any files, any sink and any gate: the words of the command line in, the
//! report or the first fault out, and a status.
//!
//! *From* the words *to* a status. *Stands on* everything below. *Promise*: the contract of `scotty`,
//! the call that the program makes.
#![tactic(auto)]

mod command;
mod gathering;
mod in_memory;
mod making;
mod settling;
mod tailed;
mod tailing;
mod watching;
mod ways;

pub use command::scotty;
pub use in_memory::report_is_of_what_files_tell;
pub use run_inputs::Status;
