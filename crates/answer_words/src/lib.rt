//! Help for the answer of a command: of a fault, what is wrong and what is allowed; of a report that isn't lawful, the
//! line that stands there and the one that belongs there.
//!
//! *From* the words of the command line, the line that was answered, and files that are read once more *to* a text.
//! *Stands on* `fault_words`, and, to tell a report anew, on the shard and the text of reports. *Promise*: it is safe and
//! ends, whatever the words, the line and the files are. What it says is tested.
#![tactic(auto)]

mod explaining;
mod line_sink;
mod report_words;
mod retold;
mod said;

pub use explaining::{WRITE_FAILED, explain, source_count};
