//! The text of what the readers of a board have read, written to a sink.
//!
//! *From* the reads of each reader *to* bytes. *Stands on* the board, whose tallies the reads are, and
//! on the texts that go out in parts. *Promise*: exactly the text of the definitions is appended to
//! the sink: a line for each read, by reader and then in order, and a last line. A failure is
//! answered only where a write of the sink failed, and then a prefix of the text went out. No
//! memory is taken.
#![tactic(auto)]

mod reads;

pub use reads::write_reads;
