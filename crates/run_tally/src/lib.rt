//! What a run came to, heard from the lines of its report while they are written.
//!
//! *From* the bytes that a sink takes *to* the last line of them, and a tally: how many tuples and marks there were,
//! how many were dropped and how late, and how many results were told. *Stands on* the sinks of `outside`. *Promise*:
//! a sink that is listened to takes and fails as the sink itself does. What is heard has no contract, and is tested: it
//! stands beside the answer of the program.
#![tactic(auto)]

mod ear;
mod heard;
mod line;
mod shard_tally;
mod tally;
mod waters;
mod words;

pub use heard::Heard;
pub use tally::Tally;
