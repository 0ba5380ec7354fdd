//! One shard: a journal of entries, and under each entry the changes of the results that it causes.
//!
//! *From* routed entries *to* their changes. *Stands on* the base crate, the logs that keep entries
//! and changes in few bytes each, the table of watermarks, an engine for the windows of one key, of
//! which it knows the contract alone, and rows that are kept up by changes, by which it tells what
//! stands. *Promise*: for the shard's own journal, the changes at each position are those of the
//! definitions, whatever entries are applied, and a refused entry changes nothing. A tuple or mark
//! that isn't late takes no more steps than the engine bounds for its key; a late or refused entry
//! takes none, nor does a word on progress that leaves the watermark as it is.
//!
//! The state of a key is told a move of the watermark only where something of the key is complete
//! or settled by then. Up to there it stands as it is, so that nothing is made up for when a tuple
//! or mark comes, and its cost is that of the key alone.
//!
//! An engine appends to a plain list, which goes to the log of changes with the place of its key as
//! soon as the key is done: what a move of the watermark changes of many keys never waits at once.
#![tactic(auto)]

mod applied;
mod dues;
mod hints;
mod intake;
mod key_index;
mod keys;
mod moving;
mod past;
mod rows;
mod shard;
mod sliced;
mod slices;
mod slot;
mod told;

pub use applied::{Applied, ApplyFault};
pub use compact_log::ChangeRange;
pub use shard::KeyedShard;
pub use sliced::Shard;
