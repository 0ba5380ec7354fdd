//! The watermarks of a shard's sources, and which tuples and marks are late.
//!
//! *Stands on* the base crate. *Promise*: the table's watermark is that of the journal whose
//! watermarks, idle words and ends it took in, and a tuple or mark is late exactly where its time
//! plus the lateness is below it.
#![tactic(auto)]

mod standing;
mod tally;
mod verdict;
mod waters;

pub use standing::Standing;
pub use verdict::Verdict;
pub use waters::{Waters, tuple_or_mark_leaves_the_table, watermark_is_at_most_final};
