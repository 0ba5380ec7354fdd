//! The rows of one shard that stand, in their order, as changes keep them up.
//!
//! *From* changes, one after another, *to* the rows that stand behind them. *Stands on* `stream_base` and
//! on the laws of `model_laws`. *Promise*: each change leaves the rows that the definition makes of them,
//! and whether a change finds the rows that it takes for granted is told before. Memory follows what
//! stands, and not the changes.
#![tactic(auto)]

mod place;
mod seen;
mod standing;

pub use place::Place;
pub use seen::Seen;
pub use standing::StandingRows;
