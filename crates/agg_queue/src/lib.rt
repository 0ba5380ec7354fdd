//! Queues of partial aggregates, which fold all of their items at any time.
//!
//! *Stands on* `agg_laws`, whose trait `AggQueue` says what a queue is and costs. *Promise*: both
//! queues are the list of their items, front first. `TwoStacks` pays for its work on credit;
//! `Daba` has a bound for each single call.
#![tactic(auto)]

mod bounds;
mod cell;
mod cells;
mod daba;
mod turning;
mod two_stacks;

pub use daba::Daba;
pub use two_stacks::TwoStacks;
