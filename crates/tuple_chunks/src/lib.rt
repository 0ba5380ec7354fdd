//! The tuples of one key in event order.
//!
//! *Stands on* `aggregates` for what tuples come to, and on `slice_lists` for how a range of them shows.
//! *Promise*: the tuples are a list whose times don't fall; a tuple enters at its place, the first ones
//! leave, and a range of times folds in at most one step for each of its tuples.
#![tactic(auto)]

mod chunk;
mod part;
mod places;
mod row;
mod sums;
mod tuples;

pub use tuples::Tuples;
