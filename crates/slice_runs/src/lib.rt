//! The tuples of one key in event order, parted into slices: where slices are cut, which of them a
//! tuple enters, and the marks.
//!
//! *From* tuples and times *to* the slices behind them. *Stands on* `tuple_chunks` for the tuples, and on
//! `slice_lists` for what slices are. *Promise*: two times have a cut between them exactly where a window
//! cuts there. Slices are lists of tuples, and an edit makes of those lists what its contract says: a
//! tuple enters up to two neighbours, which become one, a time splits a slice in two, and the first
//! slices leave. What the tuples of a slice come to is told in at most one step for each.
#![tactic(auto)]

mod bounds;
mod cut;
mod cuts;
mod marks;
mod places;
mod runs;

pub use cut::{cut_between, have_cut};
pub use cuts::{first_entered, last_entered};
pub use marks::Marks;
pub use runs::Runs;
