//! The slices of one key: its tuples in event order, cut where a window starts or ends, at each mark
//! and at the least session gap, with a partial aggregate for each slice.
//!
//! *From* tuples and marks in any order of time, *to* folds of ranges that all windows of the key
//! share. *Stands on* `agg_store` for what windows ask of it, on `slice_runs` for the tuples, parted
//! into slices, and on `partials` for what each slice comes to; general over the tree that keeps the
//! partials. *Promise*: the slices are exactly the runs of the tuples with no cut between neighbours,
//! after each tuple that comes late, joins two slices or splits none, each mark and each purge; a fold
//! of a range is that of its tuples in event order; and the work is counted. The source is general
//! stream slicing (Traub et al., Scotty, TODS 2021).
//!
//! - `entering`, `splitting`, `leaving`: how the partials follow where a tuple enters slices, one is
//!   split or the first ones leave. Tuples of a slice are folded anew only where one comes between two
//!   of them and their order makes a difference, or where it is split.
//! - `store`: where a tuple enters and a mark cuts, by the definitions.
#![tactic(auto)]

mod entering;
mod leaving;
mod lifting;
mod placed;
mod splitting;
mod store;

pub use entering::enter;
pub use leaving::take_first;
pub use placed::Placed;
pub use splitting::split;
pub use store::SliceStore;
