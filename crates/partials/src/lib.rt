//! Partial aggregates of slices, under the starts of these: the newest in a row beside a tree.
//!
//! *Stands on* `agg_laws`, for any tree, and `pair_row` for the row. *Promise*: row and tree together are
//! one list of pairs, and the work of each call is bounded by the reach of both.
#![tactic(auto)]

mod partials;

pub use partials::Partials;
