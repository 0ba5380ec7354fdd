//! A row of partial aggregates: one sorted vector of pairs, whose first pair leaves without a move of
//! the others.
//!
//! *Stands on* `agg_laws`, for what pairs and aggregates are. *Promise*: a row is its list of pairs with
//! rising keys. Only the calls that combine take steps: one for a pair that is extended, and one for each
//! pair of a range that is folded. A row alone is `FlatTree`, the least that an `AggTree` can be.
#![tactic(auto)]

mod flat_tree;
mod front_vec;
mod pair_row;

pub use flat_tree::FlatTree;
pub use pair_row::PairRow;
