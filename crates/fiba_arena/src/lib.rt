//! A balanced tree of partial aggregates in an arena: the B-tree of 1 to 3 items a node that FiBA
//! stands on (Tangwongsan, Hirzel, Schneider, "Optimal and general out-of-order sliding-window
//! aggregation", VLDB 2019).
//!
//! *Stands on* `agg_laws` and `fiba_nodes`. *Promise*: an arena tree is its list of pairs with rising
//! keys, and its work grows with its height, which is a logarithm of their number.
#![tactic(auto)]

mod tree;

pub use fiba_nodes::{Item, Node, Nodes};
pub use tree::ArenaTree;
