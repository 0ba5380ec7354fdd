//! A tree of partial aggregates with a finger at its oldest and one at its newest leaf, so that a
//! late tuple costs what its distance asks for: the finger B-tree of Tangwongsan, Hirzel,
//! Schneider, "Optimal and general out-of-order sliding-window aggregation", VLDB 2019.
//!
//! *Stands on* `agg_laws`, and on `fiba_nodes`, which it shares with the arena tree.
//! *Promise*: a finger tree is its list of pairs with rising keys, and an insertion touches only the
//! levels that it climbs or splits, another value under a key only those that it climbs.
//!
//! - `ascending`, `growing`, `renewing`: a climb from a node on the right edge ends at a tree that has
//!   the place of a key, no higher than the distance asks, and an item let in there, be it in the
//!   place of another, leaves a sound tree again.
//! - `draining`: the first item is taken out along the left edge, and leaves a sound tree too, or of
//!   its root only one child.
//! - `put`, `set`, `take`, `tree`: the calls of the tree.
//!
//! Aggregates go by place. A node off both edges keeps that of its whole tree; one on an edge leaves
//! out the child on that edge. So what lies above a node on the right edge counts nothing of it, and
//! an insertion below it changes no aggregate further up, unless it splits a node.
#![tactic(auto)]

mod ascending;
mod climbed;
mod draining;
mod edge;
mod growing;
mod grown;
mod put;
mod raised;
mod renewing;
mod set;
mod take;
mod tree;

pub use ascending::climb;
pub use climbed::Climbed;
pub use draining::pull;
pub use edge::{leftmost, right_place, rightmost};
pub use growing::raise;
pub use grown::Grown;
pub use raised::Raised;
pub use renewing::renew;
pub use tree::FingerTree;
