//! What an aggregate is as a monoid, and what a queue and a tree of partial aggregates promise.
//!
//! *Stands on* `stream_base`. *Promise*: a monoid has a unit on both sides and combines in any
//! grouping, a queue or a tree is its list, and each combine is counted as one step.
#![tactic(auto)]

mod agg_queue;
mod agg_tree;
mod lift;
mod monoid;
mod pair;
mod probes;
mod steps;

pub use agg_queue::AggQueue;
pub use agg_tree::AggTree;
pub use lift::Lift;
pub use monoid::Monoid;
pub use pair::Pair;
pub use probes::Probes;
pub use steps::Steps;
