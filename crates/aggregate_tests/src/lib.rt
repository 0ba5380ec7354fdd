//! Tests of partial aggregates and their structures through their public calls: worked cases whose
//! answers were worked out by hand, bounds on steps, and each generic item once at a type. They
//! stand in a crate of their own, since a crate with tests is proved twice.
#![tactic(auto)]

#[cfg(test)]
mod functions;
#[cfg(test)]
mod queues;
#[cfg(test)]
mod trees;
