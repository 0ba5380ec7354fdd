//! Tests of shards through their public calls: worked cases whose answers were worked out by hand.
#![tactic(auto)]

#[cfg(test)]
mod shards;
