//! Tests of watermarks and of the plain engine through their public calls: worked cases whose answers
//! were worked out by hand.
#![tactic(auto)]

#[cfg(test)]
mod keys;
#[cfg(test)]
mod watermarks;
