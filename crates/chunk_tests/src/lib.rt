//! Tests of the tuples of a key through their public calls: thousands of them, rising, falling, of one
//! time and at random, beside a plain list.
#![tactic(auto)]

#[cfg(test)]
mod both;
#[cfg(test)]
mod chunks;
#[cfg(test)]
mod draws;
