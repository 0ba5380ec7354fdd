//! Tests of the windows of the last tuples through their public calls: worked cases whose answers
//! were worked out by hand, and generated entries that a plain body is compared on.
#![tactic(auto)]

#[cfg(test)]
mod draws;
#[cfg(test)]
mod kept;
#[cfg(test)]
mod moment;
#[cfg(test)]
mod plain;
#[cfg(test)]
mod random;
#[cfg(test)]
mod rows;
#[cfg(test)]
mod source;
