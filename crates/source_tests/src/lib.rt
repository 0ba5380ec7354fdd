//! Tests of definitions and sources through the public calls of their crates: worked cases whose
//! answers were worked out by hand, and the tables of what is accepted and refused.
#![tactic(auto)]

#[cfg(test)]
mod accepted;
#[cfg(test)]
mod counted;
#[cfg(test)]
mod cuts;
#[cfg(test)]
mod drained;
#[cfg(test)]
mod made;
#[cfg(test)]
mod refused;
#[cfg(test)]
mod sources;
