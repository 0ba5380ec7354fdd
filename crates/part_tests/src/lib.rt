//! Tests of the commands that part sources and join reports, over files and sinks in memory: worked
//! cases whose answers were worked out by hand, and the causes of refusal. They stand in a crate of
//! their own, since a crate with tests is proved twice.
#![tactic(auto)]

#[cfg(test)]
mod cases;
#[cfg(test)]
mod definitions;
#[cfg(test)]
mod refusals;
#[cfg(test)]
mod texts;
