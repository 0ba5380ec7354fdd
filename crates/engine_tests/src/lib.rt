//! Tests that the two engines for the windows of one key say the same: the plain one, which folds a
//! key's lists anew, and the one on slices, each behind a shard of its own.
//!
//! *From* definitions and generated entries, applied to both shards in step, *to* their answers,
//! the changes under each entry and the slices of each key, which are compared as they come. Each
//! kind of window has a test, two tests have all kinds at once, and one of these takes 100,000
//! entries. Tuples come out of order, some of them late and some too late; each source has
//! watermarks, is idle now and then, and ends. How many changes there are at least is asked for too,
//! so that no comparison is of nothing.
//!
//! They stand in a crate of their own, since a crate with tests is proved twice.
#![tactic(auto)]

#[cfg(test)]
mod entries;
#[cfg(test)]
mod in_step;
#[cfg(test)]
mod kinds;
#[cfg(test)]
mod settled;
