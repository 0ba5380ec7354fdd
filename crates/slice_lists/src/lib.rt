//! Slices as lists of tuples: what a slice shows, and what becomes of such lists where a tuple enters,
//! a slice is split or the first ones leave.
//!
//! *Stands on* the definitions of `stream_base`. *Promise*: what its definitions and the lemmas on them
//! say; they wait for no code that keeps slices. Each law of `runs` is the contract of a function that
//! does nothing: what becomes of slices where a tuple or a mark comes, by the cuts between neighbours
//! alone.
#![tactic(auto)]

pub mod runs;
mod slice;

pub use slice::Slice;
