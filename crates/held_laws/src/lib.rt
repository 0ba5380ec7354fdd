//! Laws of what the store of a key holds of the key, over plain lists: what it goes on to hold,
//! which tuples may leave, and how many slices of unsettled tuples there are.
//!
//! *Stands on* `window_laws`, and on the definitions of `stream_base`, `agg_store`, `key_parts`
//! and, for what some parts ask, `context_windows`. *Promise*: each law is the contract of a
//! function that does nothing, and asks nothing of a key and its store that a key's don't meet.
//!
//! - `holding`: the store of a fresh key holds it, and goes on to do so where a tuple or a mark
//!   comes and where the watermark moves.
//! - `purging`: its slices are those of the key and part where tuples cease to be settled, and
//!   where settled ones are dropped it goes on to hold the key.
//! - `settling`: settled tuples that left change nothing of which others are settled, and these are
//!   settled up to the least of the times of the windows and the watermark minus the lateness. A
//!   store without settled tuples stays so where a tuple comes, and where most marks come.
//! - `counting`: the slices of unsettled tuples are the last slices of the store, and all where no
//!   tuple in it is settled.
//! - `parts`: the store holds what sessions and intervals between marks select of what is left, and
//!   its slices part where these start and end.
#![tactic(auto)]

pub mod counting;
pub mod holding;
pub mod parts;
pub mod purging;
pub mod settling;
