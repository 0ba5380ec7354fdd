//! Windows of so many tuples in event order. A late tuple shifts each later one of its key by one
//! place, so every standing instance from its rank on selects other tuples.
//!
//! *From* a key's accepted tuples and the moves of the watermark, *to* the changes of its events
//! windows. *Stands on* `stream_base` and `agg_laws`. *Promise*: each call appends exactly its
//! window's changes, at most two combines a tuple for each instance that it tells.
#![tactic(auto)]

mod count_lane;
mod events_window;
mod fold;
pub mod laws;
mod ranks;
mod shifted;

pub use count_lane::CountLane;
pub use shifted::Shifted;
