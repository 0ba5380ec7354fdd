//! What the part of one window in the state of a key promises.
//!
//! *From* the tuples and marks of a key that its store of slices has taken in and from moves of the
//! watermark, *to* the changes of one window. *Stands on* `stream_base`, `agg_laws`, `window_laws`
//! and `agg_store`. *Promise*: a part appends exactly the changes of its window, keeps to a bound on
//! the steps for each change by a tuple or a mark, and takes memory only in the call that makes room.
#![tactic(auto)]

mod any_part;
mod key_part;

pub use any_part::AnyPart;
pub use key_part::KeyPart;
