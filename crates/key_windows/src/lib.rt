//! What an engine for the windows of one key promises.
//!
//! *From* accepted tuples and marks of a key and moves of the watermark, *to* its changes. *Stands
//! on* `stream_base` and `agg_laws`. *Promise*: an engine appends exactly the changes of the
//! definitions, in their order, and takes memory only in the call that makes room.
#![tactic(auto)]

mod any_key;
mod either_key;
mod key_windows;

pub use any_key::AnyKey;
pub use either_key::EitherKey;
pub use key_windows::KeyWindows;
