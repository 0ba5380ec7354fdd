//! The part of a window of any kind in the state of a key.
//!
//! *From* the tuples and marks of a key in its store of slices and moves of the watermark, *to* the
//! changes of one window of any kind. *Stands on* `time_parts` and `context_windows`, whose parts it
//! hands each call on to. *Promise*: that of `key_parts`, for the window at each place of all
//! definitions of which the partials show the function.
//!
//! - `window_part`: the list of the parts, which serve each kind of window.
//! - `either_part`: one of two parts, chosen by the kind of its window.
#![tactic(auto)]

mod either_part;
mod laws;
mod window_part;

pub use either_part::EitherPart;
pub use laws::lanes_alone_take_up_slices;
pub use window_part::WindowPart;
