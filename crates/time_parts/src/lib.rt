//! The parts of tumbling and sliding windows and of windows of event counts in the state of a key.
//!
//! *From* the tuples and marks of a key that its store of slices has taken in and from moves of the
//! watermark, *to* the changes of one window. *Stands on* `key_parts`, whose trait says what a part
//! promises, and on `time_lanes` and `count_shift`, which do the work; general over the partials and
//! the queue of a lane. *Promise*: a part appends exactly the changes of its window.
#![tactic(auto)]

mod count_part;
mod ends;
mod lane_part;

pub use count_part::CountPart;
pub use lane_part::LanePart;
