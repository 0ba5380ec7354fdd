//! Worked examples, computed by the checker from the definitions of `stream_base`: under each entry
//! of a small journal stand these changes and no others.
//!
//! *Stands on* `stream_base`. *Promise*: each example is a clause of a function that does nothing,
//! with the answer as a reader works it out by hand.
#![tactic(auto)]

pub mod counts;
pub mod formers;
pub mod functions;
pub mod idle;
pub mod limits;
pub mod marks;
pub mod reports;
pub mod routes;
pub mod sessions;
pub mod slices;
pub mod sliding;
pub mod standing;
pub mod tumbling;
pub mod watermarks;
