//! Worked examples, computed by the checker from the definitions of a source's bytes, of a
//! definitions file's, and of generated sources: these bytes spell this, or are refused so.
//!
//! *Stands on* `source_feed` and `window_defs`. *Promise*: each example is a clause of a function
//! that does nothing, with the answer as a reader works it out by hand.
#![tactic(auto)]

pub mod definitions;
pub mod keys;
pub mod made;
pub mod made_watermarks;
pub mod numbers;
pub mod records;
pub mod refused_definitions;
pub mod refused_records;
pub mod waking;
