//! What windows ask of a store of slices, whoever keeps it.
//!
//! *Stands on* `agg_laws`, `aggregates` and `slice_lists`. *Promise*: a store is a list of slices and
//! a set of marks, a fold of a range is that of its tuples in event order, and its steps are
//! counted. It is the aggregate store of general stream slicing (Traub et al., Scotty, TODS 2021).
#![tactic(auto)]

mod agg_store;

pub use agg_store::AggStore;
