//! What windows whose extents depend on the data share: the spans of their instances.
//!
//! *From* spans that lie apart and marks that rise, *to* the spans near a time or due by a
//! watermark, to what a tuple or a mark makes of them, and to the changes of the instances over
//! them. *Stands on* `stream_base`, `window_laws`, `slice_lists`, `aggregates`, `agg_laws` and
//! `agg_store`, whose folds it tells. *Promise*: each answer is that of its definition over plain
//! lists, and an instance is told in at most 64 (r + 2) steps over a store of reach r.
#![tactic(auto)]

mod ahead;
mod edges;
mod joining;
mod parting;
mod searching;
mod span;
mod standing;
mod telling;

pub use ahead::{end_after, end_of_last_begun, start_after};
pub use edges::{add_mark, are_mostly_needless, holder, leave_marks};
pub use joining::{changes_of_joining, joined, replace};
pub use parting::{back_of, front_of, is_filled, part, part_if};
pub use searching::{
    Places, between, due, first_asked, first_before, first_or, first_standing, near,
};
pub use span::Span;
pub use standing::Standing;
pub use telling::{Teller, ask, tell_all, tell_joined, tell_part, tell_taken};
