//! The windows of one key, found from plain lists: the tuples that are kept of it, in event order, and
//! its marks. No slice, queue or tree stands between a definition and its answer.
//!
//! *From* a key's lists and a watermark, *to* its instances, the changes from one moment to another,
//! the rows that stand and the number of slices. *Stands on* `stream_base`, `agg_laws` and
//! `window_laws`. *Promise*: each answer is the definition's, and none but those that say so take
//! memory.
#![tactic(auto)]

mod changes;
mod completions;
mod cuts;
mod extent;
mod fate;
mod fold;
mod intervals;
mod kinds;
pub mod laws;
mod places;
mod ranks;
mod rows;
mod sessions;
mod slices;
mod spans;
mod stretches;
mod time;
mod view;
mod walk;
mod window;

pub use changes::{append_changes, count_changes};
pub use completions::{append_completions, bound_from, count_completions, next_bound};
pub use extent::Extent;
pub use kinds::{first_above, first_from};
pub use places::{marks_before, tuples_before};
pub use rows::append_rows;
pub use slices::slice_count;
pub use view::View;
