//! The lanes of tumbling and sliding windows: for each window of a key a queue of the partial
//! aggregates of slices, which slides over them.
//!
//! *From* the slices of a key and the moves of the watermark, *to* the changes of one window.
//! *Stands on* `stream_base`, `agg_laws` for queues of aggregates, `window_laws` for the
//! walk over intervals, and `agg_store`; general over the partials, the queue and the store.
//! *Promise*: each call appends exactly its window's changes. A move takes up each slice once,
//! whatever the length of the window, and makes one step more for each row, so that a jump over
//! empty intervals costs nothing. The source is general stream slicing (Traub et al., Scotty, TODS
//! 2021) over a queue that aggregates in order (Tangwongsan, Hirzel, Schneider, DEBS 2017).
//!
//! - `span`, `next`, `served`: the intervals of a window, and which of them come next over a store.
//! - `held`, `due`: the partials that are held for the coming intervals, and how these are told.
//! - `late`, `folds`, `joined`: the intervals that hold a late tuple, folded from parts that they share,
//!   or where the order of values makes no difference told by what stood and one value.
//! - `lane`: the queue of one window.
#![tactic(auto)]

mod due;
mod folds;
mod held;
mod joined;
mod lane;
mod late;
pub mod laws;
mod next;
mod owner;
mod served;
mod span;

pub use due::{count_due, tell_due};
pub use held::Held;
pub use joined::{append_joined, is_order_free};
pub use lane::Lane;
pub use late::{Complete, append_formers, append_late, complete_at};
pub use next::end_from;
pub use owner::Owner;
pub use served::{Served, serve, window_at};
pub use span::Span;
