//! Windows whose extents depend on the data: sessions, and the intervals between marks.
//!
//! *From* the tuples of one key in a store of slices, its marks and the moves of the watermark, *to*
//! the changes of one window of the key. *Stands on* `stream_base`, `window_laws`, `agg_laws`,
//! `agg_store`, `window_spans`, which tells the folds of the store, and `key_parts`, whose promise its
//! parts keep; it keeps the bounds of instances and no tuple. *Promise*: each call appends exactly its
//! window's changes, retractions first, with what stood before; the work is counted. A late tuple
//! joins sessions that had stood apart, and each of those is taken back.
//!
//! - `sessions`, `mark_windows`: one window over what is kept of its key.
//! - `session_part`, `mark_part`: the same in the state of a key, where settled slices have left.
#![tactic(auto)]

pub mod laws;
mod mark_part;
mod mark_windows;
mod session_part;
mod sessions;
mod settled;
mod windows;

pub use mark_part::MarkPart;
pub use mark_windows::MarkWindows;
pub use session_part::SessionPart;
pub use sessions::Sessions;
