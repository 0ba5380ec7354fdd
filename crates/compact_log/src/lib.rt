//! The entries of a journal and the changes under them, in few bytes each.
//!
//! *From* entries and changes *to* the same lists. *Stands on* `stream_base`. *Promise*: a log is
//! the list of what was pushed, whatever it was; memory is taken only by the call that makes room.
//!
//! Each has a cell: 24 bytes for an entry, 48 for a change. A key, of up to 64 bytes, is held once,
//! and cells tell its place. A place that comes with what is pushed is a hint: the key that is held
//! there is compared. What a cell can't tell is stored whole beside the cells, and its cell tells
//! its number there: so no time, value, count or key is ever changed or refused.
#![tactic(auto)]

mod change_cell;
mod change_form;
mod change_range;
mod changes;
mod entries;
mod entry_cell;
mod entry_kind;
mod key_place;
mod short;
mod shown_cell;
mod shown_form;

pub use change_range::ChangeRange;
pub use changes::Changes;
pub use entries::Entries;
