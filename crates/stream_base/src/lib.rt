//! The words of the runtime: keys, entries, window definitions, results and their changes, and the
//! definitions that all promises are about.
//!
//! *Stands on* std alone. *Promise*: each type keeps its limits.
#![tactic(auto)]

mod change;
mod def;
mod defs;
mod entry;
mod former;
mod func;
mod kept;
mod key_text;
mod kind;
mod limits;
mod no_memory;
mod row;
mod shown;
mod what;

pub use change::Change;
pub use def::Def;
pub use defs::{Defs, LimitFault};
pub use entry::Entry;
pub use former::Former;
pub use func::Func;
pub use kept::Kept;
pub use key_text::{KeyFault, KeyText};
pub use kind::Kind;
pub use limits::{EVERY_MAX, FINAL, JOURNAL_MAX, KEY_MAX, LENGTH_RATIO_MAX, TIME_MAX, WINDOWS_MAX};
pub use no_memory::NoMemory;
pub use row::Row;
pub use shown::Shown;
pub use what::What;
