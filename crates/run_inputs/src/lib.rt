//! The files that a command reads: its definitions, its sources and a report that is judged, over any
//! files; and the statuses with which it ends.
//!
//! *From* names *to* definitions, opened feeds, lists of entries, a finding; or to the fault that
//! stops the command. *Stands on* `outside` for files, on `window_defs`, `source_feed` and
//! `report_check` for what their bytes mean, and on `command_words` for the words of a check.
//! *Promise*: the first ones of the names are opened, each once and in order; each that was opened is
//! given back; and each fault names what was seen.
#![tactic(auto)]

mod definitions;
mod judging;
mod opening;
mod reading;
mod status;

pub use definitions::read_definitions;
pub use judging::find;
pub use opening::{close_feeds, open_sources};
pub use reading::{fault_of, read_sources};
pub use status::{Status, status_of, status_of_finding};
