//! The text of journals with the changes of tails under their entries.
//!
//! *From* shards, and lists of changes that stand beside their journals, *to* bytes. *Stands on* the
//! tails, on the text of reports and on its laws. *Promise*: exactly the text of the definitions is
//! appended to the sink, a failure is answered only where a write of the sink failed, and then a
//! prefix of the text went out; the text takes no memory. The journals are read back from it.
#![tactic(auto)]

mod change_line;
pub mod examples;
mod following;
pub mod laws;
mod report;

pub use following::tails_of;
pub use report::write_tails;
