//! Whether a report is lawful, judged by the definitions alone.
//!
//! *From* the bytes of a report and the entries of its sources *to* a finding. *Stands on* the base
//! crate, on the windows of one key over plain lists, and on the way from a key to its shard: no
//! slice, queue or tree has a part in it.
//! *Promise*: what `check_report` answers is the finding of its definition, for any bytes: it reads the
//! journals out of the text, tells their report anew from the plain lists of each key, and says the
//! first line in which the text isn't that report, or the first shard whose journal isn't what the
//! sources said.
#![tactic(auto)]

mod apart;
mod by_lists;
mod check;
pub mod examples;
mod finding;
mod form;
mod inserting;
mod journal;
mod judge;
mod key_lists;
pub mod laws;
mod ledger;
mod moves;
mod read;
mod routes;
mod same;
mod step;
mod tell;
mod teller;
mod waters;

pub use by_lists::ByLists;
pub use check::{check_report, check_report_by};
pub use finding::Finding;
pub use journal::Journal;
pub use read::journals_of;
pub use teller::Teller;
