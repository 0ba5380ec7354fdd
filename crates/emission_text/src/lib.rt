//! The text of reports, of summaries and of fault lines, written to a sink.
//!
//! *From* shards and faults *to* bytes. *Stands on* the base crate, and on the sinks of its
//! outside. *Promise*: exactly the text of the definitions is appended to the sink. A failure is
//! answered only where a write of the sink failed, and then a prefix of the text went out. No
//! memory is taken.
#![tactic(auto)]

mod change_line;
mod entry_line;
mod fault;
mod fault_line;
mod finding_line;
mod pending;
mod pieces;
mod report;
mod sink_fault;
mod summary;
mod tally;
mod writing;

pub use change_line::put_change;
pub use entry_line::{put_entry, put_header};
pub use fault::Fault;
pub use fault_line::write_fault;
pub use finding_line::write_finding;
pub use pending::Pending;
pub use pieces::{put_numbered, put_pieces};
pub use report::{
    report_of_alike_shards_is_of_their_journals, write_form, write_report, write_report2,
};
pub use sink_fault::SinkFault;
pub use summary::write_summary;
