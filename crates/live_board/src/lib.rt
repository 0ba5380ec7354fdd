//! A live board: how many rows of each window stand, for readers that wait for nobody.
//!
//! *From* the entries of several sources *to* a shard with all of them, and what each reader has
//! read. *Stands on* the shard, and on `left_right`, whose readers take a value that one writer
//! publishes with no lock and no wait. *Promise*: each read is the tally of some first entries of
//! the shard's journal, reads never fall, and the last read of each reader is of the whole journal.
//!
//! # The rule of the board
//!
//! What readers see is a board: a course, which is the definitions and the sources, and the tally
//! of some of its entries. A view of a place is the board that was seen there last, or none yet.
//! The rule holds between any two steps:
//!
//! - The board shows a tally of its own course.
//! - It is later than each board that was seen: of the same course, and of no fewer entries.
//!
//! | Step | View that changes | In the board |
//! |---|---|---|
//! | a reader takes the board | own: the board that it took | nothing |
//! | the writer publishes | own: the board that it shows now | a tally of no fewer entries |
//! | the writer tells a new reader | the reader's: what the writer has seen | nothing |
//!
//! A new place has seen nothing, and can't know the course. So the writer first publishes the board
//! as it is, before any thread is started: from then on it has seen a board of the course, and
//! tells each new reader of it.
//!
//! # How rows are counted
//!
//! Behind an entry as many rows of a window stand as before it, with those that the entry emits and
//! without those that it retracts. So a tally follows the shard's changes, and no row is looked at
//! twice.
#![tactic(auto)]

mod author;
mod board;
mod counting;
mod course;
mod finish;
mod reading;
mod rule;
mod side_by_side;
mod tally;
mod turns;
mod watch;
mod watch_fault;
mod watched;
mod watcher;
mod writing;

pub use tally::Tally;
pub use watch::watch_entries;
pub use watch_fault::WatchFault;
pub use watched::Watched;
