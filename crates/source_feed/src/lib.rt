//! The way from a source's bytes to its entries, and from an entry to its shards.
//!
//! *From* the bytes of a source of the outside, or from a seed, *to* the entries that the machine works
//! on.
//! *Stands on* `stream_base` for keys, entries and sources, on `byte_pieces` for the bytes that are read,
//! and on `csv` for records. *Promise*: a
//! source's entries are those that the definition reads from its bytes, with the watermarks that wake
//! it or are made and the last end, or those before the first refusal, with its record number and
//! reason. A generated source's entries are those that the definition deals it, and never refused.
#![tactic(auto)]

mod entry_log;
mod event;
mod feed;
mod feed_fault;
mod file_feed;
mod generator;
mod limits;
mod made_feed;
mod made_input;
mod made_tuple;
mod numbers;
mod pace;
mod record;
mod records;
mod row_fault;
mod row_why;
mod rows;
mod shard;
mod store;
mod waiting;
mod whole;
mod whole_fault;

pub use feed::Feed;
pub use feed_fault::FeedFault;
pub use file_feed::FileFeed;
pub use limits::limits_are_these_numbers;
pub use made_feed::{MADE_ROWS_MAX, MadeFeed};
pub use made_input::{MADE_DISORDER, MADE_EVERY, MADE_LATENESS, made_defs};
pub use row_fault::RowFault;
pub use row_why::RowWhy;
pub use rows::Rows;
pub use shard::{goes_to, route};
pub use whole::{SOURCE_MAX, read_pieces, read_whole};
pub use whole_fault::WholeFault;
