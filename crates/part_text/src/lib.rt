//! The part of a source for one shard of many, written out as a source of its own, and the definitions
//! under which it is read.
//!
//! *From* a source's feed and its definitions *to* CSV and TOML. *Stands on* `source_feed` for feeds and
//! for where entries go, on `byte_pieces` for what is held of a part, on `csv` for records, on `window_defs` for definitions files, and on
//! `part_laws` for the definition of a part. *Promise*: exactly the bytes of the definitions; the
//! definitions of a part are read back as such.
#![tactic(auto)]

mod defs_text;
mod defs_text_fault;
mod event;
mod feed_part;
mod held_part;
mod part;

pub use defs_text::part_defs_bytes;
pub use defs_text_fault::DefsTextFault;
pub use feed_part::part_of_feed;
pub use part::part_bytes;
