//! Windows of the last tuples before each multiple of a period.
//!
//! At each multiple of a period that ends one with a tuple of a key, the key's last tuples before
//! it are selected, so many at most. *From* the entries of a journal, one after another, *to* the
//! changes that each of them causes. *Stands on* the base crate, its laws, the table of watermarks
//! and the aggregates. *Promise*: the changes are exactly those of the definitions, for each
//! journal that was applied, with at most a step for each tuple that a changed row selects; the
//! worked examples are computed from the definitions, and the laws hold of them.
//!
//! A follower keeps no journal and no row: of each key it keeps the tuples in event order. A tuple
//! changes the periods from its own on up to the first that has enough later tuples, so only those
//! are gone through, and where it comes in order and after the watermark, none.
#![tactic(auto)]

mod agenda;
mod batch;
mod change;
mod def;
pub mod examples;
pub mod laws;
mod reach;
mod row;
mod sample;
mod select;
mod stood;
mod tails;
mod timeline;
mod timelines;
mod walk;

pub use change::TailChange;
pub use def::TailDef;
pub use row::TailRow;
pub use tails::Tails;
