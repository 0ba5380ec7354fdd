//! Shards that the entries of several feeds go to: at desks, where callers take turns, or by mail.
//!
//! *From* the entries of several feeds *to* the journals of several shards. *Stands on*
//! `shard_core`, `turnstile`, `mail_lane` and `source_feed`. *Promise*: an offer is one turn that
//! applies one entry. The entry then stands last in the list that the caller's pass has seen, under
//! its number, and its changes are those of the definitions behind that list. A refused offer
//! leaves the journal as it was, and its cause holds of it.
//!
//! To gather is to read all feeds side by side and to apply each entry to its shards. There are two
//! ways: `TurnFeeds` offers entries at a desk for each shard, and `MailFeeds` sends them on a lane
//! for each shard, whose owner applies what it takes. Both promise the same. Each shard's journal
//! then holds, of each source, the first of its entries that are routed there, in order, and no
//! other; all of them where the feed's outcome is `Done`. Each feed comes back with its outcome.
#![tactic(auto)]

mod booked;
mod desk;
mod door;
mod fixed_part;
mod gathered;
mod hand_out;
mod mail;
mod number_log;
mod numbering;
mod outcome;
mod place;
mod plan;
mod port;
mod reader;
mod reading;
mod side_by_side;
mod turns;
mod work;

pub use booked::{Booked, BookedBy};
pub use desk::{Desk, offer};
pub use fixed_part::FixedPart;
pub use gathered::{FeedEnd, Gathered, Unstarted};
pub use mail::gather::MailFeeds;
pub use numbering::{AnyPass, Numbering};
pub use outcome::Outcome;
pub use plan::Plan;
pub use turns::gather::TurnFeeds;
