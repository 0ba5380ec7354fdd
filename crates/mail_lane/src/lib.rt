//! Mail lanes: threads that send, and one that takes what they sent.
//!
//! *From* senders, each with a number of its own, *to* the one receiver of the lane. *Stands on* the
//! unbounded queue of `crossbeam_queue`, under a rule of this crate. *Promise*: of each sender the
//! receiver's messages are at every moment a prefix of what it sent, and once a settled lane has
//! given its last they are the whole of it, in order and once.
//!
//! Nothing is promised of waiting, nor of the order between senders.
#![tactic(auto)]

mod back;
mod letter;
mod line;
mod mail;
mod receiver;
mod role;
mod sender;
mod settled;

pub use back::Back;
pub use letter::Letter;
pub use mail::Mail;
pub use receiver::Receiver;
pub use sender::Sender;
pub use settled::Settled;
