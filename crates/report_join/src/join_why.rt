use std::error::Error;
use std::fmt;

/// Why a text isn't the report of one shard: the first of these, in this order.
#[derive(Clone, Copy, Debug, PartialEq, Eq)]
pub enum JoinWhy {
    /// It doesn't begin or end as a report of one shard does, in this form, or it holds another number
    /// of journals.
    Shape,
    /// Its entry with this number, from 1, is the first that doesn't go to the shard.
    Entry { number: u64 },
}

impl fmt::Display for JoinWhy {
    fn fmt<W: fmt::Write>(&self, f: &mut fmt::Formatter<W>) -> fmt::Result {
        match self {
            JoinWhy::Shape => f.write_str("it isn't the report of one shard"),
            JoinWhy::Entry { number } => write!(f, "entry {number} doesn't go to the shard"),
        }
    }
}

impl Error for JoinWhy {}
