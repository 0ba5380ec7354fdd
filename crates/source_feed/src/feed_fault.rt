ghost use Rattle.std.specs.Prelude.{◌≡◌};
ghost use Rattle.source_feed.specs.FeedFault.{feed_fault, whole_fault};
ghost use Rattle.source_feed.specs.declared.feed_fault.FeedFault.TheVariants.{NoMemory as MemoryFault};

use crate::row_fault::RowFault;
use crate::row_why::RowWhy;
use crate::whole_fault::WholeFault;
use std::error::Error;
use std::fmt;
use stream_base::NoMemory;

/// Why a feed gives no further entry.
#[derive(Clone, Copy, Debug, PartialEq, Eq)]
pub enum FeedFault {
    /// A read of the source failed.
    Read,
    /// The source has more than 268,435,456 bytes.
    TooLong,
    /// A record is refused. Records are numbered from 1, a header included.
    Row { number: u64, why: RowWhy },
    /// An allocation was refused.
    NoMemory,
}

impl From<RowFault> for FeedFault {
    ghost from_gives = { λ fault given. given ≡ feed_fault fault };

    fn from(fault: RowFault) -> FeedFault {
        match fault {
            RowFault::Refused { number, why } => FeedFault::Row { number, why },
            RowFault::NoMemory => FeedFault::NoMemory,
        }
    }
}

impl From<WholeFault> for FeedFault {
    ghost from_gives = { λ fault given. given ≡ whole_fault fault };

    fn from(fault: WholeFault) -> FeedFault {
        match fault {
            WholeFault::Read => FeedFault::Read,
            WholeFault::TooLong => FeedFault::TooLong,
            WholeFault::NoMemory => FeedFault::NoMemory,
        }
    }
}

impl From<NoMemory> for FeedFault {
    ghost from_gives = { λ _ given. given ≡ MemoryFault };

    fn from(_error: NoMemory) -> FeedFault {
        FeedFault::NoMemory
    }
}

impl fmt::Display for FeedFault {
    fn fmt<W: fmt::Write>(&self, f: &mut fmt::Formatter<W>) -> fmt::Result {
        match self {
            FeedFault::Read => f.write_str("a read of the source failed"),
            FeedFault::TooLong => f.write_str("the source has too many bytes"),
            FeedFault::Row { number, why } => write!(f, "record {number}: {why}"),
            FeedFault::NoMemory => f.write_str("out of memory"),
        }
    }
}

impl Error for FeedFault {}
