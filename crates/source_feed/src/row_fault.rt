ghost use Rattle.std.specs.Prelude.{◌≡◌};
ghost use Rattle.source_feed.specs.declared.row_fault.RowFault.TheVariants.{NoMemory as MemoryFault};

use crate::row_why::RowWhy;
use std::error::Error;
use std::fmt;
use stream_base::NoMemory;

/// Why a source's records give no further entry.
#[derive(Clone, Copy, Debug, PartialEq, Eq)]
pub enum RowFault {
    /// A record is refused. Records are numbered from 1, a header included.
    Refused { number: u64, why: RowWhy },
    /// An allocation was refused.
    NoMemory,
}

impl From<NoMemory> for RowFault {
    ghost from_gives = { λ _ fault. fault ≡ MemoryFault };

    fn from(_error: NoMemory) -> RowFault {
        RowFault::NoMemory
    }
}

impl fmt::Display for RowFault {
    fn fmt<W: fmt::Write>(&self, f: &mut fmt::Formatter<W>) -> fmt::Result {
        match self {
            RowFault::Refused { number, why } => write!(f, "record {number}: {why}"),
            RowFault::NoMemory => f.write_str("out of memory"),
        }
    }
}

impl Error for RowFault {}
