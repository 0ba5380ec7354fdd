ghost use Rattle.std.specs.Prelude.{◌≡◌};
ghost use Rattle.source_feed.specs.declared.whole_fault.WholeFault.TheVariants.{NoMemory as MemoryFault, Read as ReadFault};

use outside::Failed;
use std::alloc::AllocError;
use std::error::Error;
use std::fmt;

/// Why a source wasn't read whole.
#[derive(Clone, Copy, Debug, PartialEq, Eq)]
pub enum WholeFault {
    /// A read failed.
    Read,
    /// The source gave more bytes than the limit.
    TooLong,
    /// An allocation was refused.
    NoMemory,
}

impl From<Failed> for WholeFault {
    ghost from_gives = { λ _ fault. fault ≡ ReadFault };

    fn from(_error: Failed) -> WholeFault {
        WholeFault::Read
    }
}

impl From<AllocError> for WholeFault {
    ghost from_gives = { λ _ fault. fault ≡ MemoryFault };

    fn from(_error: AllocError) -> WholeFault {
        WholeFault::NoMemory
    }
}

impl fmt::Display for WholeFault {
    fn fmt<W: fmt::Write>(&self, f: &mut fmt::Formatter<W>) -> fmt::Result {
        f.write_str(match self {
            WholeFault::Read => "a read of the source failed",
            WholeFault::TooLong => "the source has too many bytes",
            WholeFault::NoMemory => "out of memory",
        })
    }
}

impl Error for WholeFault {}
