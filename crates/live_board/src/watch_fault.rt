ghost use Rattle.live_board.specs.declared.watch_fault.WatchFault.TheVariants.{NoMemory};
ghost use Rattle.std.specs.Prelude.{◌≡◌};

use std::error::Error;
use std::fmt;

/// Why nothing was watched.
#[derive(Clone, Copy, Debug, PartialEq, Eq)]
pub enum WatchFault {
    /// The sources have more entries than a journal holds.
    Full,
    /// Want of memory.
    NoMemory,
}

impl fmt::Display for WatchFault {
    fn fmt<W: fmt::Write>(&self, f: &mut fmt::Formatter<W>) -> fmt::Result {
        f.write_str(match self {
            WatchFault::Full => "the journal is full",
            WatchFault::NoMemory => "out of memory",
        })
    }
}

impl Error for WatchFault {}

impl From<stream_base::NoMemory> for WatchFault {
    ghost from_gives = { λ _ fault. fault ≡ NoMemory };

    fn from(_error: stream_base::NoMemory) -> WatchFault {
        WatchFault::NoMemory
    }
}
