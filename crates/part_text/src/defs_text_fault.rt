ghost use Rattle.std.specs.Prelude.{◌≡◌};
ghost use Rattle.part_text.specs.declared.defs_text_fault.DefsTextFault.TheVariants.{NoMemory as MemoryFault};

use std::alloc::AllocError;
use std::error::Error;
use std::fmt;

/// Why definitions weren't written out.
#[derive(Clone, Copy, Debug, PartialEq, Eq)]
pub enum DefsTextFault {
    /// The text isn't read back as the definitions. No such definitions are known.
    Unread,
    /// An allocation was refused.
    NoMemory,
}

impl From<AllocError> for DefsTextFault {
    ghost from_gives = { λ _ fault. fault ≡ MemoryFault };

    fn from(_error: AllocError) -> DefsTextFault {
        DefsTextFault::NoMemory
    }
}

impl fmt::Display for DefsTextFault {
    fn fmt<W: fmt::Write>(&self, f: &mut fmt::Formatter<W>) -> fmt::Result {
        f.write_str(match self {
            DefsTextFault::Unread => "the text isn't read back as the definitions",
            DefsTextFault::NoMemory => "out of memory",
        })
    }
}

impl Error for DefsTextFault {}
