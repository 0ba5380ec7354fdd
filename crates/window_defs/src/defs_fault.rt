ghost use Rattle.std.specs.Prelude.{◌≡◌};
ghost use Rattle.window_defs.specs.declared.defs_fault.DefsFault.TheVariants.{NoMemory};

use std::alloc::{AllocError, AllocFailed};
use std::error::Error;
use std::fmt;

/// Why bytes are no window definitions. The first that holds is answered, in this order: the length,
/// the document, the shape of its top, the number of windows, the limits of its top, and then the
/// first window in trouble, where a wrong shape is told before a limit.
#[derive(Clone, Copy, Debug, PartialEq, Eq)]
pub enum DefsFault {
    /// There are more than 1,048,576 bytes.
    Long,
    /// The bytes are no TOML document.
    Toml,
    /// With no window named: a top key other than `lateness`, `every`, `disorder` and `window` is
    /// there, one of the first three is no integer, or `window` is missing or no array. Else the
    /// window is no table, its `kind` or `func` is missing or no word for one, its keys aren't
    /// exactly those of its kind, or one of its numbers is no integer.
    Shape { window: Option<u32> },
    /// There is no window, or there are more than 32.
    Many,
    /// With no window named: lateness, every or disorder is beyond its limits. Else one of the
    /// numbers of the window is, and the shape of the window is right.
    Limit { window: Option<u32> },
    /// An allocation was refused. It may come in place of any answer.
    NoMemory,
}

impl fmt::Display for DefsFault {
    fn fmt<W: fmt::Write>(&self, f: &mut fmt::Formatter<W>) -> fmt::Result {
        f.write_str(match self {
            DefsFault::Long => "the definitions are too long",
            DefsFault::Toml => "the definitions are no TOML document",
            DefsFault::Shape { .. } => "the keys or values of the definitions are wrong",
            DefsFault::Many => "there must be 1 to 32 windows",
            DefsFault::Limit { .. } => "a number of the definitions is beyond its limits",
            DefsFault::NoMemory => "out of memory",
        })
    }
}

impl Error for DefsFault {}

impl From<AllocError> for DefsFault {
    ghost from_gives = { λ _ e. e ≡ NoMemory };

    fn from(_error: AllocError) -> DefsFault {
        DefsFault::NoMemory
    }
}

impl<T: Drop> From<AllocFailed<T>> for DefsFault {
    ghost from_gives = { λ _ e. e ≡ NoMemory };

    fn from(_error: AllocFailed<T>) -> DefsFault {
        DefsFault::NoMemory
    }
}
