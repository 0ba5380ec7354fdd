//! Why a row has no answer of its own.
use crate::difference::Difference;
use emission_text::SinkFault;
use shard_core::ApplyFault;
use std::alloc::{AllocError, AllocFailed};
use std::io;
use stream_base::NoMemory;

/// Why a row has no answer of its own.
#[derive(Clone, Copy)]
pub enum Trouble {
    /// Want of memory, from a call that can't be made once more.
    Memory,
    /// Something isn't as it was before a refused call, or as it has to be.
    Differs(Difference),
    /// The answer wasn't written whole.
    Unwritten,
    /// There is no row of this name.
    Unknown,
}

/// Prints a line that says what is wrong, and answers the status of the program.
pub fn print_trouble<R: Print>(rt: &R, trouble: Trouble) -> u8 {
    let (status, line) = match trouble {
        Trouble::Memory => (7, "memory"),
        Trouble::Differs(what) => (1, what.line()),
        Trouble::Unwritten => (8, "a write failed"),
        Trouble::Unknown => (2, "no row of this name"),
    };
    match println!(rt; "{line}") {
        Ok(()) => status,
        Err(_) => 8,
    }
}

/// Why an entry that was told in its turn is refused, the second time where that was for want of memory.
pub fn refusal(fault: ApplyFault) -> Trouble {
    Trouble::Differs(match fault {
        ApplyFault::Ended => Difference::Ended,
        ApplyFault::Full => Difference::Full,
        ApplyFault::NoMemory => Difference::Twice,
    })
}

impl From<NoMemory> for Trouble {
    fn from(_error: NoMemory) -> Trouble {
        Trouble::Memory
    }
}

impl From<AllocError> for Trouble {
    fn from(_error: AllocError) -> Trouble {
        Trouble::Memory
    }
}

impl<T: Drop> From<AllocFailed<T>> for Trouble {
    fn from(_error: AllocFailed<T>) -> Trouble {
        Trouble::Memory
    }
}

impl From<SinkFault> for Trouble {
    fn from(_error: SinkFault) -> Trouble {
        Trouble::Unwritten
    }
}

impl From<io::Error> for Trouble {
    fn from(_error: io::Error) -> Trouble {
        Trouble::Unwritten
    }
}
