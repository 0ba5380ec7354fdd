ghost use Rattle.std.specs.Prelude.{◌≡◌};
ghost use Rattle.emission_text.specs.declared.sink_fault.SinkFault.TheVariants.{Write as WriteFault};

use outside::Failed;
use std::error::Error;
use std::fmt;

/// Why a text wasn't written whole.
#[derive(Clone, Copy, Debug, PartialEq, Eq)]
pub enum SinkFault {
    /// A write of the sink failed.
    Write,
}

impl From<Failed> for SinkFault {
    ghost from_gives = { λ _ fault. fault ≡ WriteFault };

    fn from(_error: Failed) -> SinkFault {
        SinkFault::Write
    }
}

impl fmt::Display for SinkFault {
    fn fmt<W: fmt::Write>(&self, f: &mut fmt::Formatter<W>) -> fmt::Result {
        f.write_str(match self {
            SinkFault::Write => "a write failed",
        })
    }
}

impl Error for SinkFault {}
