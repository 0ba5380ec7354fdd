ghost use Rattle.std.specs.Prelude.{◌≡◌};
ghost use Rattle.watermark_table.specs.Standings.{raised, rested, is_ended};

/// Where a source stands.
#[derive(Clone, Copy, Debug, PartialEq, Eq)]
pub enum Standing {
    /// It holds the watermark back at its own.
    Awake { water: u64 },
    /// It said that it is idle: it holds nothing back, and its own watermark waits for it.
    Idle { water: u64 },
    /// It has told all that it has.
    Ended,
}

impl Standing {
    // A watermark wakes a source that hasn't ended, and never lowers its own.
    pub(crate) fn raised(self, time: u64) -> Standing
        ensures { result ≡ raised time self }
    {
        match self {
            Standing::Awake { water } | Standing::Idle { water } => Standing::Awake {
                water: water.max(time),
            },
            Standing::Ended => Standing::Ended,
        }
    }

    // A source that hasn't ended becomes idle, and keeps its own watermark.
    pub(crate) fn rested(self) -> Standing
        ensures { result ≡ rested self }
    {
        match self {
            Standing::Awake { water } | Standing::Idle { water } => Standing::Idle { water },
            Standing::Ended => Standing::Ended,
        }
    }

    pub(crate) fn is_ended(self) -> bool
        ensures { result ≡ is_ended self }
    {
        matches!(self, Standing::Ended)
    }
}
