ghost use Rattle.std.specs.Prelude.{◌≡◌};
ghost use Rattle.tail_windows.specs.Walks.{stood_at};

/// Of which periods a row stood before an entry.
#[derive(Clone, Copy, Debug, PartialEq, Eq)]
pub enum Stood {
    /// Of none.
    Nothing,
    /// Of all but the one that ends there.
    AllBut { at: u64 },
    /// Of each.
    Each,
}

impl Stood {
    /// Whether one of the period that ends there did.
    pub fn has(self, at: u64) -> bool
        ensures { result ≡ stood_at self at }
    {
        match self {
            Stood::Nothing => false,
            Stood::AllBut { at: other } => at != other,
            Stood::Each => true,
        }
    }
}
