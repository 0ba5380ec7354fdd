ghost use Rattle.std.specs.Prelude.{◌≡◌, ◌≤◌};
ghost use Rattle.agg_laws.specs.Counters.{next_count};

use std::marker::Model;

/// How many nodes of a tree were looked at. The count stays at 2^64 - 1 once it stands there.
/// Contracts see the number.
#[derive(Debug, Drop)]
pub struct Probes {
    count: u64,
}

impl Model for Probes {
    ghost use Rattle.std.specs.Prelude.{ℕ};

    ghost Value = { ℕ };

    ghost view = { λ p. p.count };
}

impl Probes {
    /// A counter at 0.
    pub fn new() -> Probes
        ensures { result ≡ 0 }
    {
        Probes { count: 0 }
    }

    /// One node more.
    pub fn look(&mut self)
        ensures counted { self.new ≡ next_count self.old }
        ensures rises { self.old ≤ self.new }
    {
        self.count = self.count.saturating_add(1);
    }

    /// The number of nodes so far.
    pub fn count(&self) -> u64
        ensures { result ≡ self.now }
    {
        self.count
    }
}
