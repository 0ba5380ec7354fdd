ghost use Rattle.std.specs.Prelude.{◌≡◌};
ghost use Rattle.agg_laws.specs.Counters.{next_count};

use std::marker::{Model, PhantomData};
use std::thread::Threads;

/// How many combines were made: one step is one call of `Monoid::combine`. The count stays at
/// 2^64 - 1 once it stands there. `L` only keeps counters apart. Contracts see the number.
#[derive(Debug, Drop)]
pub struct Steps<L> {
    count: u64,
    of: PhantomData<L>,
}

impl<L> Model for Steps<L> {
    ghost use Rattle.std.specs.Prelude.{ℕ};

    ghost Value = { ℕ };

    ghost view = { λ s. s.count };
}

impl<L> Steps<L> {
    /// A counter at 0. It takes the leave to start threads, so that only who has it can count
    /// elsewhere than on the counter that it was handed.
    pub fn start<R: Threads>(_rt: &R) -> Steps<L>
        ensures { result ≡ 0 }
    {
        Steps::aside()
    }

    // A counter for the parts of a compound, whose combine is one step though it makes several.
    pub(crate) fn aside() -> Steps<L>
        ensures { result ≡ 0 }
    {
        Steps {
            count: 0,
            of: PhantomData,
        }
    }

    /// One step more.
    pub fn tick(&mut self)
        ensures { self.new ≡ next_count self.old }
    {
        self.count = self.count.saturating_add(1);
    }

    /// The number of steps so far.
    pub fn count(&self) -> u64
        ensures { result ≡ self.now }
    {
        self.count
    }
}
