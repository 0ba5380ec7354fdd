ghost use Rattle.std.specs.Prelude.{◌≡◌, ◌≤◌, ◌+◌, ◌*◌, ℕ, [], length, IsTrue};
ghost use Rattle.agg_laws.specs.Counters.{Works, WorksNear};
ghost use Rattle.agg_laws.specs.Laws.{total};
ghost use Rattle.agg_laws.specs.Pairs.{AreRising, distance, has_key, within, values_of};
ghost use Rattle.agg_laws.specs.Tables.{Inserts, IsHeight, IsLeast, IsReach, MayInsert, Removes, Replaces, Reserves, Table};

use crate::monoid::Monoid;
use crate::probes::Probes;
use crate::steps::Steps;
use std::alloc::Global;
use stream_base::NoMemory;

/// Partial aggregates under rising keys, which can fold any range of keys.
///
/// Its work is bounded by its reach: each call makes at most `64 * (reach + 2)` steps, and a fold
/// at most half as many and at most one for each pair in its range. A `set` makes at most
/// `64 * (levels + 2)` for so many levels as are `near` where so many pairs lie behind its key. The
/// reach grows by at most 1 at an `insert` and at no other call, and it is bounded by the number of
/// pairs. `probes` counts the nodes that a call looks at, and doesn't fall.
pub trait AggTree<M: Monoid> {
    // The pairs that the tree stands for, in the order of their keys, and for how many more room is
    // made.
    ghost table: { Self → Table M };

    // What the bounds on steps go by.
    ghost reach: { Self → ℕ };

    // How the reach of any tree is bounded by the number of its pairs.
    ghost bounded: { ℕ → ℕ → Type 0 };

    // How the levels that a change may take are bounded by the number of pairs behind it.
    ghost near: { ℕ → ℕ → Type 0 };

    /// An empty tree.
    fn fresh(alloc: Global) -> Self
        ensures empty { (table result).pairs ≡ [] }
        ensures reach { reach result ≡ 0 };

    /// Makes room for `room` more pairs.
    fn reserve(&mut self, room: u64) -> Result<(), NoMemory>
        ensures reserves { Reserves room result (table self.old) (table self.new) }
        ensures bounded { bounded (reach self.new) (length (table self.new).pairs) }
        ensures reach { reach self.new ≡ reach self.old };

    /// Puts a value under a key that isn't there. Uses one spare.
    fn insert<L>(&mut self, key: u64, value: M, probes: &mut Probes, steps: &mut Steps<L>)
        requires { MayInsert key (table self.old) }
        ensures inserts { Inserts key value (table self.old) (table self.new) }
        ensures reach { IsReach bounded (reach self.old + 1) (table self.new) (reach self.new) }
        ensures work { Works (64 * (reach self.old + 2))
            probes.old probes.new steps.old steps.new };

    /// Puts another value under a key that is there.
    fn set<L>(&mut self, key: u64, value: M, probes: &mut Probes, steps: &mut Steps<L>)
        requires { IsTrue (has_key key (table self.old).pairs) }
        ensures replaces { Replaces key value (table self.old) (table self.new) }
        ensures reach { IsReach bounded (reach self.old) (table self.new) (reach self.new) }
        ensures near { WorksNear near (distance key (table self.old).pairs) (reach self.old)
            probes.old probes.new steps.old steps.new }
        ensures work { Works (64 * (reach self.old + 2))
            probes.old probes.new steps.old steps.new };

    /// Takes out the pair with this key and gives its value, `None` exactly where there is none.
    fn remove<L>(&mut self, key: u64, probes: &mut Probes, steps: &mut Steps<L>) -> Option<M>
        ensures removes { Removes key result (table self.old) (table self.new) }
        ensures reach { IsReach bounded (reach self.old) (table self.new) (reach self.new) }
        ensures work { Works (64 * (reach self.old + 2))
            probes.old probes.new steps.old steps.new };

    /// The least key, `None` exactly where the tree is empty.
    fn first_key(&self) -> Option<u64>
        ensures { IsLeast result (table self.now) };

    /// The values with `low <= key < high` combined in the order of keys, from the unit.
    fn fold_range<L>(&self, low: u64, high: u64, probes: &mut Probes, steps: &mut Steps<L>) -> M
        ensures value { result
            ≡ total M.empty M.op (values_of (within low high (table self.now).pairs)) }
        ensures rising { AreRising (table self.now).pairs }
        ensures one_each { steps.new
            ≤ steps.old + length (within low high (table self.now).pairs) }
        ensures work { Works (32 * (reach self.now + 2))
            probes.old probes.new steps.old steps.new };

    /// How many pairs there are.
    fn len(&self) -> u64
        ensures count { result ≡ length (table self.now).pairs }
        ensures rising { AreRising (table self.now).pairs }
        ensures bounded { bounded (reach self.now) (length (table self.now).pairs) };

    /// How many levels of nodes lie below each other: 0 where the tree is empty.
    fn height(&self) -> u32
        ensures { IsHeight (table self.now) result };
}
