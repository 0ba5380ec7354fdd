ghost use Rattle.std.specs.Prelude.{◌≡◌, ◌≤◌, ◌<◌, ◌+◌, ◌-◌, ◌*◌, ◌^◌, length, Some, IsTrue};
ghost use Rattle.agg_laws.specs.Counters.{Works, WorksNear};
ghost use Rattle.agg_laws.specs.Laws.{total};
ghost use Rattle.agg_laws.specs.Pairs.{AreRising, distance, has_key, within, values_of};
ghost use Rattle.agg_laws.specs.Tables.{Inserts, IsHeight, IsReach, MayInsert, Removes, Replaces};
ghost use Rattle.fiba_nodes.specs.Arena.{IsBalanced};

use agg_laws::{AggTree, Monoid, Probes, Steps};
use fiba_nodes::{Bound, Change, Item, Nodes, Place, Root, change_root, first_item, fold_span};
use std::alloc::Global;
use std::marker::Model;
use stream_base::NoMemory;

/// A tree of partial aggregates in an arena of nodes.
///
/// Its reach is its height, so each call makes a number of steps that grows with the logarithm of
/// the number of pairs: `insert` and `set` at most `8 * height + 3`, `remove` too, and
/// `fold_range` at most `12 * height + 1`. Contracts see its pairs, for how many more there is
/// room, and its height.
#[derive(Drop)]
pub struct ArenaTree<M: Monoid> {
    nodes: Nodes<M>,
    root: Root,
    count: u64,
    limit: u64,
}

impl<M: Monoid> Model for ArenaTree<M> {
    ghost use Rattle.std.specs.Prelude.{◌-◌, false};
    ghost use Rattle.fiba_nodes.specs.Arena.{Arena, IsArena, pairs_in};

    ghost Value = { Arena M };

    ghost view = { λ t. record {
      table = record { pairs = pairs_in t.nodes t.root; spare = t.limit - t.count };
      height = t.root.height;
    } };

    ghost invariant = { λ t. IsArena M.is_value M.empty M.op t.nodes t.root false false
        t.count t.limit };
}

impl<M: Monoid> AggTree<M> for ArenaTree<M> {
    ghost table = { λ t. t.table };

    ghost reach = { λ t. t.height };

    ghost bounded = { IsBalanced };

    // Each way begins at the root, so that what lies behind a key promises nothing.
    ghost near = { λ _ _. Unit {0} };

    fn fresh(alloc: Global) -> ArenaTree<M> {
        ArenaTree {
            nodes: Nodes::new(alloc),
            root: Root { at: 0, height: 0 },
            count: 0,
            limit: 0,
        }
    }

    fn reserve(&mut self, room: u64) -> Result<(), NoMemory> {
        let Some(limit) = self.count.checked_add(room) else {
            return Err(NoMemory);
        };
        self.nodes.reserve(limit)?;
        if self.limit < limit {
            self.limit = limit;
        }
        Ok(())
    }

    /// Puts a value under a key that isn't there. Uses one spare. At most `16 * (height + 2)`
    /// steps.
    fn insert<L>(&mut self, key: u64, value: M, probes: &mut Probes, steps: &mut Steps<L>)
        requires { MayInsert key self.old.table }
        ensures inserts { Inserts key value self.old.table self.new.table }
        ensures reach { IsReach IsBalanced (self.old.height + 1) self.new.table self.new.height }
        ensures work { Works (16 * (self.old.height + 2))
            probes.old probes.new steps.old steps.new }
    {
        value.vouch();
        let change = Change::Insert(Item { key, value });
        let place = Place::inner();
        let changed = change_root(&mut self.nodes, self.root, place, change, probes, steps);
        self.root = changed.root;
        self.count += 1;
    }

    /// Puts another value under a key that is there. At most `16 * (height + 2)` steps.
    fn set<L>(&mut self, key: u64, value: M, probes: &mut Probes, steps: &mut Steps<L>)
        requires { IsTrue (has_key key self.old.table.pairs) }
        ensures replaces { Replaces key value self.old.table self.new.table }
        ensures reach { IsReach IsBalanced self.old.height self.new.table self.new.height }
        ensures near { WorksNear (λ _ _. Unit {0}) (distance key self.old.table.pairs)
            self.old.height probes.old probes.new steps.old steps.new }
        ensures work { Works (16 * (self.old.height + 2))
            probes.old probes.new steps.old steps.new }
    {
        value.vouch();
        let change = Change::Set(Item { key, value });
        let place = Place::inner();
        let changed = change_root(&mut self.nodes, self.root, place, change, probes, steps);
        self.root = changed.root;
    }

    /// Takes out the pair with this key and gives its value, `None` exactly where there is none. At
    /// most `32 * (height + 2)` steps.
    fn remove<L>(&mut self, key: u64, probes: &mut Probes, steps: &mut Steps<L>) -> Option<M>
        ensures removes { Removes key result self.old.table self.new.table }
        ensures reach { IsReach IsBalanced self.old.height self.new.table self.new.height }
        ensures work { Works (32 * (self.old.height + 2))
            probes.old probes.new steps.old steps.new }
    {
        let change = Change::Remove(key);
        let place = Place::inner();
        let changed = change_root(&mut self.nodes, self.root, place, change, probes, steps);
        self.root = changed.root;
        let item = changed.taken?;
        self.count -= 1;
        Some(item.value)
    }

    fn first_key(&self) -> Option<u64> {
        if self.root.height == 0 {
            return None;
        }
        let place = Place::inner();
        Some(first_item(&self.nodes, self.root.at, self.root.height - 1, place).key)
    }

    /// The values with `low <= key < high` combined in the order of keys, from the unit. At most
    /// one step for each, and at most `16 * (height + 2)`.
    fn fold_range<L>(&self, low: u64, high: u64, probes: &mut Probes, steps: &mut Steps<L>) -> M
        ensures value { result
            ≡ total M.empty M.op (values_of (within low high self.now.table.pairs)) }
        ensures rising { AreRising self.now.table.pairs }
        ensures one_each { steps.new
            ≤ steps.old + length (within low high self.now.table.pairs) }
        ensures work { Works (16 * (self.now.height + 2))
            probes.old probes.new steps.old steps.new }
    {
        let root = self.root;
        if high <= low {
            return M::unit();
        }
        let place = Place::inner();
        let (from, to) = (Bound::Key(low), Bound::Key(high));
        let sum = M::unit();
        fold_span(
            &self.nodes,
            root.at,
            root.height,
            place,
            from,
            to,
            sum,
            probes,
            steps,
        )
    }

    fn len(&self) -> u64 {
        self.count
    }

    /// How many levels of nodes lie below each other: 0 exactly where the tree is empty. It is what
    /// the bounds on steps go by.
    fn height(&self) -> u32
        ensures height { IsHeight self.now.table result }
        ensures reach { result ≡ self.now.height }
        ensures levels { result + 1 < 2 ^ 32 }
    {
        self.root.height
    }
}
