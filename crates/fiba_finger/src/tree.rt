ghost use Rattle.std.specs.Prelude.{◌≡◌, ◌≤◌, ◌<◌, ◌+◌, ◌-◌, ◌*◌, ◌^◌, [], length, IsTrue};
ghost use Rattle.agg_laws.specs.Counters.{Looks, Works, WorksNear};
ghost use Rattle.agg_laws.specs.Laws.{total};
ghost use Rattle.agg_laws.specs.Pairs.{AreRising, distance, has_key, within, values_of};
ghost use Rattle.agg_laws.specs.Tables.{Inserts, IsHeight, IsLeast, IsReach, MayInsert, Removes, Replaces, Reserves};
ghost use Rattle.fiba_nodes.specs.Arena.{IsBalanced};
ghost use Rattle.fiba_finger.specs.Climbs.{ClimbsNear, IsNear};
ghost use Rattle.fiba_finger.specs.Fingers.{Shrinks};

use crate::edge::right_place;
use crate::grown::Grown;
use crate::put::{end_of, put_near, start_of};
use crate::set::set_near;
use crate::take::take;
use agg_laws::{AggTree, Monoid, Probes, Steps};
use fiba_nodes::{Bound, Item, Nodes, Root, fold_span};
use std::alloc::Global;
use std::marker::Model;
use stream_base::NoMemory;

/// A tree of partial aggregates with a finger at its first leaf and one at its last.
///
/// Its reach is its height. `insert_near` and `set` work from the finger, so what they do grows with
/// the logarithm of the distance from the end, and an insertion also with the nodes that it splits.
/// Contracts see its pairs, for how many more there is room, its height, how many nodes it has, and
/// how many nodes of its arena are full, with three items. Each split makes one more node, and so
/// does each level of height. A split takes a full node away, an insertion makes one at most, and no
/// other call makes any: so the splits of a run are at most its insertions.
#[derive(Drop)]
pub struct FingerTree<M: Monoid> {
    nodes: Nodes<M>,
    root: Root,
    front: usize,
    finger: usize,
    count: u64,
    limit: u64,
}

impl<M: Monoid> Model for FingerTree<M> {
    ghost use Rattle.std.specs.Prelude.{◌-◌};
    ghost use Rattle.fiba_nodes.specs.Arena.{pairs_in};
    ghost use Rattle.fiba_nodes.specs.Stores.{full_nodes};
    ghost use Rattle.fiba_finger.specs.Fingers.{Fingers, IsFingered, nodes_in};

    ghost Value = { Fingers M };

    ghost view = { λ t. record {
      table = record { pairs = pairs_in t.nodes t.root; spare = t.limit - t.count };
      height = t.root.height;
      nodes = nodes_in t.nodes t.root;
      full = full_nodes t.nodes;
    } };

    ghost invariant = { λ t. IsFingered M.is_value M.empty M.op t.nodes t.root
        t.count t.limit t.front t.finger };
}

impl<M: Monoid> FingerTree<M> {
    /// Puts a value under a key that isn't there, and answers how many nodes it split and how many
    /// levels it climbed from the last leaf: at most the logarithm of how many pairs have a greater
    /// key. Each split is paid for by a full node. Uses one spare.
    pub fn insert_near<L>(
        &mut self,
        key: u64,
        value: M,
        probes: &mut Probes,
        steps: &mut Steps<L>,
    ) -> Grown
        requires { MayInsert key self.old.table }
        ensures inserts { Inserts key value self.old.table self.new.table }
        ensures reach { IsReach IsBalanced (self.old.height + 1) self.new.table self.new.height }
        ensures near { 2 ^ result.climbs ≤ distance key self.old.table.pairs + 1 }
        ensures climbs { result.climbs ≤ self.old.height }
        ensures splits { result.splits ≤ self.old.height }
        ensures split { self.new.nodes ≡ self.old.nodes + result.splits
            + (self.new.height - self.old.height) }
        ensures full { self.new.full + result.splits ≤ self.old.full + 1 }
        ensures looks { Looks (32 * (result.climbs + result.splits + 2)) probes.old probes.new }
        ensures cost { steps.new ≤ steps.old + 8 + 32 * (result.climbs + result.splits) }
    {
        value.vouch();
        let item = Item { key, value };
        let put = put_near(
            &mut self.nodes,
            self.root,
            self.front,
            self.finger,
            item,
            probes,
            steps,
        );
        self.root = put.root;
        self.front = put.front;
        self.finger = put.finger;
        self.count += 1;
        put.grown
    }
}

impl<M: Monoid> AggTree<M> for FingerTree<M> {
    ghost table = { λ t. t.table };

    ghost reach = { λ t. t.height };

    ghost bounded = { IsBalanced };

    ghost near = { IsNear };

    /// An empty tree.
    fn fresh(alloc: Global) -> FingerTree<M>
        ensures empty { result.table.pairs ≡ [] }
        ensures reach { result.height ≡ 0 }
        ensures full { result.full ≡ 0 }
    {
        FingerTree {
            nodes: Nodes::new(alloc),
            root: Root { at: 0, height: 0 },
            front: 0,
            finger: 0,
            count: 0,
            limit: 0,
        }
    }

    /// Makes room for `room` more pairs.
    fn reserve(&mut self, room: u64) -> Result<(), NoMemory>
        ensures reserves { Reserves room result self.old.table self.new.table }
        ensures bounded { IsBalanced self.new.height (length self.new.table.pairs) }
        ensures reach { self.new.height ≡ self.old.height }
        ensures full { self.new.full ≡ self.old.full }
    {
        let Some(limit) = self.count.checked_add(room) else {
            return Err(NoMemory);
        };
        self.nodes.reserve(limit)?;
        if self.limit < limit {
            self.limit = limit;
        }
        Ok(())
    }

    /// Puts a value under a key that isn't there, as `insert_near` does. Uses one spare. At most
    /// `64 * (height + 2)` steps.
    fn insert<L>(&mut self, key: u64, value: M, probes: &mut Probes, steps: &mut Steps<L>)
        requires { MayInsert key self.old.table }
        ensures inserts { Inserts key value self.old.table self.new.table }
        ensures reach { IsReach IsBalanced (self.old.height + 1) self.new.table self.new.height }
        ensures full { self.new.full ≤ self.old.full + 1 }
        ensures work { Works (64 * (self.old.height + 2))
            probes.old probes.new steps.old steps.new }
    {
        let _grown = self.insert_near(key, value, probes, steps);
    }

    /// Puts another value under a key that is there, from the last leaf: it climbs as many levels as
    /// an insertion there, and writes anew only what lies on the way down from the node that it
    /// reaches. At most `8 * (climbs + 1)` steps.
    fn set<L>(&mut self, key: u64, value: M, probes: &mut Probes, steps: &mut Steps<L>)
        requires { IsTrue (has_key key self.old.table.pairs) }
        ensures replaces { Replaces key value self.old.table self.new.table }
        ensures reach { IsReach IsBalanced self.old.height self.new.table self.new.height }
        ensures full { self.new.full ≡ self.old.full }
        ensures climbs { ClimbsNear (distance key self.old.table.pairs) self.old.height
            steps.old steps.new }
        ensures near { WorksNear IsNear (distance key self.old.table.pairs) self.old.height
            probes.old probes.new steps.old steps.new }
        ensures work { Works (16 * (self.old.height + 2))
            probes.old probes.new steps.old steps.new }
    {
        value.vouch();
        let item = Item { key, value };
        let set = set_near(
            &mut self.nodes,
            self.root,
            self.front,
            self.finger,
            item,
            probes,
            steps,
        );
        self.front = set.front;
        self.finger = set.finger;
    }

    /// Takes out the pair with this key and gives its value, `None` exactly where there is none. At
    /// most `64 * (height + 2)` steps.
    fn remove<L>(&mut self, key: u64, probes: &mut Probes, steps: &mut Steps<L>) -> Option<M>
        ensures removes { Removes key result self.old.table self.new.table }
        ensures shrinks { Shrinks self.old self.new }
        ensures work { Works (64 * (self.old.height + 2))
            probes.old probes.new steps.old steps.new }
    {
        let (root, front) = (self.root, self.front);
        let changed = take(&mut self.nodes, root, front, key, probes, steps);
        self.root = changed.root;
        self.front = start_of(&self.nodes, self.root, probes);
        self.finger = end_of(&self.nodes, self.root, probes);
        let item = changed.taken?;
        self.count -= 1;
        Some(item.value)
    }

    /// The least key, by one look at the first leaf.
    fn first_key(&self) -> Option<u64>
        ensures { IsLeast result self.now.table }
    {
        if self.root.height == 0 {
            return None;
        }
        let mut probes = Probes::new();
        Some(self.nodes.peek(self.front, &mut probes).first.key)
    }

    /// The values with `low <= key < high` combined in the order of keys, from the unit. At most
    /// one step for each, and at most `16 * (height + 2)`.
    fn fold_range<L>(&self, low: u64, high: u64, probes: &mut Probes, steps: &mut Steps<L>) -> M
        ensures value { result
            ≡ total M.empty M.op (values_of (within low high self.now.table.pairs)) }
        ensures rising { AreRising self.now.table.pairs }
        ensures one_each { steps.new
            ≤ steps.old + length (within low high self.now.table.pairs) }
        ensures work { Works (16 * (self.now.height + 2))
            probes.old probes.new steps.old steps.new }
    {
        let root = self.root;
        if high <= low {
            return M::unit();
        }
        let place = right_place(true);
        let (from, to) = (Bound::Key(low), Bound::Key(high));
        let sum = M::unit();
        fold_span(
            &self.nodes,
            root.at,
            root.height,
            place,
            from,
            to,
            sum,
            probes,
            steps,
        )
    }

    fn len(&self) -> u64 {
        self.count
    }

    /// How many levels of nodes lie below each other: 0 exactly where the tree is empty. It is what
    /// the bounds on steps go by.
    fn height(&self) -> u32
        ensures height { IsHeight self.now.table result }
        ensures reach { result ≡ self.now.height }
        ensures levels { result + 1 < 2 ^ 32 }
    {
        self.root.height
    }
}
