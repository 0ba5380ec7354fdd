//! The partials of slices.
ghost use Rattle.std.specs.Prelude.{◌≡◌, ◌≤◌, ◌<◌, ◌+◌, ◌*◌, ◌^◌, ◌++◌, ℕ, [], None, Some, fold, length, OnOk, IsTrue, true, false};
ghost use Rattle.agg_laws.specs.Counters.{Spends};
ghost use Rattle.agg_laws.specs.Laws.{total};
ghost use Rattle.agg_laws.specs.Pairs.{distance, has_key, inserted, least_key, replaced, value_at, values_of, within, without};
ghost use Rattle.partials.specs.Apart.{AreBelow, AreFrom, IsReachOver, KeepsRoom, KeepsRow, Reads, SpendsNear, may_need_tree};

use agg_laws::{AggTree, Monoid, Probes, Steps};
use pair_row::PairRow;
use std::alloc::Global;
use std::marker::Model;
use stream_base::NoMemory;

// So many partials stand in the row at most.
const NEAR: u64 = 256;

/// The partials of slices, each under the time of the slice's first tuple. The newest ones stand in a
/// row, where tuples in order find them at once; the older ones stand in a tree. Where the row is
/// full, its first one goes into the tree when another one comes behind it. The tree takes no memory
/// before. Contracts see the pairs of both, for how many more there is room, one at most, and what
/// the bounds on steps go by: the reach of the tree, or that of a tree which folds as fast as the
/// row, whichever is greater.
#[derive(Drop)]
pub struct Partials<M: Monoid, T: AggTree<M>> {
    tree: T,
    near: PairRow<M>,
    // The keys in the tree are below it, and those in the row aren't.
    edge: u64,
}

impl<M: Monoid, T: AggTree<M>> Model for Partials<M, T> {
    ghost use Rattle.std.specs.Prelude.{◌++◌, length, max};
    ghost use Rattle.partials.specs.Apart.{Sums, AreApart, may_need_tree, room_for, row_reach};

    ghost Value = { Sums M };

    ghost view = { λ p. record {
      pairs = (T.table p.tree).pairs ++ p.near.pairs;
      spare = room_for
          (may_need_tree p.edge (length ((T.table p.tree).pairs ++ p.near.pairs)))
          (T.table p.tree).spare p.near.spare;
      reach = max (T.reach p.tree) (row_reach (length p.near.pairs));
      edge = p.edge;
    } };

    ghost invariant = { λ p. AreApart (T.table p.tree).pairs p.near.pairs p.edge };
}

impl<M: Monoid, T: AggTree<M>> Partials<M, T> {
    /// No partial.
    pub fn new(alloc: Global) -> Partials<M, T>
        ensures pairs { (result).pairs ≡ [] }
        ensures reach { (result).reach ≡ 0 }
        ensures edge { (result).edge ≡ 0 }
    {
        Partials {
            tree: T::fresh(alloc),
            near: PairRow::new(alloc),
            edge: 0,
        }
    }

    /// Makes room for one more.
    pub fn reserve(&mut self) -> Result<(), NoMemory>
        ensures room { OnOk result (1 ≤ (self.new).spare) }
        ensures spare { (self.old).spare ≤ (self.new).spare }
        ensures pairs { (self.new).pairs ≡ (self.old).pairs }
        ensures reach { (self.new).reach ≡ (self.old).reach }
        ensures edge { (self.new).edge ≡ (self.old).edge }
        ensures bounded { IsReachOver T.bounded (length (self.new).pairs) (self.new).reach }
    {
        if needs_tree(&self.tree, &self.near, self.edge) {
            self.tree.reserve(1)?;
        }
        self.near.reserve(1)
    }

    // Changes nothing, and tells a proof how the reach is bounded.
    pub fn vouch(&self)
        ensures { IsReachOver T.bounded (length (self.now).pairs) (self.now).reach }
    {
        let _count = self.tree.len();
    }

    /// Puts a partial under a time that has none.
    pub fn insert<L>(&mut self, low: u64, partial: M, steps: &mut Steps<L>)
        requires absent { has_key low (self.old).pairs ≡ false }
        requires room { 1 ≤ (self.old).spare }
        ensures inserted { (self.new).pairs ≡ inserted low partial (self.old).pairs }
        ensures spare { (self.old).spare ≤ (self.new).spare + 1 }
        ensures reach { (self.new).reach ≤ (self.old).reach + 1 }
        ensures row { KeepsRow self.old self.new }
        ensures cost { steps.new ≤ steps.old + 64 * ((self.old).reach + 2) }
    {
        let mut probes = Probes::new();
        if is_near(&self.near, self.edge, low) {
            self.edge = make_way(&mut self.tree, &mut self.near, self.edge, steps);
            self.near.insert(low, partial);
        } else {
            self.tree.insert(low, partial, &mut probes, steps);
            self.edge = self.edge.max(low + 1);
        }
    }

    /// Puts another partial under a time that has one: with no step in the row, and else with as
    /// many as a tree takes where no more partials lie behind.
    pub fn set<L>(&mut self, low: u64, partial: M, steps: &mut Steps<L>)
        requires { IsTrue (has_key low (self.old).pairs) }
        ensures replaced { (self.new).pairs ≡ replaced low partial (self.old).pairs }
        ensures keeps { KeepsRoom self.old self.new }
        ensures row { (self.old).edge ≤ low → steps.new ≤ steps.old }
        ensures near { SpendsNear T.near (distance low (self.old).pairs) (self.old).reach 0
            steps.old steps.new }
        ensures cost { steps.new ≤ steps.old + 64 * ((self.old).reach + 2) }
    {
        let mut probes = Probes::new();
        if low < self.edge {
            self.tree.set(low, partial, &mut probes, steps);
        } else {
            self.near.set(low, partial);
        }
    }

    /// Combines the partial under a time with another one behind it: in one step in the row, and else
    /// in two more than `set` takes.
    pub fn extend<L>(&mut self, low: u64, more: &M, steps: &mut Steps<L>)
        requires { IsTrue (has_key low (self.old).pairs) }
        ensures extended { (b : M) → M.is_value b → value_at low (self.old).pairs ≡ Some b
            → (self.new).pairs ≡ replaced low (M.op b more.now) (self.old).pairs }
        ensures keeps { KeepsRoom self.old self.new }
        ensures row { (self.old).edge ≤ low → steps.new ≤ steps.old + 1 }
        ensures near { SpendsNear T.near (distance low (self.old).pairs) (self.old).reach 2
            steps.old steps.new }
        ensures cost { steps.new ≤ steps.old + 64 * ((self.old).reach + 3) }
    {
        if low < self.edge {
            extend_in(&mut self.tree, low, more, steps);
        } else {
            self.near.extend(low, more, steps);
        }
    }

    /// Takes out the partial under a time.
    pub fn take<L>(&mut self, low: u64, steps: &mut Steps<L>) -> M
        ensures value { (b : M) → value_at low (self.old).pairs ≡ Some b → result ≡ b }
        ensures pairs { (self.new).pairs ≡ without low (self.old).pairs }
        ensures keeps { KeepsRoom self.old self.new }
        ensures cost { steps.new ≤ steps.old + 64 * ((self.old).reach + 2) }
    {
        if low < self.edge {
            take_from(&mut self.tree, low, steps)
        } else {
            take_near(&mut self.near, low)
        }
    }

    /// The partial under a time, at most one step.
    pub fn read<L>(&self, low: u64, steps: &mut Steps<L>) -> M
        ensures { Reads M.is_value low (self.now).pairs result steps.old steps.new }
    {
        if low < self.edge {
            read_in(&self.tree, low, steps)
        } else {
            self.near.get(low).unwrap_or(M::unit())
        }
    }

    /// The partials with `low <= key < high` combined in the order of keys.
    pub fn fold_range<L>(&self, low: u64, high: u64, steps: &mut Steps<L>) -> M
        ensures value { result ≡ total M.empty M.op
            (values_of (within low high (self.now).pairs)) }
        ensures work { Spends (64 * ((self.now).reach + 2))
            (length (within low high (self.now).pairs)) steps.old steps.new }
    {
        let older = fold_below(&self.tree, self.edge, low, high, steps);
        fold_from(&self.near, self.edge, older, low, high, steps)
    }
}

// Whether one pair more may go into the tree.
fn needs_tree<M: Monoid, T: AggTree<M>>(tree: &T, near: &PairRow<M>, edge: u64) -> bool
    requires few { length near.now.pairs ≤ 256 }
    ensures needs { result
        ≡ may_need_tree edge (length ((T.table tree.now).pairs ++ near.now.pairs)) }
    ensures bounded { result ≡ false
        → T.bounded (T.reach tree.now) (length (T.table tree.now).pairs) }
{
    edge > 0 || NEAR - near.len() <= tree.len()
}

// Whether a key belongs into the row: it lies behind those in the tree, and where the row is full
// also behind the first one there, which then leaves.
fn is_near<M: Monoid>(near: &PairRow<M>, edge: u64, key: u64) -> bool
    requires from { AreFrom edge near.now.pairs }
    requires absent { has_key key near.now.pairs ≡ false }
    ensures edge { result ≡ true → edge ≤ key }
    ensures first { result ≡ true → 256 ≤ length near.now.pairs
        → (low : ℕ) → least_key near.now.pairs ≡ Some low → low < key }
    ensures before { result ≡ false → AreFrom (key + 1) near.now.pairs }
    ensures within { result ≡ false → key + 1 < 2 ^ 64 }
    ensures far { result ≡ false → may_need_tree edge (length near.now.pairs) ≡ true }
    ensures early { result ≡ false → length near.now.pairs < 256 → key < edge }
{
    if near.len() < NEAR {
        return edge <= key;
    }
    match near.first_key() {
        Some(first) => first < key,
        None => true,
    }
}

// Brings the first pair of a full row into a tree, and answers where the row begins then.
fn make_way<M: Monoid, T: AggTree<M>, L>(
    tree: &mut T,
    near: &mut PairRow<M>,
    edge: u64,
    steps: &mut Steps<L>,
) -> u64
    requires below { AreBelow edge (T.table tree.old).pairs }
    requires from { AreFrom edge near.old.pairs }
    requires few { length near.old.pairs ≤ 256 }
    requires first { 256 ≤ length near.old.pairs
        → (low : ℕ) → least_key near.old.pairs ≡ Some low → low + 1 < 2 ^ 64 }
    requires room { 256 ≤ length near.old.pairs → 1 ≤ (T.table tree.old).spare }
    ensures pairs { (T.table tree.new).pairs ++ near.new.pairs
        ≡ (T.table tree.old).pairs ++ near.old.pairs }
    ensures below { AreBelow result (T.table tree.new).pairs }
    ensures from { AreFrom result near.new.pairs }
    ensures edge { (key : ℕ) → edge ≤ key → (256 ≤ length near.old.pairs
        → (low : ℕ) → least_key near.old.pairs ≡ Some low → low < key) → result ≤ key }
    ensures stays { length near.old.pairs < 256 → result ≡ edge }
    ensures full { 256 ≤ length near.old.pairs → length near.new.pairs ≡ 255 }
    ensures few { length near.new.pairs < 256 }
    ensures row { length near.new.pairs ≤ length near.old.pairs }
    ensures row_spare { near.old.spare ≤ near.new.spare }
    ensures spare { (T.table tree.old).spare ≤ (T.table tree.new).spare + 1 }
    ensures reach { T.reach tree.new ≤ T.reach tree.old + 1 }
    ensures cost { steps.new ≤ steps.old + 64 * (T.reach tree.old + 2) }
{
    if near.len() < NEAR {
        return edge;
    }
    bring_in(tree, near, edge, steps)
}

// Brings the first pair of a row into a tree, and answers where the row begins then.
fn bring_in<M: Monoid, T: AggTree<M>, L>(
    tree: &mut T,
    near: &mut PairRow<M>,
    edge: u64,
    steps: &mut Steps<L>,
) -> u64
    requires below { AreBelow edge (T.table tree.old).pairs }
    requires from { AreFrom edge near.old.pairs }
    requires some { 1 ≤ length near.old.pairs }
    requires first { (low : ℕ) → least_key near.old.pairs ≡ Some low → low + 1 < 2 ^ 64 }
    requires room { 1 ≤ (T.table tree.old).spare }
    ensures pairs { (T.table tree.new).pairs ++ near.new.pairs
        ≡ (T.table tree.old).pairs ++ near.old.pairs }
    ensures below { AreBelow result (T.table tree.new).pairs }
    ensures from { AreFrom result near.new.pairs }
    ensures edge { (low : ℕ) → least_key near.old.pairs ≡ Some low → result ≤ low + 1 }
    ensures row { length near.new.pairs + 1 ≡ length near.old.pairs }
    ensures row_spare { near.old.spare ≤ near.new.spare }
    ensures spare { (T.table tree.new).spare + 1 ≡ (T.table tree.old).spare }
    ensures reach { T.reach tree.new ≤ T.reach tree.old + 1 }
    ensures cost { steps.new ≤ steps.old + 64 * (T.reach tree.old + 2) }
{
    let mut probes = Probes::new();
    let Some(low) = near.first_key() else {
        return edge;
    };
    let partial = take_near(near, low);
    tree.insert(low, partial, &mut probes, steps);
    low + 1
}

// The fold of a range of a tree whose keys are below an edge; nothing of it where the range begins
// there or behind.
fn fold_below<M: Monoid, T: AggTree<M>, L>(
    tree: &T,
    edge: u64,
    low: u64,
    high: u64,
    steps: &mut Steps<L>,
) -> M
    requires { AreBelow edge (T.table tree.now).pairs }
    ensures value { result ≡ total M.empty M.op
        (values_of (within low high (T.table tree.now).pairs)) }
    ensures work { Spends (32 * (T.reach tree.now + 2))
        (length (within low high (T.table tree.now).pairs)) steps.old steps.new }
{
    if edge <= low {
        return M::unit();
    }
    let mut probes = Probes::new();
    tree.fold_range(low, high, &mut probes, steps)
}

// A sum with what a row of keys from an edge on has of a range; nothing of it where the range ends there
// or before.
fn fold_from<M: Monoid, L>(
    near: &PairRow<M>,
    edge: u64,
    sum: M,
    low: u64,
    high: u64,
    steps: &mut Steps<L>,
) -> M
    requires { AreFrom edge near.now.pairs }
    ensures value { result ≡ fold M.op sum (values_of (within low high near.now.pairs)) }
    ensures work { Spends (length near.now.pairs) (length (within low high near.now.pairs))
        steps.old steps.new }
{
    if high <= edge {
        return sum;
    }
    near.fold_onto(sum, low, high, steps)
}

// The partial under a time in a tree, which isn't the last of all.
fn read_in<M: Monoid, T: AggTree<M>, L>(tree: &T, low: u64, steps: &mut Steps<L>) -> M
    requires { low + 1 < 2 ^ 64 }
    ensures { Reads M.is_value low (T.table tree.now).pairs result steps.old steps.new }
{
    let mut probes = Probes::new();
    tree.fold_range(low, low + 1, &mut probes, steps)
}

// Combines the partial under a time in a tree with another one behind it. It is a function of its own:
// inside `extend` its local variables would be cleared for each tuple in order, too.
#[inline(always)]
fn extend_in<M: Monoid, T: AggTree<M>, L>(tree: &mut T, low: u64, more: &M, steps: &mut Steps<L>)
    requires inner { low + 1 < 2 ^ 64 }
    requires there { IsTrue (has_key low (T.table tree.old).pairs) }
    ensures extended { (b : M) → M.is_value b → value_at low (T.table tree.old).pairs ≡ Some b
        → (T.table tree.new).pairs
        ≡ replaced low (M.op b more.now) (T.table tree.old).pairs }
    ensures below { (edge : ℕ) → AreBelow edge (T.table tree.old).pairs
        → AreBelow edge (T.table tree.new).pairs }
    ensures spare { (T.table tree.old).spare ≤ (T.table tree.new).spare }
    ensures reach { T.reach tree.new ≤ T.reach tree.old }
    ensures near { SpendsNear T.near (distance low (T.table tree.old).pairs) (T.reach tree.old) 2
        steps.old steps.new }
    ensures cost { steps.new ≤ steps.old + 64 * (T.reach tree.old + 3) }
{
    let mut probes = Probes::new();
    let own = read_in(tree, low, steps);
    tree.set(low, own.combine(more, steps), &mut probes, steps);
}

// Takes the partial under a time out of a tree.
fn take_from<M: Monoid, T: AggTree<M>, L>(tree: &mut T, low: u64, steps: &mut Steps<L>) -> M
    ensures value { (b : M) → value_at low (T.table tree.old).pairs ≡ Some b → result ≡ b }
    ensures pairs { (T.table tree.new).pairs ≡ without low (T.table tree.old).pairs }
    ensures spare { (T.table tree.old).spare ≤ (T.table tree.new).spare }
    ensures reach { T.reach tree.new ≤ T.reach tree.old }
    ensures cost { steps.new ≤ steps.old + 64 * (T.reach tree.old + 2) }
{
    let mut probes = Probes::new();
    match tree.remove(low, &mut probes, steps) {
        Some(partial) => partial,
        None => M::unit(),
    }
}

// Takes the partial under a time out of a row.
fn take_near<M: Monoid>(near: &mut PairRow<M>, low: u64) -> M
    ensures value { (b : M) → value_at low near.old.pairs ≡ Some b → result ≡ b }
    ensures pairs { near.new.pairs ≡ without low near.old.pairs }
    ensures spare { near.old.spare ≤ near.new.spare }
    ensures row { length near.new.pairs ≤ length near.old.pairs }
{
    near.remove(low).unwrap_or(M::unit())
}
