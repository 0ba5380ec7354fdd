ghost use Rattle.std.specs.Prelude.{◌≡◌, ◌≤◌, ◌+◌, [], IfSome, IfNone, IsTrue, length, take, drop, fold, false};
ghost use Rattle.agg_laws.specs.Counters.{Spends};
ghost use Rattle.agg_laws.specs.Pairs.{AreRising, StandsAt, has_key, pairs_below, pairs_from, value_at, within, values_of};
ghost use Rattle.agg_laws.specs.Tables.{Inserts, IsLeast, MayInsert, Removes, Replaces, Reserves};
ghost use Rattle.pair_row.specs.Extended.{Extends};

use crate::front_vec::FrontVec;
use agg_laws::{Monoid, Steps};
use std::alloc::Global;
use std::marker::Model;
use stream_base::NoMemory;

/// A vector of pairs, sorted by key. Its first pair leaves without a move of the others.
#[derive(Drop)]
pub struct PairRow<M> {
    pairs: FrontVec<(u64, M)>,
}

impl<M> Model for PairRow<M> {
    ghost use Rattle.agg_laws.specs.Tables.{Table};
    ghost use Rattle.agg_laws.specs.Pairs.{AreRising};

    ghost Value = { Table M };

    ghost view = { λ r. record { pairs = r.pairs.items; spare = r.pairs.spare } };

    ghost invariant = { λ r. AreRising r.pairs.items };
}

impl<M: Copy> PairRow<M> {
    /// No pair.
    pub fn new(alloc: Global) -> PairRow<M>
        ensures { result.pairs ≡ [] }
    {
        PairRow {
            pairs: FrontVec::new(alloc),
        }
    }

    /// Makes room for `room` more pairs.
    pub fn reserve(&mut self, room: usize) -> Result<(), NoMemory>
        ensures { Reserves room result self.old self.new }
    {
        self.pairs.reserve(room)
    }

    /// How many pairs there are.
    pub fn len(&self) -> u64
        ensures count { result ≡ length self.now.pairs }
        ensures rising { AreRising self.now.pairs }
    {
        self.pairs.as_slice().len() as u64
    }

    /// The least key, `None` exactly where there is no pair.
    pub fn first_key(&self) -> Option<u64>
        ensures { IsLeast result self.now }
    {
        self.pairs.as_slice().first().map(|pair| pair.0)
    }

    /// The value under a key, if there is one.
    pub fn get(&self, key: u64) -> Option<M>
        ensures { result ≡ value_at key self.now.pairs }
    {
        let pairs = self.pairs.as_slice();
        let at = index_of(pairs, key)?;
        Some(pairs[at].1)
    }

    /// Puts a value under a key that isn't there, behind those with lower keys. Uses one spare.
    pub fn insert(&mut self, key: u64, value: M)
        requires { MayInsert key self.old }
        ensures inserts { Inserts key value self.old self.new }
        ensures count { length self.new.pairs ≡ length self.old.pairs + 1 }
    {
        let at = place_of(self.pairs.as_slice(), key);
        self.pairs.insert(at, (key, value));
    }

    /// Puts another value under a key that is there.
    pub fn set(&mut self, key: u64, value: M)
        requires { IsTrue (has_key key self.old.pairs) }
        ensures replaces { Replaces key value self.old self.new }
        ensures count { length self.new.pairs ≡ length self.old.pairs }
    {
        if let Some(at) = index_of(self.pairs.as_slice(), key) {
            self.pairs.set(at, (key, value));
        }
    }

    /// Takes out the pair with this key and gives its value, `None` exactly where there is none.
    pub fn remove(&mut self, key: u64) -> Option<M>
        ensures removes { Removes key result self.old self.new }
        ensures count { length self.new.pairs ≤ length self.old.pairs }
    {
        let at = index_of(self.pairs.as_slice(), key)?;
        Some(self.pairs.remove(at).1)
    }
}

impl<M: Monoid> PairRow<M> {
    /// Combines the value under a key with another one behind it, in one step at most.
    pub fn extend<L>(&mut self, key: u64, more: &M, steps: &mut Steps<L>)
        requires { IsTrue (has_key key self.old.pairs) }
        ensures { Extends M.op key more.now self.old self.new steps.old steps.new }
    {
        let pairs = self.pairs.as_slice();
        if let Some(at) = index_of(pairs, key) {
            let sum = pairs[at].1.combine(more, steps);
            self.pairs.set(at, (key, sum));
        }
    }

    /// A sum with the values with `low <= key < high` behind it, in the order of keys.
    pub fn fold_onto<L>(&self, sum: M, low: u64, high: u64, steps: &mut Steps<L>) -> M
        ensures value { result ≡ fold M.op sum (values_of (within low high self.now.pairs)) }
        ensures rising { AreRising self.now.pairs }
        ensures work { Spends (length self.now.pairs) (length (within low high self.now.pairs))
            steps.old steps.new }
    {
        fold_pairs(sum, range_of(self.pairs.as_slice(), low, high), steps)
    }
}

// How many pairs have a key below this one.
fn place_of<M>(pairs: &[(u64, M)], key: u64) -> usize
    requires { AreRising pairs.now }
    ensures within { result ≤ length pairs.now }
    ensures before { take result pairs.now ≡ pairs_below key pairs.now }
    ensures behind { drop result pairs.now ≡ pairs_from key pairs.now }
{
    pairs.partition_point(|pair| pair.0 < key)
}

// Where the pair with this key stands, which is often the last one.
fn index_of<M>(pairs: &[(u64, M)], key: u64) -> Option<usize>
    requires { AreRising pairs.now }
    ensures found { IfSome result (λ at. StandsAt key at pairs.now) }
    ensures none { IfNone result (has_key key pairs.now ≡ false) }
{
    let last = pairs.len().saturating_sub(1);
    if last < pairs.len() && pairs[last].0 == key {
        return Some(last);
    }
    let at = place_of(pairs, key);
    if at < pairs.len() && pairs[at].0 == key {
        Some(at)
    } else {
        None
    }
}

// The pairs with `low <= key < high`.
fn range_of<M>(pairs: &[(u64, M)], low: u64, high: u64) -> &[(u64, M)]
    requires { AreRising pairs.now }
    ensures { result.now ≡ within low high pairs.now }
{
    let below = &pairs[..place_of(pairs, high)];
    &below[place_of(below, low)..]
}

// A sum with the values behind it, in the order of keys, one step each.
fn fold_pairs<M: Monoid, L>(sum: M, pairs: &[(u64, M)], steps: &mut Steps<L>) -> M
    ensures value { result ≡ fold M.op sum (values_of pairs.now) }
    ensures cost { steps.new ≤ steps.old + length pairs.now }
{
    let mut sum = sum;
    for pair in pairs {
        sum = sum.combine(&pair.1, steps);
    }
    sum
}
