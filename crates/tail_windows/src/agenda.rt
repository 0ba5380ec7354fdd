//! Which periods of keys the watermark has still to reach.
ghost use Rattle.std.specs.BTreeMap.{is_at};
ghost use Rattle.std.specs.BTreeSet.{insert_key};
ghost use Rattle.std.specs.Cmp.Lexicographic.{slice_cmp};
ghost use Rattle.std.specs.List.{Contains};
ghost use Rattle.std.specs.Map.{lookup};
ghost use Rattle.std.specs.Ordering.{nat_cmp};
ghost use Rattle.std.specs.Prelude.{◌≡◌, ◌≤◌, ◌<◌, ℕ, List, [], IfOk, IsTrue, OnErr, OnOk, is_some, true, if◌then◌else◌};
ghost use Rattle.tail_windows.specs.Noted.{IsNoted, IsReached, keys_at};

use crate::batch::Batch;
use std::alloc::Global;
use std::collections::{BTreeMap, BTreeSet};
use std::marker::Model;
use stream_base::{KeyText, NoMemory};

/// The keys by the ends of their periods: a move of the watermark finds those that it reaches with
/// no look at the rest. Contracts see the keys at each end.
#[derive(Drop)]
pub struct Agenda {
    alloc: Global,
    batches: BTreeMap<u64, Batch>,
}

impl Model for Agenda {
    ghost use Rattle.std.specs.Prelude.{ℕ, List};

    ghost Value = { List (ℕ × List (List ℕ)) };

    ghost view = { λ s. (s.batches).entries };
}

impl Agenda {
    /// No period yet.
    pub fn new(alloc: Global) -> Agenda
        ensures { result ≡ [] }
    {
        Agenda {
            alloc,
            batches: BTreeMap::new(alloc),
        }
    }

    /// Notes a period of a key by its end, unless the watermark has reached it.
    pub fn note(&mut self, at: u64, key: &KeyText, water: u64) -> Result<(), NoMemory>
        ensures kept { (a : ℕ) (k : List ℕ) → IsNoted self.old a k → IsNoted self.new a k }
        ensures noted { water < at → OnOk result (IsNoted self.new at key.now) }
    {
        if at <= water {
            return Ok(());
        }
        self.make_batch(at)?;
        self.add_there(at, key)
    }

    /// The keys with a period that a watermark reaches.
    pub fn due(&self, water: u64) -> Result<BTreeSet<KeyText>, NoMemory>
        ensures { IfOk result (λ due. (at : ℕ) (k : List ℕ) → IsNoted self.now at k → at ≤ water
            → Contains due.keys k) }
    {
        let mut due = BTreeSet::new(self.alloc);
        for (_, batch) in self.batches.range(..=water) {
            batch.add_to(&mut due)?;
        }
        Ok(due)
    }

    /// Forgets the periods that a watermark has reached.
    pub fn pass(&mut self, water: u64)
        ensures { (at : ℕ) (k : List ℕ) → IsNoted self.old at k → water < at
            → IsNoted self.new at k }
    {
        while self.is_reached(water) {
            self.batches.pop_first();
        }
    }

    // Whether a watermark reaches the first end.
    fn is_reached(&self, water: u64) -> bool
        ensures { IsTrue result → IsReached self.now water }
    {
        match self.batches.first_key_value() {
            Some((at, _)) => *at <= water,
            None => false,
        }
    }

    // Gives an end that has no batch an empty one.
    fn make_batch(&mut self, at: u64) -> Result<(), NoMemory>
        ensures place { OnOk result (is_some (lookup (is_at (nat_cmp at)) self.new) ≡ true) }
        ensures kept { (a : ℕ) (k : List ℕ) → IsNoted self.old a k → IsNoted self.new a k }
    {
        if !self.batches.contains_key(&at) {
            self.batches.insert(at, Batch::new(self.alloc))?;
        }
        Ok(())
    }

    // Notes a key at an end that has a batch.
    fn add_there(&mut self, at: u64, key: &KeyText) -> Result<(), NoMemory>
        requires { is_some (lookup (is_at (nat_cmp at)) self.old) ≡ true }
        ensures added { (a : ℕ) → OnOk result (keys_at self.new a
            ≡ (if is_at (nat_cmp at) a
            then insert_key (slice_cmp nat_cmp) (keys_at self.old at) key.now
            else keys_at self.old a)) }
        ensures refused { (a : ℕ) → OnErr result (keys_at self.new a
            ≡ (if is_at (nat_cmp at) a then keys_at self.old at else keys_at self.old a)) }
    {
        match self.batches.get_mut(&at) {
            Some(batch) => batch.add(key),
            None => Ok(()),
        }
    }
}
