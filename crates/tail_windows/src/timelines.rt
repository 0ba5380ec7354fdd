//! The timelines of the keys.
ghost use Rattle.std.specs.BTreeMap.{is_at};
ghost use Rattle.std.specs.Cmp.Lexicographic.{slice_cmp};
ghost use Rattle.std.specs.List.{flat_map};
ghost use Rattle.std.specs.List.Sorted.{IsStrictlySortedBy};
ghost use Rattle.std.specs.Map.{keys_of};
ghost use Rattle.std.specs.Ordering.{nat_cmp};
ghost use Rattle.std.specs.Prelude.{◌≡◌, ◌≤◌, ◌++◌, ℕ, List, [], IfOk, OnErr, OnOk, true, if◌then◌else◌};
ghost use Rattle.stream_base.specs.declared.limits.TheConstants.{TIME_MAX};
ghost use Rattle.tail_windows.specs.Following.{has_list, list_of};
ghost use Rattle.tail_windows.specs.Samples.{put_sample};
ghost use Rattle.tail_windows.specs.Walks.{ForEachNext, HasAppended, IsTailDef, changes_by_tuple, moved_changes};

use crate::change::TailChange;
use crate::def::TailDef;
use crate::sample::Sample;
use crate::timeline::Timeline;
use agg_laws::Steps;
use std::alloc::Global;
use std::collections::{BTreeMap, BTreeSet};
use std::marker::Model;
use stream_base::{KeyText, NoMemory};

/// The timelines by key. Contracts see each key's samples.
#[derive(Drop)]
pub struct Timelines {
    alloc: Global,
    lists: BTreeMap<KeyText, Timeline>,
}

impl Model for Timelines {
    ghost use Rattle.std.specs.Cmp.Lexicographic.{slice_cmp};
    ghost use Rattle.std.specs.List.Sorted.{IsStrictlySortedBy};
    ghost use Rattle.std.specs.Map.{keys_of};
    ghost use Rattle.std.specs.Ordering.{nat_cmp};
    ghost use Rattle.std.specs.Prelude.{ℕ, List};
    ghost use Rattle.tail_windows.specs.declared.sample.Sample.{Sample};

    ghost Value = { List (List ℕ × List Sample) };

    ghost view = { λ s. (s.lists).entries };

    ghost invariant = { λ s. IsStrictlySortedBy (slice_cmp nat_cmp) (keys_of (s.lists).entries) };
}

impl Timelines {
    /// No key yet.
    pub fn new(alloc: Global) -> Timelines
        ensures { result ≡ [] }
    {
        Timelines {
            alloc,
            lists: BTreeMap::new(alloc),
        }
    }

    /// Takes a tuple of a key in, and appends what it changes under a watermark. After want of
    /// memory each key has the samples of before.
    pub fn put<L>(
        &mut self,
        def: &TailDef,
        key: &KeyText,
        sample: Sample,
        water: u64,
        out: &mut Vec<TailChange>,
        steps: &mut Steps<L>,
    ) -> Result<(), NoMemory>
        requires def { IsTailDef def.now }
        requires time { sample.time ≤ TIME_MAX }
        ensures put { (other : List ℕ) → OnOk result (list_of self.new other
            ≡ (if is_at (slice_cmp nat_cmp key.now) other
            then put_sample (list_of self.old key.now) sample else list_of self.old other)) }
        ensures refused { (other : List ℕ) → OnErr result (list_of self.new other
            ≡ list_of self.old other) }
        ensures changes { ForEachNext (list_of self.old key.now) sample (λ kept x.
            OnOk result (out.new.items ≡ out.old.items
            ++ changes_by_tuple def.now key.now kept water x)) }
        ensures appended { HasAppended def.now.count out.old.items out.new.items
            steps.old steps.new }
    {
        self.make_place(key)?;
        self.put_there(def, key, sample, water, out, steps)
    }

    /// Appends what a move of the watermark brings of some keys, by the bytes of the keys.
    pub fn append_move<L>(
        &self,
        def: &TailDef,
        due: &BTreeSet<KeyText>,
        old: u64,
        new: u64,
        out: &mut Vec<TailChange>,
        steps: &mut Steps<L>,
    ) -> Result<(), NoMemory>
        requires { IsTailDef def.now }
        ensures changes { OnOk result (out.new.items ≡ out.old.items
            ++ flat_map (λ k. moved_changes def.now k old new (list_of self.now k))
            (due.now).keys) }
        ensures by_key { IsStrictlySortedBy (slice_cmp nat_cmp) (due.now).keys }
        ensures appended { HasAppended def.now.count out.old.items out.new.items
            steps.old steps.new }
    {
        for key in due.iter() {
            self.append_key(def, key, old, new, out, steps)?;
        }
        Ok(())
    }

    // Appends what a move of the watermark brings of a key.
    fn append_key<L>(
        &self,
        def: &TailDef,
        key: &KeyText,
        old: u64,
        new: u64,
        out: &mut Vec<TailChange>,
        steps: &mut Steps<L>,
    ) -> Result<(), NoMemory>
        requires { IsTailDef def.now }
        ensures changes { OnOk result (out.new.items ≡ out.old.items
            ++ moved_changes def.now key.now old new (list_of self.now key.now)) }
        ensures appended { HasAppended def.now.count out.old.items out.new.items
            steps.old steps.new }
    {
        match self.lists.get(key) {
            Some(timeline) => timeline.append_move(def, key, old, new, out, steps),
            None => Ok(()),
        }
    }

    // Gives a key that has no timeline an empty one.
    fn make_place(&mut self, key: &KeyText) -> Result<(), NoMemory>
        ensures place { OnOk result (has_list self.new key.now ≡ true) }
        ensures same { (other : List ℕ) → list_of self.new other ≡ list_of self.old other }
    {
        if !self.lists.contains_key(key) {
            self.lists.insert(*key, Timeline::new(self.alloc))?;
        }
        Ok(())
    }

    // Takes a tuple of a key in that has a timeline.
    fn put_there<L>(
        &mut self,
        def: &TailDef,
        key: &KeyText,
        sample: Sample,
        water: u64,
        out: &mut Vec<TailChange>,
        steps: &mut Steps<L>,
    ) -> Result<(), NoMemory>
        requires def { IsTailDef def.now }
        requires time { sample.time ≤ TIME_MAX }
        requires place { has_list self.old key.now ≡ true }
        ensures put { (other : List ℕ) → OnOk result (list_of self.new other
            ≡ (if is_at (slice_cmp nat_cmp key.now) other
            then put_sample (list_of self.old key.now) sample else list_of self.old other)) }
        ensures refused { (other : List ℕ) → OnErr result (list_of self.new other
            ≡ (if is_at (slice_cmp nat_cmp key.now) other
            then list_of self.old key.now else list_of self.old other)) }
        ensures changes { ForEachNext (list_of self.old key.now) sample (λ kept x.
            OnOk result (out.new.items ≡ out.old.items
            ++ changes_by_tuple def.now key.now kept water x)) }
        ensures appended { HasAppended def.now.count out.old.items out.new.items
            steps.old steps.new }
    {
        match self.lists.get_mut(key) {
            Some(timeline) => timeline.put(def, key, sample, water, out, steps),
            None => Ok(()),
        }
    }
}
