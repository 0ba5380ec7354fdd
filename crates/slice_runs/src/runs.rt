//! Tuples in event order, parted into slices.
ghost use Rattle.std.specs.Prelude.{◌≡◌, ◌≤◌, ◌<◌, ◌+◌, [], length, drop, slice_index_or, nat_le, OnOk, IfSome, IfNone, All, false};
ghost use Rattle.stream_base.specs.Model.Windows.{first_time, last_time};
ghost use Rattle.stream_base.specs.Places.{IsPlaceOf};
ghost use Rattle.slice_lists.specs.Runs.{IsAligned};
ghost use Rattle.aggregates.specs.Bundled.{bundle_of};
ghost use Rattle.slice_lists.specs.Touched.{is_across};
ghost use Rattle.slice_lists.specs.Sides.{IsAcrossAt};
ghost use Rattle.slice_runs.specs.Begun.{AreBefore};
ghost use Rattle.slice_lists.specs.Slices.{AreSlices, CanEnter, CanSplit, entered_at, joined, slice_of, split_at, values_of};

use crate::bounds::{enter_bounds, split_bounds};
use crate::places::{slices_before, slices_up_to};
use agg_laws::Steps;
use aggregates::Bundle;
use slice_lists::Slice;
use std::alloc::Global;
use std::marker::Model;
use stream_base::{Kept, NoMemory};
use tuple_chunks::Tuples;

/// Tuples in event order, and beside them the bounds of each slice. Contracts see the slices as
/// lists of tuples, and for how many more tuples there is room.
#[derive(Drop)]
pub struct Runs {
    tuples: Tuples,
    bounds: Vec<Slice>,
    // How many tuples ever came: no slice has more, so 64 bits count them.
    taken: u64,
}

impl Model for Runs {
    ghost use Rattle.slice_lists.specs.Slices.{Sliced};

    ghost Value = { Sliced };

    ghost use Rattle.slice_runs.specs.Inside.{sliced, IsKept};

    ghost view = { sliced };

    ghost invariant = { IsKept };
}

impl Runs {
    /// No tuple.
    pub fn new(alloc: Global) -> Runs
        ensures { (result).slices ≡ [] }
    {
        Runs {
            tuples: Tuples::new(alloc),
            bounds: Vec::new(alloc),
            taken: 0,
        }
    }

    /// Makes room for one tuple more.
    pub fn reserve(&mut self) -> Result<(), NoMemory>
        ensures room { OnOk result (1 ≤ (self.new).spare) }
        ensures spare { (self.old).spare ≤ (self.new).spare }
        ensures kept { (self.new).slices ≡ (self.old).slices }
    {
        if self.taken == u64::MAX {
            return Err(NoMemory);
        }
        self.tuples.reserve()?;
        self.bounds.reserve(1)?;
        Ok(())
    }

    /// How many slices there are.
    pub fn len(&self) -> usize
        ensures count { result ≡ length (self.now).slices }
        ensures holds { AreSlices (self.now).slices }
    {
        self.bounds.len()
    }

    /// How many slices begin at or before a time.
    pub fn up_to(&self, time: u64) -> usize
        ensures { AreBefore (self.now).slices (time + 1) result }
    {
        slices_up_to(&self.bounds, time)
    }

    /// How many slices begin before a time.
    pub fn before(&self, time: u64) -> usize
        ensures { AreBefore (self.now).slices time result }
    {
        slices_before(&self.bounds, time)
    }

    /// A slice, as it shows.
    pub fn slice(&self, at: usize) -> Slice
        requires { at < length (self.now).slices }
        ensures shown { result ≡ slice_of (slice_index_or (self.now).slices at []) }
        ensures holds { AreSlices (self.now).slices }
    {
        self.bounds[at]
    }

    /// Whether no tuple is of a later time.
    pub fn are_by(&self, time: u64) -> bool
        ensures { result ≡ nat_le (last_time (joined (self.now).slices)) time }
    {
        self.tuples.are_by(time)
    }

    /// What the tuples of a slice come to in event order, in at most one step for each.
    pub fn fold_of<L>(&mut self, at: usize, steps: &mut Steps<L>) -> Bundle
        requires { at < length (self.old).slices }
        ensures value { result
            ≡ bundle_of (values_of (slice_index_or (self.old).slices at [])) }
        ensures kept { self.new ≡ self.old }
        ensures cost { steps.new
            ≤ steps.old + length (slice_index_or (self.old).slices at []) }
    {
        let slice = self.bounds[at];
        self.tuples.fold(slice.low, slice.high + 1, steps)
    }

    /// Puts a tuple in its place, where the slices from one place up to another become one with it.
    pub fn enter(&mut self, from: usize, to: usize, x: Kept)
        requires { CanEnter from to x self.old }
        ensures slices { (self.new).slices ≡ entered_at from to x (self.old).slices }
        ensures holds { AreSlices (self.new).slices }
        ensures spare { (self.old).spare ≤ (self.new).spare + 1 }
    {
        self.taken += 1;
        self.tuples.put(x);
        enter_bounds(&mut self.bounds, from, to, x.time);
    }

    /// Drops the slices before a time, of which there are so many.
    pub fn drop_first(&mut self, count: usize, time: u64)
        requires place { IsPlaceOf first_time (self.old).slices time count }
        requires aligned { IsAligned (self.old).slices time }
        ensures slices { (self.new).slices ≡ drop count (self.old).slices }
        ensures holds { AreSlices (self.new).slices }
        ensures spare { (self.old).spare ≤ (self.new).spare }
    {
        self.tuples.drop_before(time);
        self.bounds.retain(|s| time <= s.low);
    }

    /// The place of the slice that has tuples before a time and from it on, if there is one.
    pub fn across(&self, time: u64) -> Option<usize>
        ensures some { IfSome result (λ at. IsAcrossAt (self.now).slices time at) }
        ensures none { IfNone result
            (All (λ run. is_across time run ≡ false) (self.now).slices) }
        ensures holds { AreSlices (self.now).slices }
    {
        let begun = self.before(time);
        if begun == 0 {
            return None;
        }
        if self.slice(begun - 1).high < time {
            return None;
        }
        Some(begun - 1)
    }

    /// Splits a slice that has tuples before a time and from it on.
    pub fn split(&mut self, at: usize, time: u64)
        requires { CanSplit at time self.old }
        ensures slices { (self.new).slices ≡ split_at at time (self.old).slices }
        ensures holds { AreSlices (self.new).slices }
        ensures spare { (self.old).spare ≤ (self.new).spare + 1 }
    {
        let slice = self.bounds[at];
        let front = self.tuples.shown(slice.low, time);
        let back = self.tuples.shown(time, slice.high + 1);
        split_bounds(&mut self.bounds, at, front, back);
    }
}
