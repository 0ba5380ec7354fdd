//! The store of a key's slices.
ghost use Rattle.std.specs.Prelude.{◌≡◌, ◌≤◌, ◌<◌, ◌+◌, ◌*◌, List, [], length, filter, max, nat_lt, All, true, false};
ghost use Rattle.std.specs.Int.{w64};
ghost use Rattle.std.specs.BTreeSet.{insert_key};
ghost use Rattle.std.specs.List.{flat_map, list_any};
ghost use Rattle.std.specs.Ordering.{nat_cmp};
ghost use Rattle.stream_base.specs.declared.def.Def.{Def};
ghost use Rattle.stream_base.specs.declared.kept.Kept.{Kept};
ghost use Rattle.stream_base.specs.declared.limits.TheConstants.{TIME_MAX};
ghost use Rattle.stream_base.specs.Model.Journal.{put_in_order};
ghost use Rattle.stream_base.specs.Model.Windows.{first_time, last_time};
ghost use Rattle.slice_lists.specs.Runs.{IsAligned, parted_at};
ghost use Rattle.partials.specs.Apart.{IsReachOver};
ghost use Rattle.slice_lists.specs.Slices.{joined};
ghost use Rattle.slice_lists.specs.Touched.{is_across, marks_left, slices_from};
ghost use Rattle.agg_store.specs.Entered.{IsPut, slices_near};
ghost use Rattle.agg_store.specs.Stored.{IsSliced, IsStore, tuples_of};
ghost use Rattle.slice_store.specs.Placing.{MayTake, PutsNear, Reserves, is_last, placed_in};

use crate::entering::enter;
use crate::leaving::take_first;
use crate::placed::Placed;
use crate::splitting::split;
use agg_laws::{AggTree, Steps};
use agg_store::AggStore;
use aggregates::Partial;
use partials::Partials;
use slice_lists::Slice;
use slice_runs::{Marks, Runs, first_entered, last_entered};
use std::alloc::Global;
use std::marker::Model;
use stream_base::{Defs, Kept, NoMemory};

/// The slices of one key, with a partial aggregate for each: those of the newest slices in a row, and
/// the others in a tree. Contracts see the slices as lists of tuples, the marks, up to which time
/// slices were dropped, and for how many more tuples or marks there is room; they see what the bounds
/// on steps go by, which is the reach of the tree, or that of a tree which folds as fast as the row,
/// whichever is greater.
///
/// The definitions that a call is handed are those of every call before it: that the slices are
/// theirs is a condition of `put` and `mark`, and each of them says it again.
#[derive(Drop)]
pub struct SliceStore<M: Partial, T: AggTree<M>> {
    runs: Runs,
    marks: Marks,
    dropped: u64,
    partials: Partials<M, T>,
}

impl<M: Partial, T: AggTree<M>> Model for SliceStore<M, T> {
    ghost use Rattle.std.specs.Prelude.{min};
    ghost use Rattle.agg_store.specs.Stored.{Stored};
    ghost use Rattle.slice_store.specs.Inside.{AreInside};

    ghost Value = { Stored };

    ghost view = { λ s. record {
      slices = s.runs.slices;
      marks = s.marks.times;
      dropped = s.dropped;
      spare = min (min s.runs.spare s.marks.spare) s.partials.spare;
      reach = s.partials.reach;
    } };

    ghost invariant = { λ s. AreInside M.of_values s.runs.slices s.marks.times s.partials.pairs };
}

impl<M: Partial, T: AggTree<M>> SliceStore<M, T> {
    /// No tuple and no mark.
    pub fn new(alloc: Global) -> SliceStore<M, T>
        ensures slices { (result).slices ≡ [] }
        ensures marks { (result).marks ≡ [] }
        ensures dropped { (result).dropped ≡ 0 }
        ensures reach { (result).reach ≡ 0 }
        ensures sliced { (windows : List Def) → IsSliced windows result }
    {
        SliceStore {
            runs: Runs::new(alloc),
            marks: Marks::new(alloc),
            dropped: 0,
            partials: Partials::new(alloc),
        }
    }

    /// Makes room for one tuple or mark more.
    pub fn reserve(&mut self) -> Result<(), NoMemory>
        ensures { Reserves T.bounded result self.old self.new }
    {
        self.runs.reserve()?;
        self.marks.reserve()?;
        self.partials.reserve()?;
        Ok(())
    }

    /// Puts a tuple in its place in event order, behind those of its time, and says what that did to
    /// the slices. It enters the slices that it is near to: in none it becomes a slice of its own,
    /// and two neighbours become one with it. Work is done on the tuples of a slice only where it
    /// comes between two of them and their order makes a difference, and else grows with the
    /// logarithm of how many slices begin later, where the tree has a finger at its end: no other
    /// slice is looked at.
    pub fn put<L>(&mut self, defs: &Defs, x: Kept, steps: &mut Steps<L>) -> Placed
        requires { MayTake defs.now.windows x.time self.old }
        ensures sliced { IsSliced defs.now.windows self.new }
        ensures tuples { tuples_of self.new ≡ put_in_order (tuples_of self.old) x }
        ensures put { IsPut defs.now.windows self.old x self.new }
        ensures answer { result
            ≡ placed_in (slices_near defs.now.windows x.time self.old) (is_last x.time self.old) }
        ensures marks { self.new.marks ≡ self.old.marks }
        ensures dropped { self.new.dropped ≡ self.old.dropped }
        ensures spare { self.old.spare ≤ self.new.spare + 1 }
        ensures reach { self.new.reach ≤ self.old.reach + 1 }
        ensures cost { steps.new ≤ steps.old + (128 * (self.old.reach + 3)
            + length (joined (slices_near defs.now.windows x.time self.old))) }

        // A tuple in order refolds no slice.
        ensures in_order { is_last x.time self.old ≡ true
            → steps.new ≤ steps.old + 128 * (self.old.reach + 3) }

        // Where order makes no difference, no tuple refolds a slice, however long that is.
        ensures any_order { M.any_order ≡ true
            → steps.new ≤ steps.old + 128 * (self.old.reach + 3) }

        // A late tuple goes by how many slices begin after it.
        ensures near { PutsNear T.near defs.now.windows x.time self.old steps.old steps.new }
    {
        let windows = defs.windows();
        let at = self.runs.up_to(x.time);
        let from = first_entered(&self.runs, windows, &self.marks, at, x.time);
        let to = last_entered(&self.runs, windows, &self.marks, at, x.time);
        let last = self.runs.are_by(x.time);
        enter(&mut self.runs, &mut self.partials, from, to, x, steps);
        placed_in(to - from, last)
    }

    /// Marks a time: the slice that has tuples on both sides of it, if there is one, is split in
    /// two. A tuple of the very time lies behind the mark. Answers whether a slice was split.
    pub fn mark<L>(&mut self, defs: &Defs, time: u64, steps: &mut Steps<L>) -> bool
        requires { MayTake defs.now.windows time self.old }
        ensures sliced { IsSliced defs.now.windows self.new }
        ensures tuples { tuples_of self.new ≡ tuples_of self.old }
        ensures slices { self.new.slices ≡ flat_map (parted_at time) self.old.slices }
        ensures marks { self.new.marks ≡ insert_key nat_cmp self.old.marks time }
        ensures answer { result ≡ list_any (is_across time) self.old.slices }
        ensures dropped { self.new.dropped ≡ self.old.dropped }
        ensures spare { self.old.spare ≤ self.new.spare + 1 }
        ensures reach { self.new.reach ≤ self.old.reach + 1 }
        ensures cost { steps.new ≤ steps.old + (128 * (self.old.reach + 3)
            + length (joined (filter (is_across time) self.old.slices))) }
    {
        self.marks.add(time);
        match self.runs.across(time) {
            Some(at) => {
                split(&mut self.runs, &mut self.partials, at, time, steps);
                true
            }
            None => false,
        }
    }

    /// How many slices begin at a time or later.
    pub fn count_from(&self, time: u64) -> u64
        ensures { result ≡ length (slices_from time self.now.slices) }
    {
        let begun = self.runs.before(time);
        (self.runs.len() - begun) as u64
    }

    /// Whether `drop_settled` takes away more marks than it leaves.
    pub fn are_marks_mostly_needless(&self, time: u64) -> bool
        ensures few { result ≡ false
            → length self.now.marks ≤ 2 * length (marks_left time self.now.marks) }
        ensures many { result ≡ true
            → 2 * length (marks_left time self.now.marks) < length self.now.marks }
    {
        self.marks.are_mostly_needless(time)
    }

    /// Drops the slices before a time, and the marks at or before it other than the greatest of
    /// them. No slice has tuples on both sides of the time.
    pub fn drop_settled<L>(&mut self, time: u64, steps: &mut Steps<L>)
        requires { IsAligned self.old.slices time }
        ensures slices { self.new.slices ≡ slices_from time self.old.slices }
        ensures marks { self.new.marks ≡ marks_left time self.old.marks }
        ensures dropped { self.new.dropped ≡ max self.old.dropped time }
        ensures sliced { (windows : List Def) → IsSliced windows self.old
            → IsSliced windows self.new }
        ensures spare { self.old.spare ≤ self.new.spare }
        ensures reach { self.new.reach ≤ self.old.reach }
        ensures cost { steps.new ≤ steps.old + 64 * (self.old.reach + 2)
            * length (filter (λ run. nat_lt (first_time run) time) self.old.slices) }
    {
        let count = self.runs.before(time);
        take_first(&self.runs, &mut self.partials, count, steps);
        self.runs.drop_first(count, time);
        self.marks.keep_last(time);
        self.dropped = self.dropped.max(time);
    }
}

impl<M: Partial, T: AggTree<M>> AggStore<M> for SliceStore<M, T> {
    ghost stored = { λ s. s };

    fn fold<L>(&self, low: u64, high: u64, steps: &mut Steps<L>) -> M {
        self.partials.fold_range(low, high, steps)
    }

    /// How many slices there are. It tells how the reach is bounded by that number, too.
    fn slice_count(&self) -> u64
        ensures count { result ≡ length self.now.slices }
        ensures holds { IsStore self.now }
        ensures ends { All (λ run. last_time run ≤ TIME_MAX) self.now.slices }
        ensures reach { IsReachOver T.bounded (length self.now.slices) self.now.reach }
    {
        self.partials.vouch();
        self.runs.len() as u64
    }

    fn slices_within(&self, low: u64, high: u64) -> u64 {
        let begun = self.runs.before(low);
        let ended = self.runs.before(high);
        ended.saturating_sub(begun) as u64
    }

    fn slice_from(&self, time: u64) -> Option<Slice> {
        let at = self.runs.before(time);
        if at < self.runs.len() {
            Some(self.runs.slice(at))
        } else {
            None
        }
    }

    fn partial_within<L>(&self, low: u64, high: u64, steps: &mut Steps<L>) -> Option<(Slice, M)> {
        let at = self.runs.before(low);
        if at >= self.runs.len() {
            return None;
        }
        let slice = self.runs.slice(at);
        if slice.low >= high {
            return None;
        }
        Some((slice, self.partials.read(slice.low, steps)))
    }
}

// How a tuple is placed that enters so many slices.
fn placed_in(entered: usize, last: bool) -> Placed
    ensures { (slices : List (List Kept)) → length slices ≡ entered
        → result ≡ placed_in slices last }
{
    match entered {
        0 => Placed::Added,
        1 if last => Placed::Appended,
        1 => Placed::Joined,
        _ => Placed::Merged,
    }
}
