//! The de-amortized banker's aggregator, after Tangwongsan, Hirzel and Schneider, "Low-latency
//! sliding-window aggregation in worst-case constant time", DEBS 2017.
//!
//! Two stacks turn the whole back over in one `pop`. This queue turns it over bit by bit, while the
//! front still has items, so that no call makes more than a few combines. Its cells lie in one deque,
//! front first, and four boundaries part them in five ranges, any of which may be empty:
//!
//! ```text
//!  first                                                               end
//!    |  front   |   left   |  right   | accumulator |       back        |
//!    0         left      right   accumulator       back                len
//!
//!      i..back    i..right   right..i     i..back        back..i
//! ```
//!
//! The last line says which values the aggregate beside a cell combines, `i` being the cell's own
//! place and always one of them. So the first cell has all up to the back boundary, the last cell
//! has all from there on, and a fold combines these two.
//!
//! Left, right and accumulator are the turning over at work. After each push and each pop, one
//! *fix-up* makes one move:
//!
//! - *Shrink*, while the left range has cells: its first aggregate is made to run up to the back
//!   boundary (two combines), so that the cell joins the front, and so is the last one of the right
//!   range (one combine), so that the cell joins the accumulator.
//! - *Shift*, once left and right are used up: the accumulator's aggregates are already what the
//!   front's have to be, so one cell of it joins the front for nothing.
//! - *Flip*, once the accumulator is used up too: the front becomes the left range and the back
//!   becomes the right one. No aggregate changes. The first shrink follows at once.
//!
//! It is done in time because between two calls the left and the right range are equally long, and
//! the front is longer by one than the back. A push makes the back longer, a pop makes the front
//! shorter, and the fix-up gives the front one cell. So the front is empty only where all is.
ghost use Rattle.std.specs.Prelude.{◌≡◌, ◌≤◌, ◌<◌, ◌+◌, ◌-◌, length, slice_index_or};
ghost use Rattle.agg_laws.specs.Counters.{next_count};
ghost use Rattle.agg_queue.specs.Queue.{HasRoom, Pops, Pushes};
ghost use Rattle.agg_queue.specs.Ranges.{KeepsTotals, IsBalanced, IsBehind, IsRange, SetsBounds, total_within};

use crate::bounds::Bounds;
use crate::cells::Cells;
use agg_laws::{AggQueue, Monoid, Steps};
use std::alloc::Global;
use std::marker::Model;
use stream_base::NoMemory;

/// A queue by the de-amortized banker's aggregator (Tangwongsan, Hirzel, Schneider, DEBS 2017).
///
/// Each call has a bound of its own, whatever came before: `push` makes at most 4 steps, `pop` at
/// most 3 and `fold` at most 1. So it needs no credit. Contracts see its items and for how many more
/// there is room.
#[derive(Drop)]
pub struct Daba<M: Monoid> {
    cells: Cells<M>,
    bounds: Bounds,
}

impl<M: Monoid> Model for Daba<M> {
    ghost use Rattle.std.specs.Prelude.{length};
    ghost use Rattle.agg_queue.specs.Lanes.{queue_of};
    ghost use Rattle.agg_queue.specs.Queue.{Queue};
    ghost use Rattle.agg_queue.specs.Ranges.{KeepsTotals, IsBalanced};

    ghost Value = { Queue M };

    ghost view = { λ q. queue_of q.cells };

    ghost invariant = { λ q.
        KeepsTotals M.is_value M.empty M.op q.cells.values q.cells.aggregates q.bounds
        × IsBalanced q.bounds (length q.cells.values) };
}

impl<M: Monoid> AggQueue<M> for Daba<M> {
    ghost items = { λ q. q.items };

    ghost spare = { λ q. q.spare };

    ghost credit = { λ _. 0 };

    fn fresh(alloc: Global) -> Daba<M> {
        Daba {
            cells: Cells::new(alloc),
            bounds: Bounds::all_at(0),
        }
    }

    fn reserve(&mut self, room: u64) -> Result<(), NoMemory> {
        self.cells.reserve(room)?;
        Ok(())
    }

    /// Appends an item at the back. Uses one spare. At most 4 steps.
    fn push<L>(&mut self, value: M, steps: &mut Steps<L>)
        requires { HasRoom self.old }
        ensures pushes { Pushes value self.old self.new }
        ensures cost { steps.new ≤ steps.old + 4 }
    {
        value.vouch();
        let back = total_at_last(&self.cells, self.bounds.back, self.cells.len());
        self.cells.push(value, back.combine(&value, steps));
        self.bounds = fix_up(&mut self.cells, self.bounds, steps);
    }

    /// Removes the item at the front, `None` exactly where there is none. At most 3 steps.
    fn pop<L>(&mut self, steps: &mut Steps<L>) -> Option<M>
        ensures pops { Pops result self.old self.new }
        ensures cost { steps.new ≤ steps.old + 3 }
    {
        let value = self.cells.pop()?;
        self.bounds = fix_up(&mut self.cells, self.bounds.without_first(), steps);
        Some(value)
    }

    fn fold<L>(&self, steps: &mut Steps<L>) -> M {
        let front = total_at_first(&self.cells, 0, self.bounds.back);
        let back = total_at_last(&self.cells, self.bounds.back, self.cells.len());
        front.combine(&back, steps)
    }

    fn clear(&mut self) {
        self.cells.clear();
        self.bounds = Bounds::all_at(0);
    }

    fn len(&self) -> u64 {
        self.cells.len() as u64
    }
}

// What a range comes to whose aggregates run up to its end: the first one, if there is one.
fn total_at_first<M: Monoid>(cells: &Cells<M>, from: usize, to: usize) -> M
    requires range { IsRange from to (length cells.now.values) }
    requires first { from < to → slice_index_or cells.now.aggregates from M.empty
        ≡ total_within M.empty M.op cells.now.values from to }
    ensures { result ≡ total_within M.empty M.op cells.now.values from to }
{
    if from == to {
        return M::unit();
    }
    cells.aggregate(from)
}

// What a range comes to whose aggregates run from its start: the last one, if there is one.
fn total_at_last<M: Monoid>(cells: &Cells<M>, from: usize, to: usize) -> M
    requires range { IsRange from to (length cells.now.values) }
    requires last { from < to → slice_index_or cells.now.aggregates (to - 1) M.empty
        ≡ total_within M.empty M.op cells.now.values from to }
    ensures { result ≡ total_within M.empty M.op cells.now.values from to }
{
    if from == to {
        return M::unit();
    }
    cells.aggregate(to - 1)
}

// The one move after a push or a pop. At most three steps.
fn fix_up<M: Monoid, L>(cells: &mut Cells<M>, bounds: Bounds, steps: &mut Steps<L>) -> Bounds
    requires totals { KeepsTotals M.is_value M.empty M.op
        cells.old.values cells.old.aggregates bounds }
    requires behind { IsBehind bounds (length cells.old.values) }
    ensures sets { SetsBounds M.is_value M.empty M.op cells.old cells.new result }
    ensures balanced { IsBalanced result (length cells.new.values) }
    ensures cost { steps.new ≤ steps.old + 3 }
{
    if bounds.back == 0 {
        return Bounds::all_at(cells.len());
    }
    let bounds = flipped(cells, bounds);
    if bounds.left == bounds.right {
        return Bounds {
            left: bounds.left + 1,
            right: bounds.right + 1,
            accumulator: bounds.accumulator + 1,
            back: bounds.back,
        };
    }
    let bounds = extend_left(cells, bounds, steps);
    extend_accumulator(cells, bounds, steps)
}

// Where the front has grown up to the back boundary, the front becomes the left range and the back
// becomes the right one.
fn flipped<M: Monoid>(cells: &Cells<M>, bounds: Bounds) -> Bounds
    requires totals { KeepsTotals M.is_value M.empty M.op
        cells.now.values cells.now.aggregates bounds }
    requires behind { IsBehind bounds (length cells.now.values) }
    requires some { 0 < bounds.back }
    ensures totals { KeepsTotals M.is_value M.empty M.op
        cells.now.values cells.now.aggregates result }
    ensures behind { IsBehind result (length cells.now.values) }
    ensures room { result.left < result.back }
{
    if bounds.left != bounds.back {
        return bounds;
    }
    Bounds {
        left: 0,
        right: bounds.right,
        accumulator: cells.len(),
        back: cells.len(),
    }
}

// Makes the first aggregate of the left range run up to the back boundary, so that its cell joins
// the front. Two steps.
fn extend_left<M: Monoid, L>(cells: &mut Cells<M>, bounds: Bounds, steps: &mut Steps<L>) -> Bounds
    requires totals { KeepsTotals M.is_value M.empty M.op
        cells.old.values cells.old.aggregates bounds }
    requires some { bounds.left < bounds.right }
    ensures sets { SetsBounds M.is_value M.empty M.op cells.old cells.new result }
    ensures moved { result ≡ record bounds { left = bounds.left + 1 } }
    ensures cost { steps.new ≤ steps.old + 2 }
{
    let left = total_at_first(cells, bounds.left, bounds.right);
    let right = total_at_last(cells, bounds.right, bounds.accumulator);
    let rest = total_at_first(cells, bounds.accumulator, bounds.back);
    let whole = left.combine(&right, steps).combine(&rest, steps);
    cells.set_aggregate(bounds.left, whole);
    Bounds {
        left: bounds.left + 1,
        ..bounds
    }
}

// Makes the last aggregate of the right range run up to the back boundary, so that its cell joins
// the accumulator. One step.
fn extend_accumulator<M: Monoid, L>(
    cells: &mut Cells<M>,
    bounds: Bounds,
    steps: &mut Steps<L>,
) -> Bounds
    requires totals { KeepsTotals M.is_value M.empty M.op
        cells.old.values cells.old.aggregates bounds }
    requires some { bounds.right < bounds.accumulator }
    ensures sets { SetsBounds M.is_value M.empty M.op cells.old cells.new result }
    ensures moved { result ≡ record bounds { accumulator = bounds.accumulator - 1 } }
    ensures counted { steps.new ≡ next_count steps.old }
{
    let rest = total_at_first(cells, bounds.accumulator, bounds.back);
    let last = bounds.accumulator - 1;
    let whole = cells.value(last).combine(&rest, steps);
    cells.set_aggregate(last, whole);
    Bounds {
        accumulator: last,
        ..bounds
    }
}
