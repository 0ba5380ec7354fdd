//! How instances of one events window are told.
ghost use Rattle.std.specs.Prelude.{◌≡◌, ◌≤◌, ◌<◌, ◌+◌, ◌-◌, ◌*◌, ◌^◌, ◌++◌, length};
ghost use Rattle.std.specs.List.{remove};
ghost use Rattle.stream_base.specs.Model.Changes.{former_of};
ghost use Rattle.stream_base.specs.Model.Windows.{ranks};
ghost use Rattle.stream_base.specs.Vectors.{Adds, room};
ghost use Rattle.count_shift.specs.Told.{again_in, new_in, row_behind};

use crate::fold::fold_onto;
use agg_laws::{Monoid, Steps};
use aggregates::{Bundle, Partial};
use stream_base::{Change, Former, Func, Kept, KeyText, Row};

// One events window of one key: its place among the definitions, its function, how many tuples an
// instance selects, and how many tuples that have left come before those at hand, all of them of
// whole instances. Instances are numbered from those at hand on.
#[derive(Clone, Copy)]
pub struct EventsWindow<'a> {
    pub window: u32,
    pub key: &'a KeyText,
    pub func: Func,
    pub count: usize,
    pub gone: u64,
}

impl EventsWindow<'_> {
    // The row of the i-th instance.
    pub fn row<L>(&self, items: &[Kept], i: usize, steps: &mut Steps<L>) -> Row
        requires filled { (i + 1) * self.now.count ≤ length items.now }
        requires counted { self.now.gone + length items.now < 2 ^ 64 }
        ensures value { result ≡ row_behind self.now items.now i }
        ensures cost { steps.new ≤ steps.old + self.now.count }
    {
        let low = i * self.count;
        let high = low + self.count;
        let folded = fold_onto(Bundle::unit(), &items[low..high], steps);
        Row {
            window: self.window,
            key: *self.key,
            low: self.gone + low as u64,
            high: self.gone + high as u64,
            number: self.count as u64,
            shown: folded.show(self.func),
        }
    }

    // What the i-th instance was before the tuple at this rank came: each tuple behind the rank
    // stands one place on.
    pub fn former<L>(&self, items: &[Kept], rank: usize, i: usize, steps: &mut Steps<L>) -> Former
        requires behind { rank < (i + 1) * self.now.count }
        requires room { (i + 1) * self.now.count < length items.now }
        ensures value { result
            ≡ former_of self.now.func (ranks self.now.count (remove items.now rank) i) }
        ensures cost { steps.new ≤ steps.old + self.now.count }
    {
        let low = i * self.count;
        let high = low + self.count;
        let left_out = low.max(rank);
        let front = fold_onto(Bundle::unit(), &items[low..left_out], steps);
        let folded = fold_onto(front, &items[left_out + 1..high + 1], steps);
        Former {
            number: self.count as u64,
            shown: folded.show(self.func),
        }
    }

    // Tells the instances from one up to another as new.
    pub fn append_new<L>(
        &self,
        items: &[Kept],
        from: usize,
        to: usize,
        out: &mut Vec<Change>,
        steps: &mut Steps<L>,
    )
        requires filled { to * self.now.count ≤ length items.now }
        requires counted { self.now.gone + length items.now < 2 ^ 64 }
        requires spare { to - from ≤ room out.old }
        ensures told { out.new.items ≡ out.old.items ++ new_in self.now items.now from to }
        ensures adds { Adds (to - from) out.old out.new }
        ensures cost { steps.new ≤ steps.old + self.now.count * (to - from) }
    {
        for i in from..to {
            let row = self.row(items, i, steps);
            out.push_reserved(Change::New(row));
        }
    }

    // Tells the instances from one up to another again, with what they were before the tuple at
    // this rank came.
    pub fn append_again<L>(
        &self,
        items: &[Kept],
        rank: usize,
        from: usize,
        to: usize,
        out: &mut Vec<Change>,
        steps: &mut Steps<L>,
    )
        requires behind { rank < (from + 1) * self.now.count }
        requires filled { to * self.now.count < length items.now }
        requires counted { self.now.gone + length items.now < 2 ^ 64 }
        requires spare { to - from ≤ room out.old }
        ensures told { out.new.items
            ≡ out.old.items ++ again_in self.now (remove items.now rank) items.now from to }
        ensures adds { Adds (to - from) out.old out.new }
        ensures cost { steps.new ≤ steps.old + 2 * self.now.count * (to - from) }
    {
        for i in from..to {
            let row = self.row(items, i, steps);
            let former = self.former(items, rank, i, steps);
            out.push_reserved(Change::Again { row, former });
        }
    }
}
