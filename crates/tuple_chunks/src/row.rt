ghost use Rattle.std.specs.Prelude.{◌≡◌, ◌≤◌, ◌<◌, ◌+◌, ◌-◌, ◌^◌, ◌++◌, List, ℕ, All, IfOk, OnOk, length, filter, nat_le, true, vec_len, slice_index_or};
ghost use Rattle.std.specs.List.{flat_map};
ghost use Rattle.stream_base.specs.Laws.{TimesDoNotFall};
ghost use Rattle.stream_base.specs.Model.Journal.{put_in_order};
ghost use Rattle.stream_base.specs.Model.Windows.{last_time, within};
ghost use Rattle.tuple_chunks.specs.Parts.{AreParts, HaveRoomBut, IsEntry};
ghost use Rattle.tuple_chunks.specs.Sums.{IsSum, shown_of};

use crate::chunk::MOST;
use crate::part::Part;
use crate::places::cut;
use crate::sums::{covers, forget, joined, misses, shown_together};
use agg_laws::Steps;
use aggregates::Bundle;
use slice_lists::Slice;
use std::alloc::Global;
use std::marker::Model;
use stream_base::{Kept, NoMemory};

/// Tuples of a key in parts that stand in a row, and what they come to once a fold has asked for it.
/// There is always one part at least.
#[derive(Drop)]
pub struct Row<P: Part> {
    parts: Vec<P>,
    number: usize,
    // The part that the last tuple entered, which alone may have no room.
    entered: usize,
    // Whether that part has room as well.
    ready: bool,
    sum: Option<Bundle>,
}

impl<P: Part> Model for Row<P> {
    ghost use Rattle.std.specs.Prelude.{if◌then◌else◌};
    ghost use Rattle.std.specs.List.{flat_map};
    ghost use Rattle.tuple_chunks.specs.Held.{Held};
    ghost use Rattle.tuple_chunks.specs.Parts.{IsRow};

    ghost Value = { Held };

    ghost view = { λ r. record {
      tuples = flat_map P.tuples r.parts.items;
      spare = if r.ready then 1 else 0;
    } };

    ghost invariant = { λ r. IsRow P.tuples P.spare r.parts.items r.number r.entered r.ready r.sum };
}

impl<P: Part> Row<P> {
    /// A row of one part.
    pub fn of(alloc: Global, part: P) -> Result<Row<P>, NoMemory>
        requires some { 0 < length (P.tuples part) }
        requires ordered { TimesDoNotFall (P.tuples part) }
        requires room { 1 ≤ P.spare part }
        requires counts { length (P.tuples part) + 1 < 2 ^ 64 }
        ensures tuples { IfOk result (λ r. r.tuples ≡ P.tuples part) }
        ensures room { IfOk result (λ r. 1 ≤ r.spare) }
    {
        let number = part.number();
        let mut parts = Vec::new(alloc);
        parts.push(part)?;
        Ok(Row {
            parts,
            number,
            entered: 0,
            ready: true,
            sum: None,
        })
    }

    /// Makes room for one tuple more.
    pub fn reserve(&mut self) -> Result<(), NoMemory>
        ensures room { OnOk result (1 ≤ self.new.spare) }
        ensures spare { self.old.spare ≤ self.new.spare }
        ensures kept { self.new.tuples ≡ self.old.tuples }
    {
        if self.ready {
            return Ok(());
        }
        if self.number == usize::MAX {
            return Err(NoMemory);
        }
        settle_part(&mut self.parts, self.entered)?;
        self.ready = true;
        Ok(())
    }
}

impl<P: Part> Part for Row<P> {
    ghost tuples = { λ r. r.tuples };

    ghost spare = { λ r. r.spare };

    fn number(&self) -> usize {
        self.number
    }

    fn first_time(&self) -> u64 {
        self.parts[0].first_time()
    }

    fn last_time(&self) -> u64 {
        self.parts[self.parts.len() - 1].last_time()
    }

    fn has_room(&self) -> bool {
        self.ready
    }

    fn settle(&mut self, is_last: bool) -> Result<Option<Row<P>>, NoMemory> {
        self.reserve()?;
        if self.parts.len() < MOST {
            return Ok(None);
        }
        let at = cut(self.parts.len(), is_last);
        let back = self.parts.split_off(at)?;
        let number = numbers(&back);
        self.number -= number;
        self.entered = 0;
        self.sum = None;
        Ok(Some(Row {
            parts: back,
            number,
            entered: 0,
            ready: true,
            sum: None,
        }))
    }

    fn put(&mut self, x: Kept) {
        let at = entry_of(&self.parts, x.time);
        let has_room = put_in_part(&mut self.parts, at, x);
        self.number += 1;
        self.entered = at;
        self.ready = has_room && self.number < usize::MAX;
        forget(&mut self.sum); // It was that of the tuples without this one.
    }

    fn drop_before(&mut self, time: u64) {
        if time <= self.parts[0].first_time() {
            return;
        }
        let gone = drop_parts(&mut self.parts, time);
        self.number = numbers(&self.parts);
        self.entered = self.entered.saturating_sub(gone);
        self.sum = None;
    }

    fn fold<L>(&mut self, low: u64, high: u64, steps: &mut Steps<L>) -> Option<Bundle> {
        let first = self.first_time();
        let last = self.last_time();
        if misses(low, high, first, last) {
            return None;
        }
        if !covers(low, high, first, last) {
            return fold_parts(&mut self.parts, low, high, steps);
        }
        if self.sum.is_some() {
            return self.sum;
        }
        self.sum = fold_parts(&mut self.parts, low, high, steps);
        self.sum
    }

    fn shown(&self, low: u64, high: u64) -> Option<Slice> {
        let number = self.number as u64;
        let first = self.first_time();
        let last = self.last_time();
        if misses(low, high, first, last) {
            return None;
        }
        if covers(low, high, first, last) {
            return Some(Slice {
                low: first,
                high: last,
                number,
            });
        }
        shown_parts(&self.parts, low, high)
    }
}

// How many tuples parts have.
fn numbers<P: Part>(parts: &[P]) -> usize
    requires { length (flat_map P.tuples parts.now) < 2 ^ 64 }
    ensures { result ≡ length (flat_map P.tuples parts.now) }
{
    let mut number = 0;
    for part in parts {
        number += part.number();
    }
    number
}

// The part that a tuple at a time enters. A tuple that comes in order takes one look at the last one,
// and where there is one part it takes none.
fn entry_of<P: Part>(parts: &[P], time: u64) -> usize
    requires some { 0 < length parts.now }
    requires parts { AreParts P.tuples parts.now }
    ensures { IsEntry P.tuples parts.now time result }
{
    if parts.len() == 1 {
        return 0;
    }
    let last = parts.len() - 1;
    if parts[last].last_time() <= time {
        last
    } else {
        parts.partition_point(|part| part.last_time() <= time)
    }
}

// Puts a tuple into the part that it enters, and answers whether that has room still.
fn put_in_part<P: Part>(parts: &mut Vec<P>, at: usize, x: Kept) -> bool
    requires entry { IsEntry P.tuples parts.old.items x.time at }
    requires parts { AreParts P.tuples parts.old.items }
    requires rooms { All (λ p. 1 ≤ P.spare p) parts.old.items }
    ensures tuples { flat_map P.tuples parts.new.items
        ≡ put_in_order (flat_map P.tuples parts.old.items) x }
    ensures parts { AreParts P.tuples parts.new.items }
    ensures rooms { HaveRoomBut P.spare parts.new.items at }
    ensures ready { result ≡ true → All (λ p. 1 ≤ P.spare p) parts.new.items }
    ensures len { vec_len parts.new ≡ vec_len parts.old }
{
    let part = &mut parts[at];
    part.put(x);
    part.has_room()
}

// Makes room in the one part that may have none.
fn settle_part<P: Part>(parts: &mut Vec<P>, at: usize) -> Result<(), NoMemory>
    requires within { at < vec_len parts.old }
    requires parts { AreParts P.tuples parts.old.items }
    requires rooms { HaveRoomBut P.spare parts.old.items at }
    ensures tuples { flat_map P.tuples parts.new.items ≡ flat_map P.tuples parts.old.items }
    ensures some { All (λ p. 0 < length (P.tuples p)) parts.new.items }
    ensures others { HaveRoomBut P.spare parts.new.items at }
    ensures rooms { OnOk result (All (λ p. 1 ≤ P.spare p) parts.new.items) }
    ensures within { at < vec_len parts.new }
{
    parts.reserve(1)?;
    let is_last = at + 1 == parts.len();
    let part = &mut parts[at];
    match part.settle(is_last)? {
        Some(back) => parts.insert(at + 1, back).unwrap(),
        None => {}
    }
    Ok(())
}

// Drops the tuples before a time, which aren't all, and tells how many parts left.
fn drop_parts<P: Part>(parts: &mut Vec<P>, time: u64) -> usize
    requires some { 0 < vec_len parts.old }
    requires parts { AreParts P.tuples parts.old.items }
    requires stays { time ≤ last_time (flat_map P.tuples parts.old.items) }
    ensures tuples { flat_map P.tuples parts.new.items
        ≡ filter (λ x. nat_le time x.time) (flat_map P.tuples parts.old.items) }
    ensures parts { AreParts P.tuples parts.new.items }
    ensures len { vec_len parts.new + result ≡ vec_len parts.old }
    ensures some { 0 < vec_len parts.new }
    ensures spare { (k : ℕ) (d : P) → k < vec_len parts.new
        → P.spare (slice_index_or parts.old.items (k + result) d)
        ≤ P.spare (slice_index_or parts.new.items k d) }
{
    let mut gone = 0;
    while parts[0].last_time() < time {
        parts.remove(0);
        gone += 1;
    }
    let first = &mut parts[0];
    first.drop_before(time);
    gone
}

// What the tuples of a range of times come to, part by part.
fn fold_parts<P: Part, L>(
    parts: &mut [P],
    low: u64,
    high: u64,
    steps: &mut Steps<L>,
) -> Option<Bundle>
    ensures sum { IsSum result (within low high (flat_map P.tuples parts.old)) }
    ensures kept { parts.new ≡ parts.old }
    ensures cost { steps.new
        ≤ steps.old + (length (within low high (flat_map P.tuples parts.old)) - 1) }
{
    let mut sum = None;
    for part in parts.iter_mut() {
        let more = part.fold(low, high, steps);
        sum = joined(sum, more, steps);
    }
    sum
}

// How the tuples of a range of times show, part by part.
fn shown_parts<P: Part>(parts: &[P], low: u64, high: u64) -> Option<Slice>
    requires { length (flat_map P.tuples parts.now) < 2 ^ 64 }
    ensures { result ≡ shown_of (within low high (flat_map P.tuples parts.now)) }
{
    let mut shown = None;
    for part in parts {
        shown = shown_together(shown, part.shown(low, high));
    }
    shown
}
