ghost use Rattle.std.specs.Prelude.{◌≡◌, ◌≤◌, ◌<◌, ◌+◌, List, [], length, filter, nat_le, IfOk, OnOk};
ghost use Rattle.stream_base.specs.declared.kept.Kept.{Kept};
ghost use Rattle.stream_base.specs.Laws.{TimesDoNotFall};
ghost use Rattle.stream_base.specs.Model.Journal.{put_in_order};
ghost use Rattle.stream_base.specs.Model.Windows.{last_time, within};
ghost use Rattle.aggregates.specs.Bundled.{bundle_of};
ghost use Rattle.slice_lists.specs.Slices.{slice_of, values_of};
ghost use Rattle.tuple_chunks.specs.Sums.{IsSum};

use crate::chunk::{Chunk, MOST, part_of, put_tuple, shown};
use crate::part::Part;
use crate::places::{are_by, place_of};
use crate::row::Row;
use crate::sums::sum_of;
use agg_laws::{Monoid, Steps};
use aggregates::Bundle;
use slice_lists::Slice;
use std::alloc::Global;
use std::marker::Model;
use stream_base::{Kept, NoMemory};

// Chunks in groups, these in groups again, and those in a row.
type Rows = Row<Row<Row<Chunk>>>;

/// The tuples of one key in event order. Contracts see the list, and whether there is room for one
/// tuple more. A few tuples lie in one list, which is empty where there are rows.
#[derive(Drop)]
pub struct Tuples {
    few: Vec<Kept>,
    rows: Option<Rows>,
}

impl Model for Tuples {
    ghost use Rattle.std.specs.Prelude.{vec_len, vec_capacity, ◌-◌};
    ghost use Rattle.tuple_chunks.specs.Held.{Held, IsHeld, held_of};

    ghost Value = { Held };

    ghost view = { λ t. held_of t.few.items (vec_capacity t.few - vec_len t.few) t.rows };

    ghost invariant = { λ t. IsHeld t.few.items (vec_capacity t.few) t.rows };
}

impl Tuples {
    /// No tuple.
    pub fn new(alloc: Global) -> Tuples
        ensures { result.tuples ≡ [] }
    {
        Tuples {
            few: Vec::new(alloc),
            rows: None,
        }
    }

    /// Makes room for one tuple more.
    pub fn reserve(&mut self) -> Result<(), NoMemory>
        ensures room { OnOk result (1 ≤ self.new.spare) }
        ensures spare { self.old.spare ≤ self.new.spare }
        ensures kept { self.new.tuples ≡ self.old.tuples }
    {
        if let Some(rows) = &mut self.rows {
            return rows.reserve();
        }
        if self.few.len() < MOST {
            self.few.reserve(1)?;
            return Ok(());
        }
        let rows = rows_of(&self.few)?;
        self.rows = Some(rows);
        self.few.clear();
        Ok(())
    }

    /// Puts a tuple in its place.
    pub fn put(&mut self, x: Kept)
        requires { 1 ≤ self.old.spare }
        ensures tuples { self.new.tuples ≡ put_in_order self.old.tuples x }
        ensures spare { self.old.spare ≤ self.new.spare + 1 }
    {
        if let Some(rows) = &mut self.rows {
            return rows.put(x);
        }
        let place = place_of(&self.few, x.time);
        put_tuple(&mut self.few, place, x);
    }

    /// Whether no tuple is of a later time.
    pub fn are_by(&self, time: u64) -> bool
        ensures { result ≡ nat_le (last_time self.now.tuples) time }
    {
        match &self.rows {
            Some(rows) => rows.last_time() <= time,
            None => are_by(&self.few, time),
        }
    }

    /// Drops the tuples before a time.
    pub fn drop_before(&mut self, time: u64)
        ensures tuples { self.new.tuples ≡ filter (λ x. nat_le time x.time) self.old.tuples }
        ensures spare { self.old.spare ≤ self.new.spare }
    {
        let Some(rows) = &mut self.rows else {
            self.few.retain(|x| time <= x.time);
            return;
        };
        if time <= rows.last_time() {
            return rows.drop_before(time);
        }
        self.rows = None;
        self.few.clear();
    }

    /// What the tuples of a range of times come to, in at most one step for each.
    pub fn fold<L>(&mut self, low: u64, high: u64, steps: &mut Steps<L>) -> Bundle
        ensures value { result ≡ bundle_of (values_of (within low high self.old.tuples)) }
        ensures kept { self.new ≡ self.old }
        ensures cost { steps.new ≤ steps.old + length (within low high self.old.tuples) }
    {
        if let Some(rows) = &mut self.rows {
            return or_unit(rows.fold(low, high, steps));
        }
        or_unit(sum_of(part_of(&self.few, low, high), steps))
    }

    /// How the tuples of a range of times show, of which there are some.
    pub fn shown(&self, low: u64, high: u64) -> Slice
        requires { 0 < length (within low high self.now.tuples) }
        ensures { result ≡ slice_of (within low high self.now.tuples) }
    {
        match &self.rows {
            Some(rows) => rows.shown(low, high).unwrap(),
            None => shown(part_of(&self.few, low, high)).unwrap(),
        }
    }
}

// Rows of these tuples.
fn rows_of(tuples: &Vec<Kept>) -> Result<Rows, NoMemory>
    requires some { 0 < length tuples.now.items }
    requires ordered { TimesDoNotFall tuples.now.items }
    ensures tuples { IfOk result (λ r. r.tuples ≡ tuples.now.items) }
    ensures room { IfOk result (λ r. 1 ≤ r.spare) }
{
    let alloc = *tuples.allocator();
    let chunk = Chunk::of(alloc, tuples)?;
    let group = Row::of(alloc, chunk)?;
    let groups = Row::of(alloc, group)?;
    Row::of(alloc, groups)
}

// What tuples come to, of which there may be none.
fn or_unit(sum: Option<Bundle>) -> Bundle
    ensures { (xs : List Kept) → IsSum sum xs → result ≡ bundle_of (values_of xs) }
{
    match sum {
        Some(bundle) => bundle,
        None => Bundle::unit(),
    }
}
