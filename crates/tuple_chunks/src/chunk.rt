ghost use Rattle.std.specs.Prelude.{◌≡◌, ◌≤◌, ◌<◌, ◌+◌, ◌-◌, ◌^◌, [], ◌∷◌, IfOk, length, filter, nat_le, vec_len, vec_capacity};
ghost use Rattle.std.specs.List.{insert};
ghost use Rattle.stream_base.specs.Laws.{TimesDoNotFall};
ghost use Rattle.stream_base.specs.Model.Journal.{put_in_order};
ghost use Rattle.stream_base.specs.Model.Windows.{first_time, last_time, within};
ghost use Rattle.tuple_chunks.specs.Parts.{IsSettled};
ghost use Rattle.tuple_chunks.specs.Sums.{IsSum, shown_of};

use crate::part::Part;
use crate::places::{cut, place_of, tuples_before};
use crate::sums::{covers, forget, sum_of};
use agg_laws::Steps;
use aggregates::Bundle;
use slice_lists::Slice;
use std::alloc::Global;
use std::marker::Model;
use stream_base::{Kept, NoMemory};

/// So many tuples lie in a chunk at most, and so many parts in a row, before it is divided.
pub const MOST: usize = 64;

/// A few tuples of a key, one behind another, and what they come to once a fold has asked for it.
#[derive(Drop)]
pub struct Chunk {
    tuples: Vec<Kept>,
    sum: Option<Bundle>,
}

impl Model for Chunk {
    ghost use Rattle.std.specs.Prelude.{vec_len, vec_capacity, ◌-◌};
    ghost use Rattle.stream_base.specs.Laws.{TimesDoNotFall};
    ghost use Rattle.tuple_chunks.specs.Held.{Held};
    ghost use Rattle.tuple_chunks.specs.Sums.{IsKeptSum};

    ghost Value = { Held };

    ghost view = { λ c. record {
      tuples = c.tuples.items;
      spare = vec_capacity c.tuples - vec_len c.tuples;
    } };

    ghost invariant = { λ c. TimesDoNotFall c.tuples.items × IsKeptSum c.sum c.tuples.items };
}

impl Chunk {
    /// A chunk of these tuples, with room for one more.
    pub fn of(alloc: Global, tuples: &[Kept]) -> Result<Chunk, NoMemory>
        requires ordered { TimesDoNotFall tuples.now }
        ensures tuples { IfOk result (λ c. c.tuples ≡ tuples.now) }
        ensures room { IfOk result (λ c. 1 ≤ c.spare) }
    {
        let mut own = Vec::with_capacity(alloc, MOST)?;
        own.extend_from_slice(tuples)?;
        own.reserve(1)?;
        Ok(Chunk {
            tuples: own,
            sum: None,
        })
    }
}

impl Part for Chunk {
    ghost tuples = { λ c. c.tuples };

    ghost spare = { λ c. c.spare };

    fn number(&self) -> usize {
        self.tuples.len()
    }

    fn first_time(&self) -> u64 {
        first_time(&self.tuples)
    }

    fn last_time(&self) -> u64 {
        last_time(&self.tuples)
    }

    fn has_room(&self) -> bool {
        self.tuples.len() < MOST && self.tuples.len() < self.tuples.capacity()
    }

    fn settle(&mut self, is_last: bool) -> Result<Option<Chunk>, NoMemory> {
        let len = self.tuples.len();
        if len < MOST {
            self.tuples.reserve(1)?;
            return Ok(None);
        }
        let at = cut(len, is_last);
        let alloc = *self.tuples.allocator();
        let back = Chunk::of(alloc, &self.tuples[at..])?;
        self.tuples.truncate(at);
        self.sum = None;
        Ok(Some(back))
    }

    fn put(&mut self, x: Kept) {
        let place = place_of(&self.tuples, x.time);
        put_tuple(&mut self.tuples, place, x);
        forget(&mut self.sum); // It was that of the tuples without this one.
    }

    fn drop_before(&mut self, time: u64) {
        if time <= first_time(&self.tuples) {
            return;
        }
        self.tuples.retain(|x| time <= x.time);
        self.sum = None;
    }

    fn fold<L>(&mut self, low: u64, high: u64, steps: &mut Steps<L>) -> Option<Bundle> {
        if !covers(low, high, first_time(&self.tuples), last_time(&self.tuples)) {
            return sum_of(part_of(&self.tuples, low, high), steps);
        }
        if self.sum.is_some() {
            return self.sum;
        }
        self.sum = sum_of(&self.tuples, steps);
        self.sum
    }

    fn shown(&self, low: u64, high: u64) -> Option<Slice> {
        shown(part_of(&self.tuples, low, high))
    }
}

// The time of the first tuple.
fn first_time(tuples: &[Kept]) -> u64
    ensures { result ≡ first_time tuples.now }
{
    if tuples.is_empty() { 0 } else { tuples[0].time }
}

// The time of the last tuple.
fn last_time(tuples: &[Kept]) -> u64
    ensures { result ≡ last_time tuples.now }
{
    if tuples.is_empty() {
        0
    } else {
        tuples[tuples.len() - 1].time
    }
}

/// Puts a tuple in a place, for which there is room.
pub fn put_tuple(tuples: &mut Vec<Kept>, place: usize, x: Kept)
    requires within { place ≤ vec_len tuples.old }
    requires room { vec_len tuples.old < vec_capacity tuples.old }
    ensures items { tuples.new.items ≡ insert tuples.old.items place x }
    ensures len { vec_len tuples.new ≡ vec_len tuples.old + 1 }
    ensures fits { vec_len tuples.new < 2 ^ 64 }
    ensures capacity { vec_capacity tuples.old ≤ vec_capacity tuples.new }
{
    if place == tuples.len() {
        tuples.push(x).unwrap();
    } else {
        tuples.insert(place, x).unwrap();
    }
}

/// The tuples of a range of times.
pub fn part_of(tuples: &[Kept], low: u64, high: u64) -> &[Kept]
    requires { TimesDoNotFall tuples.now }
    ensures { result.now ≡ within low high tuples.now }
{
    let end = tuples_before(tuples, high);
    let start = tuples_before(tuples, low).min(end);
    &tuples[start..end]
}

/// How tuples show, if there are any.
pub fn shown(tuples: &[Kept]) -> Option<Slice>
    ensures { result ≡ shown_of tuples.now }
{
    if tuples.is_empty() {
        return None;
    }
    Some(Slice {
        low: tuples[0].time,
        high: tuples[tuples.len() - 1].time,
        number: tuples.len() as u64,
    })
}
