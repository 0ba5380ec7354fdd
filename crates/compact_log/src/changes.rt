//! Changes.
ghost use Rattle.std.specs.Prelude.{◌≡◌, ◌≤◌, ◌<◌, ℕ, List, [], length, Some, slice_get, slice_range, vec_capacity, vec_len};
ghost use Rattle.compact_log.specs.ChangeCells.{IsChangeHeld, change_of};
ghost use Rattle.compact_log.specs.Growing.{Grows, Keeps};
ghost use Rattle.compact_log.specs.Logs.{IsWithin, Pushes, Reserves};

use crate::change_cell::{ChangeCell, bare_cell, packed, unpacked};
use crate::change_form::ChangeForm;
use crate::change_range::ChangeRange;
use std::alloc::Global;
use std::marker::Model;
use stream_base::{Change, Former, KeyText, NoMemory, Row};

/// Changes in their order. Contracts see the list, and for how many more there is room.
///
/// A change takes 48 bytes, and a key is held once, at its place. Stored whole, in 224 bytes more,
/// is only a change whose key isn't held at the place that it is pushed with, or that doesn't fit:
/// a value or the sum of a mean is beyond 64 bits, the count of a mean isn't the row's number, a
/// row ends before its start, or a number, the length of a span or the place is beyond 32 bits.
#[derive(Drop)]
pub struct Changes {
    // The key at each place.
    keys: Vec<KeyText>,
    cells: Vec<ChangeCell>,
    // The changes of which a cell can't tell, each under its number.
    whole: Vec<Change>,
}

impl Model for Changes {
    ghost use Rattle.std.specs.Prelude.{length, map, min};
    ghost use Rattle.std.specs.List.{All};
    ghost use Rattle.stream_base.specs.Vectors.{room};
    ghost use Rattle.stream_base.specs.declared.change.Change.{Change};
    ghost use Rattle.compact_log.specs.Logs.{Log};

    ghost Value = { Log Change };

    ghost use Rattle.compact_log.specs.ChangeCells.{IsChangeHeld, change_of};

    ghost view = { λ l. record {
      items = map (change_of l.keys.items l.whole.items) l.cells.items;
      spare = min (room l.cells) (room l.whole);
    } };

    ghost invariant = { λ l. All (IsChangeHeld (length l.keys.items) (length l.whole.items))
        l.cells.items };
}

impl Changes {
    /// No change.
    pub fn new(alloc: Global) -> Changes
        ensures { result.items ≡ [] }
    {
        Changes {
            keys: Vec::new(alloc),
            cells: Vec::new(alloc),
            whole: Vec::new(alloc),
        }
    }

    /// Makes room for one key more.
    pub fn reserve_key(&mut self) -> Result<(), NoMemory>
        ensures { self.new ≡ self.old }
    {
        self.keys.reserve(1)?;
        Ok(())
    }

    /// Holds a key at the next place, from 0 on, if there is room for it. A change of it that is
    /// pushed with this place takes few bytes then.
    pub fn add_key(&mut self, key: &KeyText)
        ensures { self.new ≡ self.old }
    {
        hold_key(&mut self.keys, key);
    }

    /// Makes room for `count` changes more.
    pub fn reserve(&mut self, count: usize) -> Result<(), NoMemory>
        ensures { Reserves count result self.old self.new }
    {
        // Whether cells can tell what comes isn't known yet.
        self.cells.reserve(count)?;
        self.whole.reserve(count)?;
        Ok(())
    }

    /// Puts a change at the end, for which there is room. The place is that of its key.
    pub fn push(&mut self, change: &Change, place: usize)
        requires { 1 ≤ self.old.spare }
        ensures { Pushes change.now self.old self.new }
    {
        let cell = cell_for(&self.keys, &mut self.whole, change, place);
        self.cells.push_reserved(cell);
    }

    /// How many changes there are.
    pub fn len(&self) -> usize
        ensures { result ≡ length self.now.items }
    {
        self.cells.len()
    }

    /// The change at a place.
    pub fn get(&self, at: usize) -> Change
        requires { at < length self.now.items }
        ensures { slice_get self.now.items at ≡ Some result }
    {
        let cell = self.cells[at];
        unpacked(&cell, &self.keys, &self.whole)
    }

    /// The changes from one place up to another.
    pub fn between(&self, from: usize, to: usize) -> ChangeRange<'_>
        requires { IsWithin from to self.now.items }
        ensures { result ≡ slice_range self.now.items from to }
    {
        ChangeRange {
            log: self,
            from,
            to,
        }
    }
}

// Holds a key at the next place, if there is room for it.
fn hold_key(keys: &mut Vec<KeyText>, key: &KeyText)
    ensures { Keeps keys.old.items keys.new.items }
{
    if keys.len() < keys.capacity() {
        keys.push_reserved(*key);
    }
}

// A cell that tells a change. Where none can by the key at this place, the change is stored whole.
fn cell_for(keys: &[KeyText], whole: &mut Vec<Change>, change: &Change, place: usize) -> ChangeCell
    requires { vec_len whole.old < vec_capacity whole.old }
    ensures grows { Grows whole.old whole.new }
    ensures told { change_of keys.now whole.new.items result ≡ change.now }
    ensures held { IsChangeHeld (length keys.now) (length whole.new.items) result }
{
    match packed(change, keys, place) {
        Some(cell) => cell,
        None => stored(whole, change),
    }
}

// Stores a change whole, and gives the cell that tells it.
fn stored(whole: &mut Vec<Change>, change: &Change) -> ChangeCell
    requires { vec_len whole.old < vec_capacity whole.old }
    ensures grows { Grows whole.old whole.new }
    ensures told { (keys : List (List ℕ)) → change_of keys whole.new.items result ≡ change.now }
    ensures held { (n : ℕ) → IsChangeHeld n (length whole.new.items) result }
{
    let number = whole.len() as u64;
    whole.push_reserved(copied(change));
    bare_cell(ChangeForm::Whole, number)
}

fn copied(change: &Change) -> Change
    ensures { result ≡ change.now }
{
    match change {
        Change::Gone(row) => {
            let row: Row = *row;
            Change::Gone(row)
        }
        Change::New(row) => {
            let row: Row = *row;
            Change::New(row)
        }
        Change::Again { row, former } => {
            let row: Row = *row;
            let former: Former = *former;
            Change::Again { row, former }
        }
        Change::Dropped => Change::Dropped,
    }
}
