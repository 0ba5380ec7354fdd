//! The entries of a journal.
ghost use Rattle.std.specs.Prelude.{◌≡◌, ◌≤◌, ◌<◌, ℕ, List, [], length, Some, slice_get, vec_capacity, vec_len};
ghost use Rattle.compact_log.specs.EntryCells.{IsEntryHeld, entry_of};
ghost use Rattle.compact_log.specs.Growing.{Grows};
ghost use Rattle.compact_log.specs.Logs.{Pushes, Reserves};

use crate::entry_cell::{EntryCell, packed, unpacked};
use crate::entry_kind::EntryKind;
use std::alloc::Global;
use std::marker::Model;
use stream_base::{Entry, KeyText, NoMemory, What};

/// The entries of a journal. Contracts see the list, and for how many more there is room.
///
/// An entry takes 24 bytes, and a key is held once, at its place. Stored whole, in 96 bytes more,
/// is only an entry whose key isn't held at the place that it is pushed with, or where that is
/// beyond 32 bits.
#[derive(Drop)]
pub struct Entries {
    // The key at each place.
    keys: Vec<KeyText>,
    cells: Vec<EntryCell>,
    // The entries of which a cell can't tell, each under its number.
    whole: Vec<Entry>,
}

impl Model for Entries {
    ghost use Rattle.std.specs.Prelude.{length, map, min};
    ghost use Rattle.std.specs.List.{All};
    ghost use Rattle.stream_base.specs.Vectors.{room};
    ghost use Rattle.stream_base.specs.declared.entry.Entry.{Entry};
    ghost use Rattle.compact_log.specs.Logs.{Log};

    ghost Value = { Log Entry };

    ghost use Rattle.compact_log.specs.EntryCells.{IsEntryHeld, entry_of};

    ghost view = { λ l. record {
      items = map (entry_of l.keys.items l.whole.items) l.cells.items;
      spare = min (room l.keys) (min (room l.cells) (room l.whole));
    } };

    ghost invariant = { λ l. All (IsEntryHeld (length l.keys.items) (length l.whole.items))
        l.cells.items };
}

impl Entries {
    /// No entry.
    pub fn new(alloc: Global) -> Entries
        ensures { result.items ≡ [] }
    {
        Entries {
            keys: Vec::new(alloc),
            cells: Vec::new(alloc),
            whole: Vec::new(alloc),
        }
    }

    /// Makes room for `count` entries more.
    pub fn reserve(&mut self, count: usize) -> Result<(), NoMemory>
        ensures { Reserves count result self.old self.new }
    {
        // Whether keys are new and cells can tell what comes isn't known yet.
        self.keys.reserve(count)?;
        self.cells.reserve(count)?;
        self.whole.reserve(count)?;
        Ok(())
    }

    /// Puts an entry at the end, for which there is room. The place is that of its key, as whoever
    /// calls counts keys: a key that is always told with one place is held once.
    pub fn push(&mut self, entry: &Entry, place: usize)
        requires { 1 ≤ self.old.spare }
        ensures { Pushes entry.now self.old self.new }
    {
        hold_key(&mut self.keys, entry, place);
        let cell = cell_for(&self.keys, &mut self.whole, entry, place);
        self.cells.push_reserved(cell);
    }

    /// How many entries there are.
    pub fn len(&self) -> usize
        ensures { result ≡ length self.now.items }
    {
        self.cells.len()
    }

    /// The entry at a position.
    pub fn get(&self, position: usize) -> Entry
        requires { position < length self.now.items }
        ensures { slice_get self.now.items position ≡ Some result }
    {
        let cell = self.cells[position];
        unpacked(&cell, &self.keys, &self.whole)
    }
}

// Holds the key of an entry at a place, if that is the next.
fn hold_key(keys: &mut Vec<KeyText>, entry: &Entry, place: usize)
    requires { vec_len keys.old < vec_capacity keys.old }
    ensures { Grows keys.old keys.new }
{
    if place != keys.len() {
        return;
    }
    if let What::Tuple { key, .. } | What::Mark { key, .. } = &entry.what {
        keys.push_reserved(*key);
    }
}

// A cell that tells an entry. Where none can by the key at this place, the entry is stored whole.
fn cell_for(keys: &[KeyText], whole: &mut Vec<Entry>, entry: &Entry, place: usize) -> EntryCell
    requires { vec_len whole.old < vec_capacity whole.old }
    ensures grows { Grows whole.old whole.new }
    ensures told { entry_of keys.now whole.new.items result ≡ entry.now }
    ensures held { IsEntryHeld (length keys.now) (length whole.new.items) result }
{
    match packed(entry, keys, place) {
        Some(cell) => cell,
        None => stored(whole, entry),
    }
}

// Stores an entry whole, and gives the cell that tells it.
fn stored(whole: &mut Vec<Entry>, entry: &Entry) -> EntryCell
    requires { vec_len whole.old < vec_capacity whole.old }
    ensures grows { Grows whole.old whole.new }
    ensures told { (keys : List (List ℕ)) → entry_of keys whole.new.items result ≡ entry.now }
    ensures held { (n : ℕ) → IsEntryHeld n (length whole.new.items) result }
{
    let number = whole.len() as u64;
    let what: What = entry.what;
    whole.push_reserved(Entry {
        source: entry.source,
        what,
    });
    EntryCell {
        time: number,
        value: 0,
        place: 0,
        source: 0,
        kind: EntryKind::Whole,
    }
}
