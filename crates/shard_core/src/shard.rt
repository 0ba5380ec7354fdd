ghost use Rattle.std.specs.Prelude.{◌≡◌, ◌≤◌, ◌<◌, ◌↔◌, [], length, IfOk, IsErrOf, true, false, Some, slice_get, slice_index, slice_range};
ghost use Rattle.stream_base.specs.Limits.{AreWithinLimits};
ghost use Rattle.stream_base.specs.declared.limits.TheConstants.{JOURNAL_MAX};
ghost use Rattle.stream_base.specs.Model.Changes.{changes_at, standing_rows};
ghost use Rattle.stream_base.specs.Model.Watermark.{has_ended};
ghost use Rattle.shard_core.specs.Applying.{Applies};
ghost use Rattle.shard_core.specs.Flat.{joined, start_at};
ghost use Rattle.shard_core.specs.Shard.{AreSources, IsJournal, IsKnown, IsNext, changes_behind, slices_after};
ghost use Rattle.shard_core.specs.Work.{IsMarkWithin, IsProgressWithin, IsTupleWithin};

use crate::applied::{Applied, ApplyFault};
use crate::keys::KeyTable;
use crate::past::Past;
use crate::rows::rows_behind;
use crate::told::Told;
use agg_laws::Steps;
use compact_log::{ChangeRange, Changes};
use key_windows::{AnyKey, KeyWindows};
use std::alloc::Global;
use std::marker::Model;
use stream_base::{Defs, Entry, JOURNAL_MAX, KeyText, NoMemory, Row};

/// A shard over an engine for the windows of one key: a journal, and under each of its entries the
/// changes of the results. Contracts see the definitions, the number of sources and the journal.
///
/// An entry that doesn't move the watermark touches its own key alone. A move of the watermark
/// touches the keys of which something is complete or settled by then, in the order of their bytes.
#[derive(Drop)]
pub struct KeyedShard<K: AnyKey> {
    alloc: Global,
    past: Past,
    keys: KeyTable<K>,
    // The changes under all entries, one entry's behind the other's, and where each entry's end.
    // None waits between two entries.
    told: Told,
    ends: Vec<usize>,
}

impl<K: AnyKey> Model for KeyedShard<K> {
    ghost use Rattle.shard_core.specs.Shard.{Sharded};

    ghost Value = { Sharded };

    ghost use Rattle.shard_core.specs.Flat.{IsShard, sharded};
    ghost use Rattle.shard_core.specs.Told.{IsSettled};

    ghost view = { λ a. sharded a.past };

    ghost invariant = { λ a. IsShard K.key_of K.fits K.next_position
        a.past a.keys a.told.log.items a.ends.items × IsSettled a.told };
}

impl<K: AnyKey> KeyedShard<K> {
    /// A shard with an empty journal, for so many sources.
    pub fn new(alloc: Global, defs: Defs, sources: u16) -> Result<KeyedShard<K>, NoMemory>
        requires { AreSources sources }
        ensures { IfOk result (λ shard. shard
            ≡ record { defs = defs; sources = sources; journal = [] }) }
    {
        let past = Past::new(alloc, defs, sources)?;
        Ok(KeyedShard {
            alloc,
            past,
            keys: KeyTable::new(alloc),
            told: Told::new(alloc),
            ends: Vec::new(alloc),
        })
    }

    /// Appends an entry, and under it the changes that it causes. It takes all its memory first.
    ///
    /// The steps of a tuple or mark that isn't late stay within a bound of the engine's, by what is
    /// kept of the key before and behind the entry. Those of a word on progress stay within the sum of
    /// such bounds over the keys of which something becomes complete or settled by it: all others cost
    /// nothing. A late or refused entry takes none, nor does a word that leaves the watermark as it is.
    pub fn apply<L>(&mut self, entry: &Entry, steps: &mut Steps<L>) -> Result<Applied, ApplyFault>
        requires { IsKnown self.old.sources entry.now }
        ensures applies { Applies (IsTupleWithin K.bounds_put) (IsMarkWithin K.bounds_mark)
            (IsProgressWithin K.bounds_move) self.old entry.now result self.new steps.old steps.new }
        ensures ended { IsErrOf result ApplyFault.Ended
            ↔ (has_ended entry.now.source self.old.journal ≡ true) }
        ensures full { IsErrOf result ApplyFault.Full
            ↔ ((has_ended entry.now.source self.old.journal ≡ false) × (length self.old.journal
            ≡ JOURNAL_MAX)) }
        ensures limits { AreWithinLimits self.old.defs }
    {
        if self.past.has_ended(entry.source) {
            return Err(ApplyFault::Ended);
        }
        if self.past.len() == JOURNAL_MAX {
            return Err(ApplyFault::Full);
        }
        Ok(self.append(entry, steps)?)
    }

    fn append<L>(&mut self, entry: &Entry, steps: &mut Steps<L>) -> Result<Applied, NoMemory>
        requires { IsNext self.old.sources self.old.journal entry.now }
        ensures { Applies (IsTupleWithin K.bounds_put) (IsMarkWithin K.bounds_mark)
            (IsProgressWithin K.bounds_move) self.old entry.now result self.new steps.old steps.new }
    {
        self.past.reserve()?;
        self.ends.reserve(1)?;
        let before = self.told.log.len();
        let place = self
            .keys
            .take_in(self.alloc, &self.past, entry, &mut self.told, steps)?;
        let end = self.told.log.len();
        let applied = Applied {
            position: self.past.len(),
            changes: (end - before) as u64,
        };
        self.past.push(entry, place);
        self.ends.push_reserved(end);
        Ok(applied)
    }

    /// The definitions, which are within their limits.
    pub fn defs(&self) -> &Defs
        ensures value { result.now ≡ self.now.defs }
        ensures limits { AreWithinLimits self.now.defs }
    {
        self.past.defs()
    }

    /// How many entries the journal has.
    pub fn journal_len(&self) -> u64
        ensures value { result ≡ length self.now.journal }
        ensures journal { IsJournal self.now.sources self.now.journal }
    {
        self.past.len()
    }

    /// The entry at a position.
    pub fn entry_at(&self, position: u64) -> Entry
        requires { position < length self.now.journal }
        ensures { slice_get self.now.journal position ≡ Some result }
    {
        self.past.entry(position)
    }

    /// The changes under the entry at a position.
    pub fn changes_at(&self, position: u64) -> ChangeRange<'_>
        requires { position < length self.now.journal }
        ensures { result ≡ changes_at self.now.defs self.now.sources self.now.journal position }
    {
        part_of(&self.told.log, &self.ends, position as usize)
    }

    /// How many changes stand under all entries.
    pub fn change_count(&self) -> u64
        ensures { result ≡ length (joined
            (changes_behind self.now.defs self.now.sources [] self.now.journal)) }
    {
        self.told.log.len() as u64
    }

    /// The rows of all that stands, by key, window, start and end.
    ///
    /// The changes lead there: each is taken in once more, in rows in their order. So it takes the
    /// memory of what stands, whatever the journal, and no step. The shard itself stays as it is.
    pub fn standing<L>(&self, _steps: &mut Steps<L>) -> Result<Vec<Row>, NoMemory>
        ensures { IfOk result (λ rows. rows.items
            ≡ standing_rows self.now.defs self.now.sources self.now.journal) }
    {
        let rows = rows_behind(self.alloc, &self.told.log)?;
        rows.rows(self.alloc)
    }

    /// How many slices a key has: the maximal stretches of its unsettled tuples with no cut between
    /// neighbours. A key that no entry named has none.
    pub fn slice_count(&self, key: &KeyText) -> u64
        ensures { result
            ≡ length (slices_after self.now.defs self.now.sources self.now.journal key.now) }
    {
        self.keys.slice_count(&self.past, key)
    }
}

// The changes up to the end at a position, from the end before it.
fn part_of<'a>(changes: &'a Changes, ends: &[usize], position: usize) -> ChangeRange<'a>
    requires known { position < length ends.now }
    requires rises { start_at ends.now position ≤ slice_index ends.now position }
    requires within { slice_index ends.now position ≤ length changes.now.items }
    ensures { result ≡ slice_range changes.now.items (start_at ends.now position)
        (slice_index ends.now position) }
{
    let start = if position == 0 { 0 } else { ends[position - 1] };
    let end = ends[position];
    changes.between(start, end)
}
