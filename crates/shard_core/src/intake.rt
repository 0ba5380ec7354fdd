ghost use Rattle.std.specs.Prelude.{◌≡◌, ◌<◌, true, OnOk, length};
ghost use Rattle.stream_base.specs.declared.limits.TheConstants.{JOURNAL_MAX};
ghost use Rattle.stream_base.specs.Model.What.{is_progress};
ghost use Rattle.shard_core.specs.Engines.{MayCome, TakesIn};
ghost use Rattle.shard_core.specs.Flat.{sharded};
ghost use Rattle.shard_core.specs.Told.{IsSettled};
ghost use Rattle.shard_core.specs.Work.{IsMarkWithin, IsMoveWithin, IsProgressWithin, IsStill, IsTupleWithin, comes_late};

use crate::keys::KeyTable;
use crate::past::Past;
use crate::told::Told;
use agg_laws::Steps;
use key_windows::{AnyKey, KeyWindows};
use std::alloc::Global;
use stream_base::{Change, Entry, NoMemory, What};

// In place of the place of a key, for an entry that goes to none.
const NO_PLACE: usize = usize::MAX;

impl<K: AnyKey> KeyTable<K> {
    // Takes in an entry and tells its changes, or does nothing. Answers the place of its key.
    pub fn take_in<L>(
        &mut self,
        alloc: Global,
        past: &Past,
        entry: &Entry,
        told: &mut Told,
        steps: &mut Steps<L>,
    ) -> Result<usize, NoMemory>
        requires settled { IsSettled told.old }
        requires comes { MayCome K.key_of K.fits K.next_position past.now self.old entry.now }
        requires few { length past.now.journal < JOURNAL_MAX }
        ensures settled { IsSettled told.new }
        ensures taken { TakesIn K.key_of K.fits K.next_position past.now entry.now result
            self.new told.old told.new steps.old steps.new }
        ensures tuple_work { OnOk result (IsTupleWithin K.bounds_put (sharded past.now) entry.now
            steps.old steps.new) }
        ensures mark_work { OnOk result (IsMarkWithin K.bounds_mark (sharded past.now) entry.now
            steps.old steps.new) }
        ensures move_work { OnOk result (IsProgressWithin K.bounds_move (sharded past.now)
            entry.now steps.old steps.new) }
        ensures late_work { comes_late (sharded past.now) entry.now ≡ true → steps.new ≡ steps.old }
        ensures still_work { IsStill (sharded past.now) entry.now → steps.new ≡ steps.old }
    {
        if past.is_late(entry) {
            told.reserve(1)?;
            told.log.push(&Change::Dropped, NO_PLACE);
            return Ok(NO_PLACE);
        }
        match &entry.what {
            What::Tuple { key, time, value } => {
                self.put(alloc, past, key, *time, *value, told, steps)
            }
            What::Mark { key, time } => self.mark(alloc, past, key, *time, told, steps),
            What::Water { .. } | What::Idle | What::End => {
                self.progress(alloc, past, entry, told, steps)
            }
        }
    }

    // Takes in a word on the progress of a source, or does nothing. Where the watermark stays,
    // nothing changes.
    fn progress<L>(
        &mut self,
        alloc: Global,
        past: &Past,
        entry: &Entry,
        told: &mut Told,
        steps: &mut Steps<L>,
    ) -> Result<usize, NoMemory>
        requires settled { IsSettled told.old }
        requires comes { MayCome K.key_of K.fits K.next_position past.now self.old entry.now }
        requires progress { is_progress entry.now.what ≡ true }
        ensures settled { IsSettled told.new }
        ensures taken { TakesIn K.key_of K.fits K.next_position past.now entry.now result
            self.new told.old told.new steps.old steps.new }
        ensures move_work { OnOk result (IsMoveWithin K.bounds_move (sharded past.now) entry.now
            steps.old steps.new) }
        ensures still_work { IsStill (sharded past.now) entry.now → steps.new ≡ steps.old }
    {
        let new = past.water_after(entry);
        if new == past.water() {
            return Ok(NO_PLACE);
        }
        self.advance(alloc, past, entry, new, told, steps)?;
        Ok(NO_PLACE)
    }
}
