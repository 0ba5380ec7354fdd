ghost use Rattle.std.specs.Prelude.{◌≡◌, ◌<◌, ℕ, List, [], IfOk, OnOk, Some, None, length};
ghost use Rattle.std.specs.List.{HoldsAt};
ghost use Rattle.stream_base.specs.declared.limits.TheConstants.{JOURNAL_MAX};
ghost use Rattle.stream_base.specs.declared.what.What.TheVariants.{Tuple, Mark};
ghost use Rattle.shard_core.specs.Engines.{ArePlaces, HasSameDues, IsSameElsewhere, IsTableOf, MayTake, StandAt, StaysTableOf, TakesInAs, place_of_key};
ghost use Rattle.shard_core.specs.Flat.{sharded};
ghost use Rattle.shard_core.specs.Recorded.{water_behind};
ghost use Rattle.shard_core.specs.Told.{IsSettled};
ghost use Rattle.shard_core.specs.Work.{IsMarkPutWithin, IsPutWithin};

use crate::dues::Dues;
use crate::key_index::KeyIndex;
use crate::past::Past;
use crate::slot::Slot;
use crate::told::Told;
use agg_laws::Steps;
use key_windows::{AnyKey, KeyWindows};
use std::alloc::Global;
use stream_base::{Defs, Kept, KeyText, NoMemory};

// The states of the keys. A key has its place in the order in which keys came; each state stands
// under a watermark of its own, and beside it is up to which watermark nothing is due: up to there
// the state stands as it is, and need not be told of a move.
#[derive(Drop)]
pub struct KeyTable<K> {
    pub index: KeyIndex,
    pub slots: Vec<Slot<K>>,
    pub dues: Dues,
}

impl<K: AnyKey> KeyTable<K> {
    pub fn new(alloc: Global) -> KeyTable<K>
        ensures index { result.index ≡ [] }
        ensures slots { result.slots.items ≡ [] }
        ensures dues { result.dues.items ≡ [] }
    {
        KeyTable {
            index: KeyIndex::new(alloc),
            slots: Vec::new(alloc),
            dues: Dues::new(alloc),
        }
    }

    // The place of a key, with a fresh state where it has none yet.
    fn place_or_add(
        &mut self,
        alloc: Global,
        past: &Past,
        key: &KeyText,
        told: &mut Told,
    ) -> Result<usize, NoMemory>
        ensures told { told.new ≡ told.old }
        ensures place { IfOk result (λ p. place_of_key self.new key.now ≡ Some p) }
        ensures current { StaysTableOf K.key_of K.fits K.next_position past.now
            self.old self.new }
    {
        match self.index.get(key) {
            Some(place) => Ok(place),
            None => self.add(alloc, past, key, told),
        }
    }

    // A fresh state under the watermark of the past for a key that has none, all or nothing. Its
    // place is that of the key in the log of changes.
    fn add(
        &mut self,
        alloc: Global,
        past: &Past,
        key: &KeyText,
        told: &mut Told,
    ) -> Result<usize, NoMemory>
        requires { place_of_key self.old key.now ≡ None }
        ensures told { told.new ≡ told.old }
        ensures place { IfOk result (λ p. place_of_key self.new key.now ≡ Some p) }
        ensures current { StaysTableOf K.key_of K.fits K.next_position past.now
            self.old self.new }
    {
        self.slots.reserve(1)?;
        self.dues.reserve()?;
        told.log.reserve_key()?;
        let defs = past.defs();
        let slot = Slot::fresh(alloc, defs, *key, past.water())?;
        let due = slot.due(defs);
        let place = self.index.add(key)?;
        self.slots.push_reserved(slot);
        self.dues.push_reserved(due);
        told.log.add_key(key);
        Ok(place)
    }

    // Notes that the state at the place of a key stands under the watermark of the past: nothing is
    // due of it up to there, so it stands there as it is.
    fn catch_up(&mut self, past: &Past, place: usize)
        requires current { IsTableOf K.key_of K.fits K.next_position past.now self.old }
        requires place { (key : List ℕ) × (place_of_key self.old key ≡ Some place) }
        ensures current { IsTableOf K.key_of K.fits K.next_position past.now self.new }
        ensures index { self.new.index ≡ self.old.index }
        ensures dues { self.new.dues ≡ self.old.dues }
        ensures others { IsSameElsewhere self.old.slots.items self.new.slots.items place }
        ensures water { HoldsAt (λ slot. slot.water ≡ water_behind past.now)
            self.new.slots.items place }
    {
        self.slots[place].water = past.water();
    }

    // Notes the same of the states at these places.
    pub fn catch_up_all(&mut self, past: &Past, places: &[usize])
        requires current { IsTableOf K.key_of K.fits K.next_position past.now self.old }
        requires places { ArePlaces self.old places.now }
        ensures current { IsTableOf K.key_of K.fits K.next_position past.now self.new }
        ensures table { HasSameDues self.old self.new }
        ensures water { StandAt (water_behind past.now) self.new.slots.items places.now
            (length places.now) }
    {
        for place in places {
            self.catch_up(past, *place);
        }
    }

    // The place of a key whose state stands under the watermark of the past. It takes memory only
    // where the key has no place yet.
    fn prepare(
        &mut self,
        alloc: Global,
        past: &Past,
        key: &KeyText,
        told: &mut Told,
    ) -> Result<usize, NoMemory>
        requires { IsTableOf K.key_of K.fits K.next_position past.now self.old }
        ensures told { told.new ≡ told.old }
        ensures current { IsTableOf K.key_of K.fits K.next_position past.now self.new }
        ensures place { IfOk result (λ p. place_of_key self.new key.now ≡ Some p) }
        ensures water { IfOk result (λ p. HoldsAt (λ slot. slot.water ≡ water_behind past.now)
            self.new.slots.items p) }
    {
        let place = self.place_or_add(alloc, past, key, told)?;
        self.catch_up(past, place);
        Ok(place)
    }

    // Takes in a tuple that isn't late, or nothing. Answers the place of its key.
    pub fn put<L>(
        &mut self,
        alloc: Global,
        past: &Past,
        key: &KeyText,
        time: u64,
        value: i64,
        told: &mut Told,
        steps: &mut Steps<L>,
    ) -> Result<usize, NoMemory>
        requires settled { IsSettled told.old }
        requires accepted { MayTake K.key_of K.fits K.next_position past.now self.old time }
        requires few { length past.now.journal < JOURNAL_MAX }
        ensures settled { IsSettled told.new }
        ensures taken { TakesInAs K.key_of K.fits K.next_position past.now
            (Tuple key.now time value) result self.new told.old told.new steps.old steps.new }
        ensures work { IsPutWithin K.bounds_put (sharded past.now) key.now time value
            steps.old steps.new result }
    {
        let place = self.prepare(alloc, past, key, told)?;
        let defs = past.defs();
        let position = past.len();
        let x = Kept {
            position,
            time,
            value,
        };
        let stays = self.slots[place].put(defs, x, place, told, steps)?;
        if stays {
            return Ok(place);
        }
        self.dues.set(place, self.slots[place].due(defs));
        Ok(place)
    }

    // Takes in a mark that isn't late, or nothing. Answers the place of its key.
    pub fn mark<L>(
        &mut self,
        alloc: Global,
        past: &Past,
        key: &KeyText,
        time: u64,
        told: &mut Told,
        steps: &mut Steps<L>,
    ) -> Result<usize, NoMemory>
        requires settled { IsSettled told.old }
        requires accepted { MayTake K.key_of K.fits K.next_position past.now self.old time }
        ensures settled { IsSettled told.new }
        ensures taken { TakesInAs K.key_of K.fits K.next_position past.now (Mark key.now time)
            result self.new told.old told.new steps.old steps.new }
        ensures work { IsMarkPutWithin K.bounds_mark (sharded past.now) key.now time
            steps.old steps.new result }
    {
        let place = self.prepare(alloc, past, key, told)?;
        let defs = past.defs();
        self.slots[place].mark(defs, time, place, told, steps)?;
        self.dues.set(place, self.slots[place].due(defs));
        Ok(place)
    }
}
