ghost use Rattle.std.specs.Prelude.{◌≡◌, ◌≤◌, ◌<◌, ◌+◌, ◌++◌, ◌∷◌, [], true, IfOk, OnOk, length};
ghost use Rattle.std.specs.List.{HoldsAt};
ghost use Rattle.stream_base.specs.Model.Moments.{IsWater};
ghost use Rattle.stream_base.specs.Model.What.{is_progress};
ghost use Rattle.stream_base.specs.Model.Watermark.{water_of};
ghost use Rattle.shard_core.specs.Engines.{AreMovable, AreSameSlots, CanMove, HasSameDues, HasSamePlaces, IsSameElsewhere, IsSameOutside, IsTableOf, MayMoveAt, TakesIn, due_places};
ghost use Rattle.shard_core.specs.Flat.{sharded};
ghost use Rattle.shard_core.specs.Moved.{AreMovedAt, AreReadyToMove, IsMovedAt, IsSameAt, MoveAtStaysWithin, MovesStayWithin, TellMovesAt, TellsMoveAt, promised_at};
ghost use Rattle.shard_core.specs.Slots.{TakesPromised};
ghost use Rattle.shard_core.specs.Told.{IsSettled, spare_of};
ghost use Rattle.shard_core.specs.Work.{IsMoveWithin};

use crate::keys::KeyTable;
use crate::past::Past;
use crate::slot::Slot;
use crate::told::Told;
use agg_laws::Steps;
use key_windows::{AnyKey, KeyWindows};
use std::alloc::Global;
use stream_base::{Defs, Entry, NoMemory};

impl<K: AnyKey> KeyTable<K> {
    // Moves the states that are due on to a watermark, the one behind an entry that says a word on
    // the progress of its source; or does nothing. Of all other keys nothing is due then, and they
    // take no step.
    pub fn advance<L>(
        &mut self,
        alloc: Global,
        past: &Past,
        entry: &Entry,
        new: u64,
        told: &mut Told,
        steps: &mut Steps<L>,
    ) -> Result<(), NoMemory>
        requires settled { IsSettled told.old }
        requires current { IsTableOf K.key_of K.fits K.next_position past.now self.old }
        requires progress { is_progress entry.now.what ≡ true }
        requires new { new ≡ water_of past.now.sources (past.now.journal ++ entry.now ∷ []) }
        requires water { IsWater new }
        ensures settled { IsSettled told.new }
        ensures taken { TakesIn K.key_of K.fits K.next_position past.now entry.now result
            self.new told.old told.new steps.old steps.new }
        ensures work { OnOk result (IsMoveWithin K.bounds_move (sharded past.now) entry.now
            steps.old steps.new) }
    {
        let defs = past.defs();
        let due = self.due_places(alloc, new)?;
        let places = due.as_slice();
        self.catch_up_all(past, places);
        let room = self.reserve_moves(defs, places, new)?;
        told.reserve(room as usize)?;
        self.move_all(defs, places, new, told, steps);
        self.dues.look_again(new);
        Ok(())
    }

    // The places of the states that are due at a watermark, by the bytes of their keys.
    fn due_places(&self, alloc: Global, water: u64) -> Result<Vec<usize>, NoMemory>
        requires { length self.now.dues.items ≡ length self.now.index }
        ensures { IfOk result (λ places. places.items ≡ due_places self.now water) }
    {
        self.index.due(alloc, &self.dues, water)
    }

    // Makes room for the move of the state at a place, and answers for how many changes.
    fn reserve_at(&mut self, defs: &Defs, place: usize, new: u64) -> Result<u64, NoMemory>
        requires { MayMoveAt K.fits defs.now self.old.slots.items place new }
        ensures table { HasSameDues self.old self.new }
        ensures len { length self.new.slots.items ≡ length self.old.slots.items }
        ensures others { IsSameElsewhere self.old.slots.items self.new.slots.items place }
        ensures same { IsSameAt K.key_of K.fits K.next_position defs.now self.old self.new place }
        ensures ready { OnOk result (HoldsAt (CanMove
            (K.is_ready defs.now) new) self.new.slots.items place) }
        ensures promised { IfOk result (λ n. HoldsAt (λ slot. K.promised slot.state
            ≡ n) self.new.slots.items place) }
    {
        self.slots[place].reserve_move(defs, new)
    }

    // Moves the state at a place on to a watermark, for which room was made.
    fn move_at<L>(
        &mut self,
        defs: &Defs,
        place: usize,
        new: u64,
        told: &mut Told,
        steps: &mut Steps<L>,
    )
        requires settled { IsSettled told.old }
        requires movable { MayMoveAt K.fits defs.now self.old.slots.items place new }
        requires due { place < length self.old.dues.items }
        requires ready { HoldsAt (CanMove (K.is_ready defs.now) new) self.old.slots.items place }
        requires spare { HoldsAt (λ slot. K.promised slot.state ≤ spare_of told.old)
            self.old.slots.items place }
        ensures settled { IsSettled told.new }
        ensures table { HasSamePlaces self.old self.new }
        ensures others { IsSameElsewhere self.old.slots.items self.new.slots.items place }
        ensures other_dues { IsSameElsewhere self.old.dues.items self.new.dues.items place }
        ensures moved { IsMovedAt K.key_of K.fits K.next_position defs.now new
            self.old self.new place }
        ensures changes { TellsMoveAt K.key_of K.fits defs.now new self.old place
            told.old told.new }
        ensures added { HoldsAt (TakesPromised K.promised told.old told.new)
            self.old.slots.items place }
        ensures bound { MoveAtStaysWithin K.key_of K.fits defs.now K.bounds_move new self.old place
            steps.old steps.new }
    {
        self.slots[place].move_to(defs, new, place, told, steps);
        self.dues.set(place, self.slots[place].due(defs));
    }

    // Makes room for the moves of the states at these places, and answers for how many changes.
    fn reserve_moves(&mut self, defs: &Defs, places: &[usize], new: u64) -> Result<u64, NoMemory>
        requires { AreMovable K.fits defs.now self.old.slots.items places.now new }
        ensures table { HasSameDues self.old self.new }
        ensures same { AreSameSlots K.key_of K.fits K.next_position defs.now
            self.old.slots.items self.new.slots.items }
        ensures ready { OnOk result (AreReadyToMove (K.is_ready defs.now) new self.new places.now) }
        ensures room { (x : Slot K)
            → IfOk result (λ n. promised_at K.promised self.new x places.now ≡ n) }
    {
        let mut room: u64 = 0;
        for place in places {
            let more = self.reserve_at(defs, *place, new)?;
            room = sum_of(room, more)?;
        }
        Ok(room)
    }

    // Moves the states at these places on to a watermark, for which room was made.
    fn move_all<L>(
        &mut self,
        defs: &Defs,
        places: &[usize],
        new: u64,
        told: &mut Told,
        steps: &mut Steps<L>,
    )
        requires settled { IsSettled told.old }
        requires movable { AreMovable K.fits defs.now self.old.slots.items places.now new }
        requires aligned { length self.old.dues.items ≡ length self.old.slots.items }
        requires ready { AreReadyToMove (K.is_ready defs.now) new self.old places.now }
        requires spare { (x : Slot K)
            → promised_at K.promised self.old x places.now ≤ spare_of told.old }
        ensures settled { IsSettled told.new }
        ensures table { HasSamePlaces self.old self.new }
        ensures others { IsSameOutside self.old.slots.items self.new.slots.items places.now }
        ensures other_dues { IsSameOutside self.old.dues.items self.new.dues.items places.now }
        ensures moved { AreMovedAt K.key_of K.fits K.next_position defs.now new
            self.old self.new places.now }
        ensures nowhere { places.now ≡ [] → told.new.log.items ≡ told.old.log.items }
        ensures changes { TellMovesAt K.key_of K.fits defs.now new self.old places.now
            told.old told.new }
        ensures idle { places.now ≡ [] → steps.new ≡ steps.old }
        ensures bound { MovesStayWithin K.key_of K.fits defs.now K.bounds_move new self.old
            places.now steps.old steps.new }
    {
        for place in places {
            self.move_at(defs, *place, new, told, steps);
        }
    }
}

// The sum of two numbers of changes. No memory holds more than 2^64 of them.
fn sum_of(a: u64, b: u64) -> Result<u64, NoMemory>
    ensures { IfOk result (λ sum. sum ≡ a + b) }
{
    match a.checked_add(b) {
        Some(sum) => Ok(sum),
        None => Err(NoMemory),
    }
}
