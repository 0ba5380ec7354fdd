ghost use Rattle.std.specs.Prelude.{◌≡◌, ◌≤◌, ◌<◌, ◌+◌, [], IfOk, OnOk, OnErr};
ghost use Rattle.stream_base.specs.Model.Moments.{IsWater};
ghost use Rattle.stream_base.specs.declared.limits.TheConstants.{JOURNAL_MAX};
ghost use Rattle.shard_core.specs.Engines.{Accepts, CanMove, HasLists, HasRefused, IsSameSlot, MayMove};
ghost use Rattle.shard_core.specs.Slots.{IsDueOfSlot, KeepsDueNumbers, MarkStaysWithin, MoveStaysWithin, PutStaysWithin, SlotFitsMoved, SlotFitsWithMark, SlotFitsWithTuple, TakesPromised, TellsMark, TellsMove, TellsPut};
ghost use Rattle.shard_core.specs.Told.{IsSettled, spare_of};

use crate::told::Told;
use agg_laws::Steps;
use key_windows::{AnyKey, KeyWindows};
use std::alloc::Global;
use stream_base::{Defs, Kept, KeyText, NoMemory};

// The state of a key, and the watermark under which it stands.
#[derive(Drop)]
pub struct Slot<K> {
    pub state: K,
    pub water: u64,
}

impl<K: AnyKey> Slot<K> {
    // No tuple and no mark yet.
    pub fn fresh(alloc: Global, defs: &Defs, key: KeyText, water: u64) -> Result<Slot<K>, NoMemory>
        ensures key { IfOk result (λ slot. K.key_of slot.state ≡ key) }
        ensures first { IfOk result (λ slot. K.next_position slot.state ≡ 0) }
        ensures empty { IfOk result (λ slot. K.fits defs.now [] [] water slot.state) }
        ensures water { IfOk result (λ slot. slot.water ≡ water) }
    {
        let state = K::fresh(alloc, defs, key)?;
        Ok(Slot { state, water })
    }

    // Takes in an accepted tuple, or nothing, and tells its changes as those of the key at a place.
    // Answers whether what is due is sure to have stayed.
    pub fn put<L>(
        &mut self,
        defs: &Defs,
        x: Kept,
        place: usize,
        told: &mut Told,
        steps: &mut Steps<L>,
    ) -> Result<bool, NoMemory>
        requires settled { IsSettled told.old }
        requires accepted { Accepts K.fits defs.now self.old x.time }
        requires position { K.next_position (self.old).state ≤ x.position }
        requires few { x.position < JOURNAL_MAX }
        ensures settled { IsSettled told.new }
        ensures refused { OnErr result
            (HasRefused K.key_of K.fits K.next_position defs.now self.old self.new
            told.old told.new steps.old steps.new) }
        ensures key { OnOk result (K.key_of (self.new).state ≡ K.key_of (self.old).state) }
        ensures water { OnOk result ((self.new).water ≡ (self.old).water) }
        ensures next { OnOk result (K.next_position (self.new).state ≡ x.position + 1) }
        ensures fits { SlotFitsWithTuple K.fits defs.now x self.old self.new result }
        ensures changes { TellsPut K.fits defs.now K.key_of x self.old told.old told.new result }
        ensures bound { PutStaysWithin K.fits defs.now K.key_of K.bounds_put x self.old
            steps.old steps.new result }
        ensures due { KeepsDueNumbers K.fits defs.now K.key_of x self.old self.new result }
    {
        let room = self.state.reserve_put(defs, x.time, self.water)?;
        told.reserve(room as usize)?;
        let out = &mut told.waiting;
        let stays = self.state.put(defs, x, self.water, out, steps);
        told.settle(place);
        Ok(stays)
    }

    // Takes in an accepted mark in the same way.
    pub fn mark<L>(
        &mut self,
        defs: &Defs,
        time: u64,
        place: usize,
        told: &mut Told,
        steps: &mut Steps<L>,
    ) -> Result<(), NoMemory>
        requires settled { IsSettled told.old }
        requires accepted { Accepts K.fits defs.now self.old time }
        ensures settled { IsSettled told.new }
        ensures refused { OnErr result
            (HasRefused K.key_of K.fits K.next_position defs.now self.old self.new
            told.old told.new steps.old steps.new) }
        ensures key { OnOk result (K.key_of (self.new).state ≡ K.key_of (self.old).state) }
        ensures water { OnOk result ((self.new).water ≡ (self.old).water) }
        ensures next { OnOk result (K.next_position (self.new).state
            ≡ K.next_position (self.old).state) }
        ensures fits { SlotFitsWithMark K.fits defs.now time self.old self.new result }
        ensures changes { TellsMark K.fits defs.now K.key_of time self.old
            told.old told.new result }
        ensures bound { MarkStaysWithin K.fits defs.now K.key_of K.bounds_mark time self.old
            steps.old steps.new result }
    {
        let room = self.state.reserve_mark(defs, time, self.water)?;
        told.reserve(room as usize)?;
        self.state
            .mark(defs, time, self.water, &mut told.waiting, steps);
        told.settle(place);
        Ok(())
    }

    // Makes room for a move to a watermark, and answers for how many changes there is to be room.
    pub fn reserve_move(&mut self, defs: &Defs, new: u64) -> Result<u64, NoMemory>
        requires { MayMove K.fits defs.now self.old new }
        ensures same { IsSameSlot K.key_of K.fits K.next_position defs.now self.old self.new }
        ensures ready { OnOk result (CanMove (K.is_ready defs.now) new self.new) }
        ensures promised { IfOk result (λ n. K.promised (self.new).state ≡ n) }
    {
        self.state.reserve_water(defs, self.water, new)
    }

    // Moves on to a watermark, and tells what that changes.
    pub fn move_to<L>(
        &mut self,
        defs: &Defs,
        new: u64,
        place: usize,
        told: &mut Told,
        steps: &mut Steps<L>,
    )
        requires settled { IsSettled told.old }
        requires movable { MayMove K.fits defs.now self.old new }
        requires ready { CanMove (K.is_ready defs.now) new self.old }
        requires spare { K.promised (self.old).state ≤ spare_of told.old }
        ensures settled { IsSettled told.new }
        ensures key { K.key_of (self.new).state ≡ K.key_of (self.old).state }
        ensures next { K.next_position (self.new).state ≡ K.next_position (self.old).state }
        ensures water { (self.new).water ≡ new }
        ensures fits { SlotFitsMoved K.fits defs.now new self.old self.new }
        ensures changes { TellsMove K.fits defs.now K.key_of new self.old told.old told.new }
        ensures added { TakesPromised K.promised told.old told.new self.old }
        ensures bound { MoveStaysWithin K.fits defs.now K.key_of K.bounds_move new self.old
            steps.old steps.new }
    {
        let out = &mut told.waiting;
        self.state.water(defs, self.water, new, out, steps);
        told.settle(place);
        self.water = new;
    }

    // Up to which watermark, without it, nothing is due: the state stands there as it is. From there
    // on something is.
    pub fn due(&self, defs: &Defs) -> u64
        requires stands { HasLists K.fits defs.now self.now }
        requires water { IsWater (self.now).water }
        ensures { IsDueOfSlot K.fits defs.now K.key_of self.now result }
    {
        self.state.next_due(defs, self.water)
    }
}
