//! The parts of a key's windows where the watermark moves.
ghost use Rattle.std.specs.Prelude.{◌≤◌};
ghost use Rattle.stream_base.specs.Vectors.{room};
ghost use Rattle.key_parts.specs.Calls.{MayMove, StandsForSome};
ghost use Rattle.key_parts.specs.Work.{AddsAtMost};
ghost use Rattle.key_slicer.specs.Parts.{AllStandAt};
ghost use Rattle.key_slicer.specs.Promises.{AllAddByMove, AllAheadMoved, AllCanMove, AllPayAhead, AllPayBehind, AllPrepareMove, AllStandMoved, AllStepAtMost, NoneCompleteInAll, SomeCompleteInAll, move_rooms};

use crate::parts::{Parts, sum_of, window_count};
use agg_laws::{AggTree, Steps};
use aggregates::Partial;
use key_parts::KeyPart;
use slice_store::SliceStore;
use stream_base::{Change, Defs, KeyText, NoMemory};

impl<M: Partial, P: KeyPart<M>> Parts<M, P> {
    // Makes room for a move of the watermark in each part, and answers for how many changes.
    pub fn reserve_water<T: AggTree<M>>(
        &mut self,
        defs: &Defs,
        store: &SliceStore<M, T>,
        old: u64,
        new: u64,
    ) -> Result<u64, NoMemory>
        requires { MayMove (AllStandAt P.stands defs.now) old new store.now self.old.list.items }
        ensures { AllPrepareMove P.stands P.is_ahead P.credit P.can_move P.move_room defs.now
            store.now old new self.old self.new result }
    {
        let mut room: u64 = 0;
        for window in 0..window_count(defs) {
            let more = self.list[window as usize].reserve_water(defs, window, store, old, new)?;
            room = sum_of(room, more)?;
        }
        Ok(room)
    }

    // Takes in a move of the watermark, and appends what it completes, window by window.
    pub fn water<T: AggTree<M>, L>(
        &mut self,
        defs: &Defs,
        store: &SliceStore<M, T>,
        key: &KeyText,
        old: u64,
        new: u64,
        out: &mut Vec<Change>,
        steps: &mut Steps<L>,
    )
        requires moves { MayMove (AllStandAt P.stands defs.now) old new store.now
            self.old.list.items }
        requires ready { AllCanMove P.can_move defs.now store.now old new self.old }
        requires spare { move_rooms P.move_room defs.now store.now old new self.old ≤ room out.old }
        ensures stands { AllStandMoved P.stands defs.now old new store.now self.old self.new }
        ensures changes { AllAddByMove P.stands defs.now old new store.now self.old key.now
            out.old out.new }
        ensures adds { AddsAtMost (move_rooms P.move_room defs.now store.now old new self.old)
            out.old out.new }
        ensures ahead { AllAheadMoved P.stands defs.now P.is_ahead old new store.now
            self.old self.new }
        ensures work_ahead { AllPayAhead P.stands defs.now P.is_ahead P.credit P.taken_up old new
            store.now key.now self.old self.new steps.old steps.new }
        ensures work { AllPayBehind P.stands defs.now P.credit P.taken_up P.missed old new store.now
            key.now self.old self.new steps.old steps.new }
        ensures bound { AllStepAtMost P.stands defs.now old new store.now self.old key.now
            steps.old steps.new }
    {
        for window in 0..window_count(defs) {
            self.list[window as usize].water(defs, window, store, key, old, new, out, steps);
        }
    }

    // The first watermark at which something becomes complete in a window. Later than the final one
    // where nothing is left to become so.
    pub fn next_due<T: AggTree<M>>(&self, defs: &Defs, store: &SliceStore<M, T>, water: u64) -> u64
        requires { StandsForSome (AllStandAt P.stands defs.now) water store.now
            self.now.list.items }
        ensures none_before { NoneCompleteInAll P.stands defs.now water store.now self.now result }
        ensures some_at { SomeCompleteInAll P.stands defs.now water store.now self.now result }
    {
        let mut due = u64::MAX;
        for window in 0..window_count(defs) {
            due = due.min(self.list[window as usize].next_due(defs, window, store, water));
        }
        due
    }
}
