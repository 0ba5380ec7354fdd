//! The parts of a key's windows where a tuple comes.
ghost use Rattle.std.specs.Prelude.{◌≡◌, ◌≤◌, ◌*◌};
ghost use Rattle.stream_base.specs.Vectors.{room};
ghost use Rattle.agg_store.specs.Stored.{Stored};
ghost use Rattle.key_windows.specs.Calls.{IsAccepted};
ghost use Rattle.key_parts.specs.Calls.{MayCome, MissesNoMore, StandsAsBefore, StandsForSome};
ghost use Rattle.key_parts.specs.Work.{AddsAtMost, added, fold_work};
ghost use Rattle.key_slicer.specs.Parts.{AllAhead, AllStandAt, AreStanding, all_credit};
ghost use Rattle.key_slicer.specs.Promises.{AllAddByTuple, AllAheadOfTuple, AllAsked, AllPrepareEntry, AllReady, AllSpend, AllStandWithTuple, AllStepForTuple, TupleComesToAll, all_owed, entry_rooms};

use crate::parts::{Parts, sum_of, window_count};
use agg_laws::{AggTree, Steps};
use aggregates::Partial;
use key_parts::KeyPart;
use slice_store::SliceStore;
use stream_base::{Change, Defs, Kept, KeyText, NoMemory};

impl<M: Partial, P: KeyPart<M>> Parts<M, P> {
    // Makes room for a tuple at a time in each part, and answers for how many changes.
    pub fn reserve_put(&mut self, defs: &Defs, time: u64, water: u64) -> Result<u64, NoMemory>
        requires { (s : Stored)
            × MayCome (AllStandAt P.stands defs.now) time water s self.old.list.items }
        ensures { AllPrepareEntry P.stands P.is_ahead P.credit P.is_ready P.put_room defs.now
            time water self.old self.new result }
    {
        let mut room: u64 = 0;
        for window in 0..window_count(defs) {
            let more = self.list[window as usize].reserve_put(defs, window, time, water)?;
            room = sum_of(room, more)?;
        }
        Ok(room)
    }

    // Keeps in each part what stands of the instances that a tuple at a time changes.
    pub fn before<T: AggTree<M>, L>(
        &mut self,
        defs: &Defs,
        store: &SliceStore<M, T>,
        time: u64,
        water: u64,
        steps: &mut Steps<L>,
    )
        requires stands { StandsForSome (AllStandAt P.stands defs.now) water store.now
            self.old.list.items }
        requires accepted { IsAccepted defs.now time water }
        requires ready { AllReady P.is_ready defs.now time water self.old }
        ensures stays { StandsAsBefore (AreStanding P.stands defs.now)
            self.old.list.items self.new.list.items }
        ensures asked { AllAsked P.stands defs.now P.is_asked time water store.now
            self.old self.new }
        ensures ready { AllReady P.is_ready defs.now time water self.new }
        ensures room { entry_rooms P.put_room defs.now time water self.new
            ≡ entry_rooms P.put_room defs.now time water self.old }
        ensures cost { AllSpend P.credit (fold_work store.now.reach * all_owed P.owed self.new)
            self.old self.new steps.old steps.new }
        ensures ahead { MissesNoMore (AllAhead P.is_ahead defs.now)
            self.old.list.items self.new.list.items }
    {
        for window in 0..window_count(defs) {
            self.list[window as usize].before(defs, window, store, time, water, steps);
        }
    }

    // Takes in a tuple that the store has taken in, and appends what it changes, window by window.
    pub fn put<T: AggTree<M>, L>(
        &mut self,
        defs: &Defs,
        store: &SliceStore<M, T>,
        key: &KeyText,
        x: Kept,
        water: u64,
        out: &mut Vec<Change>,
        steps: &mut Steps<L>,
    )
        requires takes { TupleComesToAll P.stands defs.now P.is_asked water x store.now self.old }
        requires ready { AllReady P.is_ready defs.now x.time water self.old }
        requires spare { entry_rooms P.put_room defs.now x.time water self.old ≤ room out.old }
        ensures stands { AllStandWithTuple P.stands defs.now P.is_asked water x store.now
            self.old self.new }
        ensures changes { AllAddByTuple P.stands defs.now P.is_asked water x store.now self.old
            key.now out.old out.new }
        ensures adds { AddsAtMost (entry_rooms P.put_room defs.now x.time water self.old)
            out.old out.new }
        ensures owed { all_owed P.owed self.old ≤ added out.old out.new }
        ensures work { AllStepForTuple P.stands defs.now P.is_asked water x store.now self.old
            key.now steps.old steps.new }
        ensures credit { all_credit P.credit self.new.list.items
            ≤ all_credit P.credit self.old.list.items }
        ensures ahead { AllAheadOfTuple P.stands defs.now P.is_asked P.is_ahead water x store.now
            self.old self.new }
    {
        for window in 0..window_count(defs) {
            self.list[window as usize].put(defs, window, store, key, x, water, out, steps);
        }
    }
}
