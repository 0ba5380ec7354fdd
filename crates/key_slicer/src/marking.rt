//! The parts of a key's windows where a mark comes.
ghost use Rattle.std.specs.Prelude.{◌≤◌, ◌*◌};
ghost use Rattle.stream_base.specs.Vectors.{room};
ghost use Rattle.agg_store.specs.Stored.{Stored};
ghost use Rattle.key_parts.specs.Calls.{MayCome};
ghost use Rattle.key_parts.specs.Work.{AddsAtMost, added, fold_work};
ghost use Rattle.key_slicer.specs.Parts.{AllStandAt};
ghost use Rattle.key_slicer.specs.Promises.{AllAddByMark, AllAheadOfMark, AllPrepareEntry, AllReady, AllSpend, AllStandWithMark, MarkComesToAll, entry_rooms};

use crate::parts::{Parts, sum_of, window_count};
use agg_laws::{AggTree, Steps};
use aggregates::Partial;
use key_parts::KeyPart;
use slice_store::SliceStore;
use stream_base::{Change, Defs, KeyText, NoMemory};

impl<M: Partial, P: KeyPart<M>> Parts<M, P> {
    // Makes room for a mark at a time in each part, and answers for how many changes.
    pub fn reserve_mark(&mut self, defs: &Defs, time: u64, water: u64) -> Result<u64, NoMemory>
        requires { (s : Stored)
            × MayCome (AllStandAt P.stands defs.now) time water s self.old.list.items }
        ensures { AllPrepareEntry P.stands P.is_ahead P.credit P.is_ready P.mark_room defs.now
            time water self.old self.new result }
    {
        let mut room: u64 = 0;
        for window in 0..window_count(defs) {
            let more = self.list[window as usize].reserve_mark(defs, window, time, water)?;
            room = sum_of(room, more)?;
        }
        Ok(room)
    }

    // Takes in a mark that the store has taken in, and appends what it changes, window by window.
    pub fn mark<T: AggTree<M>, L>(
        &mut self,
        defs: &Defs,
        store: &SliceStore<M, T>,
        key: &KeyText,
        time: u64,
        water: u64,
        out: &mut Vec<Change>,
        steps: &mut Steps<L>,
    )
        requires takes { MarkComesToAll P.stands defs.now water time store.now self.old }
        requires ready { AllReady P.is_ready defs.now time water self.old }
        requires spare { entry_rooms P.mark_room defs.now time water self.old ≤ room out.old }
        ensures stands { AllStandWithMark P.stands defs.now water time store.now self.old self.new }
        ensures changes { AllAddByMark P.stands defs.now water time store.now self.old key.now
            out.old out.new }
        ensures adds { AddsAtMost (entry_rooms P.mark_room defs.now time water self.old)
            out.old out.new }
        ensures cost { AllSpend P.credit (fold_work store.now.reach * added out.old out.new)
            self.old self.new steps.old steps.new }
        ensures ahead { AllAheadOfMark P.stands defs.now P.is_ahead water time store.now
            self.old self.new }
    {
        for window in 0..window_count(defs) {
            self.list[window as usize].mark(defs, window, store, key, time, water, out, steps);
        }
    }
}
