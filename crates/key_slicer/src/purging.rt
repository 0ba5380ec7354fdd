//! The parts of a key's windows where settled slices leave.
ghost use Rattle.std.specs.Prelude.{◌≡◌, ◌≤◌, ◌<◌, ℕ, length};
ghost use Rattle.stream_base.specs.Model.Changes.{Moment};
ghost use Rattle.agg_store.specs.Stored.{Stored};
ghost use Rattle.key_parts.specs.Calls.{MayLeadTo, MayTell, MissesNoMore, StandsOnUnder};
ghost use Rattle.key_slicer.specs.Parts.{AllAhead, AllStandAt, AreStanding, EachPart, all_credit};
ghost use Rattle.key_slicer.specs.Promises.{AllAheadAfterLoss, AllSettle, AllSettleUnderEach, AllStandAfterLoss, IsLeastSettled};

use crate::parts::{Parts, window_count};
use aggregates::Partial;
use key_parts::KeyPart;
use stream_base::Defs;

impl<M: Partial, P: KeyPart<M>> Parts<M, P> {
    // Up to which time all tuples are settled under a watermark, its own or a later one: the least
    // of the watermark minus the lateness and of the times of the windows.
    pub fn first_unsettled(&self, defs: &Defs, water: u64) -> u64
        requires { MayLeadTo (AllStandAt P.stands defs.now) water self.now.list.items }
        ensures least { IsLeastSettled P.settles_at defs.now water self.now result }
        ensures settles { AllSettle P.stands defs.now P.settles_at water self.now }
    {
        let mut time = water.saturating_sub(defs.lateness());
        for window in 0..window_count(defs) {
            time = time.min(self.list[window as usize].first_unsettled(defs, window, water));
        }
        time
    }

    // By which watermark tuples at a time lie before the least of the watermark minus the lateness
    // and of the times of the windows, and by none before.
    pub fn settled_by(&self, defs: &Defs, time: u64) -> u64
        requires { MayTell (AllStandAt P.stands defs.now) time self.now.list.items }
        ensures later { time < result }
        ensures before { (water least : ℕ) → water < result → IsLeastSettled P.settles_at defs.now
            water self.now least → least ≤ time }
        ensures by_then { (water least : ℕ) → result ≤ water → IsLeastSettled P.settles_at defs.now
            water self.now least → time < least }
        ensures settles { AllSettleUnderEach P.stands defs.now P.settles_at self.now }
    {
        let mut due = time + 1 + defs.lateness();
        for window in 0..window_count(defs) {
            due = due.max(self.list[window as usize].settled_by(defs, window, time));
        }
        due
    }

    // Forgets in each part what has ended by the watermark minus the lateness, where settled slices
    // have left the store.
    pub fn drop_settled(&mut self, defs: &Defs, water: u64)
        requires as_many { length self.old.list.items ≡ length (defs.now).windows }
        ensures stands { AllStandAfterLoss P.stands defs.now P.settles_at water self.old self.new }
        ensures credit { all_credit P.credit self.new.list.items
            ≤ all_credit P.credit self.old.list.items }
        ensures ahead { AllAheadAfterLoss P.stands defs.now P.is_ahead water self.old self.new }
    {
        for window in 0..window_count(defs) {
            self.list[window as usize].drop_settled(defs, window, water);
        }
    }

    // Lets leave in each part what nothing can need any more at a watermark, where there is much of it.
    pub fn drop_needless(&mut self, defs: &Defs, water: u64)
        requires { (m : Moment) × (n : ℕ) × (s : Stored)
            × AreStanding P.stands defs.now m n s self.old.list.items }
        ensures lean { EachPart (λ i part. P.is_lean defs.now i water part) self.new.list.items }
        ensures stands { StandsOnUnder (AreStanding P.stands defs.now) water
            self.old.list.items self.new.list.items }
        ensures credit { all_credit P.credit self.new.list.items
            ≤ all_credit P.credit self.old.list.items }
        ensures ahead { MissesNoMore (AllAhead P.is_ahead defs.now)
            self.old.list.items self.new.list.items }
    {
        for window in 0..window_count(defs) {
            self.list[window as usize].drop_needless(defs, window, water);
        }
    }
}
