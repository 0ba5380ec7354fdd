//! When the next of the tuples in the state of a key are settled.
ghost use Rattle.std.specs.Prelude.{◌≡◌, ◌≤◌, ℕ, false};
ghost use Rattle.std.specs.List.{list_all};
ghost use Rattle.stream_base.specs.declared.limits.TheConstants.{FINAL};
ghost use Rattle.stream_base.specs.Kinds.{is_events};
ghost use Rattle.stream_base.specs.Model.Moments.{IsWater};
ghost use Rattle.key_slicer.specs.States.{IsFirstTime};
ghost use Rattle.key_slicer.specs.Keys.{AreSettledAt, FitsSomeKey, NoneSettledBefore, SomeSettledAcross, SomeSettledAt};

use crate::key_state::{KeyState, all_count_events, first_time};
use agg_laws::AggTree;
use aggregates::Partial;
use key_parts::KeyPart;
use stream_base::{Defs, FINAL, TIME_MAX};

impl<M: Partial, T: AggTree<M>, P: KeyPart<M>> KeyState<M, T, P> {
    // The first watermark at which a tuple in the store is settled. Later than the final one where
    // none can be.
    pub fn next_settled(&self, defs: &Defs, water: u64) -> u64
        requires { FitsSomeKey P.stands defs.now water self.now }
        ensures none_before { NoneSettledBefore P.stands defs.now water self.now result }
        ensures some_at { SomeSettledAt P.stands defs.now water self.now result }
        ensures across { SomeSettledAcross P.stands defs.now water self.now result }
    {
        if all_count_events(defs) {
            return u64::MAX;
        }
        match first_time(&self.store) {
            Some(time) => self.settled_by(defs, water, time),
            None => u64::MAX,
        }
    }

    // By which watermark the tuples at a time are settled, where no tuple in the store is earlier.
    fn settled_by(&self, defs: &Defs, water: u64, time: u64) -> u64
        requires stands { FitsSomeKey P.stands defs.now water self.now }
        requires some { list_all (λ w. is_events w.kind) (defs.now).windows ≡ false }
        requires first { IsFirstTime self.now.store time }
        ensures none_before { NoneSettledBefore P.stands defs.now water self.now result }
        ensures by_then { AreSettledAt P.stands defs.now water time self.now result }
    {
        water_from(self.parts.settled_by(defs, time))
    }
}

// The first watermark that is no less than a number, or the number where there is none.
fn water_from(number: u64) -> u64
    ensures from { number ≤ result }
    ensures first { (water : ℕ) → IsWater water → number ≤ water → result ≤ water }
    ensures is_water { result ≤ FINAL → IsWater result }
{
    if TIME_MAX < number && number <= FINAL {
        FINAL
    } else {
        number
    }
}
