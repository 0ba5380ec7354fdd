//! The part of a window of event counts.
ghost use Rattle.std.specs.Prelude.{◌≡◌, ◌≤◌};
ghost use Rattle.stream_base.specs.declared.kind.Kind.TheVariants.{Events};
ghost use Rattle.stream_base.specs.Kinds.{IsKindWithin};
ghost use Rattle.count_shift.specs.Counting.{IsEvents, count_of};
ghost use Rattle.key_parts.specs.Calls.{window_at};
ghost use Rattle.time_parts.specs.Counted.{CountsAt};

use crate::ends::end_or_never;
use agg_laws::Steps;
use agg_store::AggStore;
use aggregates::Partial;
use count_shift::CountLane;
use key_parts::KeyPart;
use std::alloc::Global;
use std::marker::Model;
use stream_base::{Change, Def, Defs, FINAL, Kept, KeyText, Kind, NoMemory};

/// The part of a window of event counts: the tuples of its key, since the store holds those alone
/// that other windows need, but for whole instances that no tuple shifts any more.
#[derive(Drop)]
pub struct CountPart {
    lane: CountLane,
}

impl Model for CountPart {
    ghost use Rattle.count_shift.specs.Lane.{Laned};

    ghost Value = { Laned };

    ghost view = { λ p. p.lane };
}

// The window at a place, which counts events.
fn window_at(defs: &Defs, window: u32) -> Def
    requires { CountsAt defs.now window }
    ensures stands { result ≡ window_at defs.now window }
    ensures events { IsEvents result.kind }
{
    defs.windows()[window as usize]
}

// How many tuples an instance of it selects.
fn count_of(kind: &Kind) -> u64
    requires { IsEvents kind.now }
    ensures value { result ≡ count_of kind.now }
    ensures within { IsKindWithin (Events result) }
{
    match *kind {
        Kind::Events { count } => count,
        _ => unreachable!(),
    }
}

impl<M: Partial> KeyPart<M> for CountPart {
    ghost use Rattle.std.proofs.Common.{◌≤◌, zero-le};
    ghost use Rattle.stream_base.specs.declared.limits.TheConstants.{FINAL};
    ghost use Rattle.stream_base.specs.Kinds.{is_events};
    ghost use Rattle.time_parts.specs.Counted.{Counts, CountsAt, KeepsFew, counts_on, fill_room, shift_room};
    ghost use Rattle.time_parts.specs.Places.{counts_shown, counts_untimed};

    ghost serves_kind = { is_events };

    ghost is_for = { CountsAt };

    ghost stands = { λ d window m n s p. Counts d window m p };

    ghost is_asked = { λ d window m time p. Unit {0} };

    ghost owed = { λ p. 0 };

    ghost is_ready = { λ d window time water p. 1 ≤ p.spare };

    ghost put_room = { shift_room };

    ghost mark_room = { λ d window time water p. 0 };

    ghost can_move = { λ d window s old new p. Unit {0} };

    ghost move_room = { λ d window s old new p. fill_room d window old new p };

    ghost credit = { λ p. 0 };

    ghost complete_by = { λ d window water. 0 };

    ghost is_ahead = { λ d window water s p. Unit {0} };

    ghost taken_up = { λ d window s old new. 0 };

    ghost missed = { λ d window s water. 0 };

    ghost settles_at = { λ d window water p. FINAL };

    ghost is_lean = { KeepsFew };

    ghost is_for_served = { counts_shown M.serves };

    ghost stands_with_room = { λ d window m n s more part same stood. stood };

    ghost ahead_with_room = { λ d window water s more part same ahead. ahead };

    ghost waits = { λ d window key m n s part new at rises none.
        counts_on d window m new part at.stood rises };

    ghost complete_in_time = { λ d window water. zero-le };

    ghost stands_with_tuple = { λ d window m n before x more after part timed behind step stood.
        absurd (counts_untimed d window stood.counts timed) };

    ghost ahead_with_tuple = { λ d window m n before x more after part timed behind step stood ahead.
        ahead };

    fn can_serve(kind: &Kind) -> bool {
        matches!(kind, Kind::Events { .. })
    }

    fn fresh(alloc: Global, defs: &Defs, window: u32) -> Self {
        CountPart {
            lane: CountLane::new(alloc),
        }
    }

    fn reserve_put(
        &mut self,
        defs: &Defs,
        window: u32,
        time: u64,
        water: u64,
    ) -> Result<u64, NoMemory> {
        let count = count_of(&window_at(defs, window).kind);
        self.lane.reserve(count, time, water)
    }

    fn before<S: AggStore<M>, L>(
        &mut self,
        defs: &Defs,
        window: u32,
        store: &S,
        time: u64,
        water: u64,
        steps: &mut Steps<L>,
    ) {}

    fn put<S: AggStore<M>, L>(
        &mut self,
        defs: &Defs,
        window: u32,
        store: &S,
        key: &KeyText,
        x: Kept,
        water: u64,
        out: &mut Vec<Change>,
        steps: &mut Steps<L>,
    ) {
        let def = window_at(defs, window);
        self.lane.put(window, &def, key, x, water, out, steps);
        let settled_by = water.saturating_sub(defs.lateness());
        self.lane.drop_settled(count_of(&def.kind), settled_by);
    }

    fn reserve_mark(
        &mut self,
        defs: &Defs,
        window: u32,
        time: u64,
        water: u64,
    ) -> Result<u64, NoMemory> {
        <CountPart as KeyPart<M>>::reserve_put(self, defs, window, time, water)?;
        Ok(0)
    }

    fn mark<S: AggStore<M>, L>(
        &mut self,
        defs: &Defs,
        window: u32,
        store: &S,
        key: &KeyText,
        time: u64,
        water: u64,
        out: &mut Vec<Change>,
        steps: &mut Steps<L>,
    ) {}

    fn reserve_water<S: AggStore<M>>(
        &mut self,
        defs: &Defs,
        window: u32,
        store: &S,
        old: u64,
        new: u64,
    ) -> Result<u64, NoMemory> {
        let count = count_of(&window_at(defs, window).kind);
        Ok(self.lane.due(count, old, new))
    }

    fn water<S: AggStore<M>, L>(
        &mut self,
        defs: &Defs,
        window: u32,
        store: &S,
        key: &KeyText,
        old: u64,
        new: u64,
        out: &mut Vec<Change>,
        steps: &mut Steps<L>,
    ) {
        let def = window_at(defs, window);
        self.lane.rows(window, &def, key, old, new, out, steps);
    }

    fn next_due<S: AggStore<M>>(&self, defs: &Defs, window: u32, store: &S, water: u64) -> u64 {
        let count = count_of(&window_at(defs, window).kind);
        end_or_never(self.lane.next_filled(count, water))
    }

    fn first_unsettled(&self, defs: &Defs, window: u32, water: u64) -> u64 {
        FINAL
    }

    // Every tuple is settled at once.
    fn settled_by(&self, defs: &Defs, window: u32, time: u64) -> u64 {
        0
    }

    fn drop_settled(&mut self, defs: &Defs, window: u32, water: u64) {}

    fn drop_needless(&mut self, defs: &Defs, window: u32, water: u64) {
        let count = count_of(&window_at(defs, window).kind);
        let settled_by = water.saturating_sub(defs.lateness());
        self.lane.drop_settled(count, settled_by);
    }
}
