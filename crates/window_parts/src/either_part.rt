//! One of two parts for a window of a key, chosen by the kind of the window.
ghost use Rattle.std.specs.Prelude.{◌||◌};
ghost use Rattle.window_parts.specs.Either.{ahead_either, by_kind, by_part, ends_in_time, for_served, missed_with_room, stands_either, untold, untold_ahead, waits_on, with_room};

use agg_laws::Steps;
use agg_store::AggStore;
use aggregates::Partial;
use key_parts::KeyPart;
use std::alloc::Global;
use stream_base::{Change, Defs, Kept, KeyText, Kind, NoMemory};

/// One of two parts for a window of a key: the first where it serves the kind of the window, and else
/// the second, which may be such a choice itself.
#[derive(Drop)]
pub enum EitherPart<A, B> {
    First(A),
    Second(B),
}

impl<M: Partial, A: KeyPart<M>, B: KeyPart<M>> KeyPart<M> for EitherPart<A, B> {
    ghost serves_kind = { λ kind. A.serves_kind kind || B.serves_kind kind };

    ghost is_for = { by_kind A.serves_kind A.is_for B.is_for };

    ghost stands = { stands_either A.serves_kind A.stands B.stands };

    ghost is_asked = { λ d window m time. by_part (A.is_asked d window m time)
        (B.is_asked d window m time) };

    ghost owed = { by_part A.owed B.owed };

    ghost is_ready = { λ d window time water. by_part (A.is_ready d window time water)
        (B.is_ready d window time water) };

    ghost put_room = { λ d window time water. by_part (A.put_room d window time water)
        (B.put_room d window time water) };

    ghost mark_room = { λ d window time water. by_part (A.mark_room d window time water)
        (B.mark_room d window time water) };

    ghost can_move = { λ d window s old new. by_part (A.can_move d window s old new)
        (B.can_move d window s old new) };

    ghost move_room = { λ d window s old new. by_part (A.move_room d window s old new)
        (B.move_room d window s old new) };

    ghost credit = { by_part A.credit B.credit };

    ghost complete_by = { by_kind A.serves_kind A.complete_by B.complete_by };

    ghost is_ahead = { ahead_either A.is_ahead B.is_ahead };

    ghost taken_up = { by_kind A.serves_kind A.taken_up B.taken_up };

    ghost missed = { by_kind A.serves_kind A.missed B.missed };

    ghost settles_at = { λ d window water. by_part (A.settles_at d window water)
        (B.settles_at d window water) };

    ghost is_lean = { λ d window water. by_part (A.is_lean d window water)
        (B.is_lean d window water) };

    ghost is_for_served = { for_served A.serves_kind B.serves_kind M.serves A.is_for B.is_for
        A.is_for_served B.is_for_served };

    ghost stands_with_room = { with_room A.serves_kind A.stands B.stands A.stands_with_room
        B.stands_with_room };

    ghost ahead_with_room = { missed_with_room A.is_ahead B.is_ahead A.ahead_with_room
        B.ahead_with_room };

    ghost waits = { waits_on A.serves_kind A.stands B.stands A.waits B.waits };

    ghost complete_in_time = { ends_in_time A.serves_kind A.complete_by B.complete_by
        A.complete_in_time B.complete_in_time };

    ghost stands_with_tuple = { untold A.serves_kind A.stands B.stands A.stands_with_tuple
        B.stands_with_tuple };

    ghost ahead_with_tuple = { untold_ahead A.serves_kind A.stands B.stands A.is_ahead B.is_ahead
        A.ahead_with_tuple B.ahead_with_tuple };

    fn can_serve(kind: &Kind) -> bool {
        A::can_serve(kind) || B::can_serve(kind)
    }

    fn fresh(alloc: Global, defs: &Defs, window: u32) -> Self {
        if A::can_serve(&defs.windows()[window as usize].kind) {
            EitherPart::First(A::fresh(alloc, defs, window))
        } else {
            EitherPart::Second(B::fresh(alloc, defs, window))
        }
    }

    fn reserve_put(
        &mut self,
        defs: &Defs,
        window: u32,
        time: u64,
        water: u64,
    ) -> Result<u64, NoMemory> {
        match self {
            EitherPart::First(part) => part.reserve_put(defs, window, time, water),
            EitherPart::Second(part) => part.reserve_put(defs, window, time, water),
        }
    }

    fn before<S: AggStore<M>, L>(
        &mut self,
        defs: &Defs,
        window: u32,
        store: &S,
        time: u64,
        water: u64,
        steps: &mut Steps<L>,
    ) {
        match self {
            EitherPart::First(part) => part.before(defs, window, store, time, water, steps),
            EitherPart::Second(part) => part.before(defs, window, store, time, water, steps),
        }
    }

    fn put<S: AggStore<M>, L>(
        &mut self,
        defs: &Defs,
        window: u32,
        store: &S,
        key: &KeyText,
        x: Kept,
        water: u64,
        out: &mut Vec<Change>,
        steps: &mut Steps<L>,
    ) {
        match self {
            EitherPart::First(part) => part.put(defs, window, store, key, x, water, out, steps),
            EitherPart::Second(part) => part.put(defs, window, store, key, x, water, out, steps),
        }
    }

    fn reserve_mark(
        &mut self,
        defs: &Defs,
        window: u32,
        time: u64,
        water: u64,
    ) -> Result<u64, NoMemory> {
        match self {
            EitherPart::First(part) => part.reserve_mark(defs, window, time, water),
            EitherPart::Second(part) => part.reserve_mark(defs, window, time, water),
        }
    }

    fn mark<S: AggStore<M>, L>(
        &mut self,
        defs: &Defs,
        window: u32,
        store: &S,
        key: &KeyText,
        time: u64,
        water: u64,
        out: &mut Vec<Change>,
        steps: &mut Steps<L>,
    ) {
        match self {
            EitherPart::First(part) => part.mark(defs, window, store, key, time, water, out, steps),
            EitherPart::Second(part) => part.mark(
                defs, window, store, key, time, water, out, steps,
            ),
        }
    }

    fn reserve_water<S: AggStore<M>>(
        &mut self,
        defs: &Defs,
        window: u32,
        store: &S,
        old: u64,
        new: u64,
    ) -> Result<u64, NoMemory> {
        match self {
            EitherPart::First(part) => part.reserve_water(defs, window, store, old, new),
            EitherPart::Second(part) => part.reserve_water(defs, window, store, old, new),
        }
    }

    fn water<S: AggStore<M>, L>(
        &mut self,
        defs: &Defs,
        window: u32,
        store: &S,
        key: &KeyText,
        old: u64,
        new: u64,
        out: &mut Vec<Change>,
        steps: &mut Steps<L>,
    ) {
        match self {
            EitherPart::First(part) => part.water(defs, window, store, key, old, new, out, steps),
            EitherPart::Second(part) => part.water(defs, window, store, key, old, new, out, steps),
        }
    }

    fn next_due<S: AggStore<M>>(&self, defs: &Defs, window: u32, store: &S, water: u64) -> u64 {
        match self {
            EitherPart::First(part) => part.next_due(defs, window, store, water),
            EitherPart::Second(part) => part.next_due(defs, window, store, water),
        }
    }

    fn first_unsettled(&self, defs: &Defs, window: u32, water: u64) -> u64 {
        match self {
            EitherPart::First(part) => part.first_unsettled(defs, window, water),
            EitherPart::Second(part) => part.first_unsettled(defs, window, water),
        }
    }

    fn settled_by(&self, defs: &Defs, window: u32, time: u64) -> u64 {
        match self {
            EitherPart::First(part) => part.settled_by(defs, window, time),
            EitherPart::Second(part) => part.settled_by(defs, window, time),
        }
    }

    fn drop_settled(&mut self, defs: &Defs, window: u32, water: u64) {
        match self {
            EitherPart::First(part) => part.drop_settled(defs, window, water),
            EitherPart::Second(part) => part.drop_settled(defs, window, water),
        }
    }

    fn drop_needless(&mut self, defs: &Defs, window: u32, water: u64) {
        match self {
            EitherPart::First(part) => part.drop_needless(defs, window, water),
            EitherPart::Second(part) => part.drop_needless(defs, window, water),
        }
    }
}
