//! The part of a tumbling or sliding window.
ghost use Rattle.std.specs.Prelude.{◌≤◌};

use crate::ends::end_or_never;
use agg_laws::{AggQueue, Steps};
use agg_store::AggStore;
use aggregates::Partial;
use key_parts::KeyPart;
use std::alloc::Global;
use std::marker::Model;
use stream_base::{Change, Defs, Former, Kept, KeyText, Kind, NoMemory};
use time_lanes::Lane;

/// The part of a tumbling or sliding window: its lane, and what stood of the complete intervals
/// that hold a late tuple.
#[derive(Drop)]
pub struct LanePart<M: Partial, Q: AggQueue<M>> {
    lane: Lane<M, Q>,
    formers: Vec<Option<Former>>,
}

impl<M: Partial, Q: AggQueue<M>> Model for LanePart<M, Q> {
    ghost use Rattle.std.specs.Prelude.{vec_capacity};
    ghost use Rattle.time_parts.specs.Lanes.{Timed};

    ghost Value = { Timed M };

    ghost view = { λ p. record {
      lane = p.lane;
      formers = p.formers.items;
      room = vec_capacity p.formers;
    } };
}

impl<M: Partial, Q: AggQueue<M> + Drop> KeyPart<M> for LanePart<M, Q> {
    ghost use Rattle.std.specs.Prelude.{length};
    ghost use Rattle.time_parts.specs.Lanes.{CanMove, HasTold, IsTimedShown, MissesNone, Serves, complete_in_time, complete_up_to, late_room, misses_with_room, open_from, rows_due, serves_on, serves_with_room, slices_completed, slices_of_last};
    ghost use Rattle.time_parts.specs.Places.{timed_shown};
    ghost use Rattle.stream_base.specs.Kinds.{is_timed};
    ghost use Rattle.time_parts.specs.Untold.{misses_with_tuple, serves_with_tuple};

    ghost serves_kind = { is_timed };

    ghost is_for = { IsTimedShown M.serves };

    ghost stands = { λ d window m n s p. Serves M.serves M.of_values d window m s p.lane };

    ghost is_asked = { HasTold };

    ghost owed = { λ p. length p.formers };

    ghost is_ready = { λ d window time water p. late_room d window time water ≤ p.room };

    ghost put_room = { λ d window time water p. late_room d window time water };

    ghost mark_room = { λ d window time water p. 0 };

    ghost can_move = { λ d window s old new p. CanMove d window s old new p.lane };

    ghost move_room = { λ d window s old new p. rows_due d window s old new };

    ghost credit = { λ p. p.lane.credit };

    ghost complete_by = { complete_up_to };

    ghost is_ahead = { λ d window water s p. MissesNone d window water s p.lane };

    ghost taken_up = { slices_completed };

    ghost missed = { slices_of_last };

    ghost settles_at = { λ d window water p. open_from d window water };

    ghost is_lean = { λ d window water p. Unit {0} };

    ghost is_for_served = { timed_shown M.serves };

    ghost stands_with_room = { λ d window m n s more part same stood.
        serves_with_room d window m s more part.lane same stood };

    ghost ahead_with_room = { λ d window water s more part same ahead.
        misses_with_room d window water s more part.lane same ahead };

    ghost waits = { λ d window key m n s part new at rises none.
        serves_on d window key m n s part.lane new at.store at.held at.stood rises none };

    ghost complete_in_time = { complete_in_time };

    ghost stands_with_tuple = { λ d window m n before x more after part timed behind step stood.
        serves_with_tuple d window m n before x more after part.lane behind step stood };

    ghost ahead_with_tuple = { λ d window m n before x more after part timed behind step stood ahead.
        misses_with_tuple d window m n before x more after part.lane stood.timed behind step ahead };

    fn can_serve(kind: &Kind) -> bool {
        matches!(kind, Kind::Tumbling { .. } | Kind::Sliding { .. })
    }

    fn fresh(alloc: Global, defs: &Defs, window: u32) -> Self {
        LanePart {
            lane: Lane::new(alloc),
            formers: Vec::new(alloc),
        }
    }

    // Makes room for what stands of the complete intervals that hold the time.
    fn reserve_put(
        &mut self,
        defs: &Defs,
        window: u32,
        time: u64,
        water: u64,
    ) -> Result<u64, NoMemory> {
        let count = self.lane.late_count(defs, window, time, water);
        self.formers.clear();
        self.formers.reserve(count as usize)?;
        Ok(count)
    }

    fn before<S: AggStore<M>, L>(
        &mut self,
        defs: &Defs,
        window: u32,
        store: &S,
        time: u64,
        water: u64,
        steps: &mut Steps<L>,
    ) {
        self.formers.clear();
        self.lane
            .formers(defs, window, store, time, water, &mut self.formers, steps);
    }

    fn put<S: AggStore<M>, L>(
        &mut self,
        defs: &Defs,
        window: u32,
        store: &S,
        key: &KeyText,
        x: Kept,
        water: u64,
        out: &mut Vec<Change>,
        steps: &mut Steps<L>,
    ) {
        let LanePart { lane, formers } = self;
        lane.late(
            defs, window, store, key, x.time, x.value, water, formers, out, steps,
        );
        lane.touched(x.time);
    }

    fn reserve_mark(
        &mut self,
        defs: &Defs,
        window: u32,
        time: u64,
        water: u64,
    ) -> Result<u64, NoMemory> {
        // Whoever is ready has room for a tuple too.
        self.reserve_put(defs, window, time, water)?;
        Ok(0)
    }

    fn mark<S: AggStore<M>, L>(
        &mut self,
        defs: &Defs,
        window: u32,
        store: &S,
        key: &KeyText,
        time: u64,
        water: u64,
        out: &mut Vec<Change>,
        steps: &mut Steps<L>,
    ) {
        self.lane.touched(time);
    }

    fn reserve_water<S: AggStore<M>>(
        &mut self,
        defs: &Defs,
        window: u32,
        store: &S,
        old: u64,
        new: u64,
    ) -> Result<u64, NoMemory> {
        self.lane.reserve(defs, window, store, old, new)
    }

    fn water<S: AggStore<M>, L>(
        &mut self,
        defs: &Defs,
        window: u32,
        store: &S,
        key: &KeyText,
        old: u64,
        new: u64,
        out: &mut Vec<Change>,
        steps: &mut Steps<L>,
    ) {
        self.lane
            .advance(defs, window, store, key, old, new, out, steps);
    }

    fn next_due<S: AggStore<M>>(&self, defs: &Defs, window: u32, store: &S, water: u64) -> u64 {
        end_or_never(self.lane.next_end(defs, window, store, water))
    }

    fn first_unsettled(&self, defs: &Defs, window: u32, water: u64) -> u64 {
        let settled_by = water.saturating_sub(defs.lateness());
        self.lane.next_start(defs, window, settled_by)
    }

    fn settled_by(&self, defs: &Defs, window: u32, time: u64) -> u64 {
        self.lane.last_end_holding(defs, window, time) + defs.lateness()
    }

    fn drop_settled(&mut self, defs: &Defs, window: u32, water: u64) {}

    fn drop_needless(&mut self, defs: &Defs, window: u32, water: u64) {}
}
