//! The state of a key as an engine.
ghost use Rattle.std.specs.Prelude.{All, vec_capacity, vec_len, ◌-◌};
ghost use Rattle.key_slicer.specs.Parts.{all_credit};
ghost use Rattle.key_slicer.specs.States.{IsReady};
ghost use Rattle.key_slicer.specs.Work.{bounds_mark, bounds_move, bounds_put, catch_up, mark_work, move_work, put_work};
ghost use Rattle.key_slicer.specs.Keys.{FitsKey, KeyAhead};

use crate::key_state::{
    KeyState, all_count_events, is_water, leaves_due, needs_no_part, put_in, vouch_reach,
};
use crate::parts::Parts;
use crate::sorted::append_sorted;
use agg_laws::{AggTree, Steps};
use aggregates::{Bundle, Partial};
use key_parts::AnyPart;
use key_windows::{AnyKey, KeyWindows};
use slice_store::SliceStore;
use std::alloc::Global;
use stream_base::{Change, Defs, Kept, KeyText, NoMemory};

impl<T: AggTree<Bundle> + Drop, P: AnyPart<Bundle>> AnyKey for KeyState<Bundle, T, P> {
    ghost serves_all = { λ d k w l. tt };
}

impl<M: Partial, T: AggTree<M> + Drop, P: AnyPart<M>> KeyWindows for KeyState<M, T, P> {
    ghost key_of = { λ k. k.key };

    ghost fits = { λ d kept marks water k. FitsKey P.stands d kept marks water k };

    ghost is_ready = { λ d call k. IsReady T.bounded P.is_ready P.put_room P.mark_room
        P.can_move P.move_room d call k.store k.parts.list.items k.promise k.scratch.items
        (vec_capacity k.scratch - vec_len k.scratch) };

    ghost promised = { λ k. k.promise };

    ghost next_position = { λ k. k.next };

    ghost put_work = { λ d old new time k. put_work d k.key old new time k.store };

    ghost mark_work = { λ d old new time before after. mark_work d before.key old new time
        before.store after.store };

    ghost bounds_put = { λ d key old new time most. bounds_put T.bounded d key old new time most };

    ghost bounds_mark = { λ d key old new time most.
        bounds_mark T.bounded d key old new time most };

    ghost bounds_move = { λ d key old new most. bounds_move T.bounded d key old new most };

    ghost credit = { λ k. all_credit P.credit k.parts.list.items };

    ghost is_ahead = { λ d water k. KeyAhead P.is_ahead d water k };

    ghost move_work = { λ d old new before after. move_work P.taken_up d before.key old new
        before.store after.store };

    ghost catch_up = { λ d water k. catch_up P.missed d k.store water };

    ghost serves = { λ d. All (λ w. M.serves w.func) d.windows };

    fn can_serve(defs: &Defs) -> bool {
        defs.windows().iter().all(|def| M::can_show(def.func))
    }

    fn fresh(alloc: Global, defs: &Defs, key: KeyText) -> Result<KeyState<M, T, P>, NoMemory> {
        Ok(KeyState {
            key,
            store: SliceStore::new(alloc),
            parts: Parts::fresh(alloc, defs)?,
            next: 0,
            promise: 0,
            scratch: Vec::new(alloc),
        })
    }

    fn reserve_put(&mut self, defs: &Defs, time: u64, water: u64) -> Result<u64, NoMemory> {
        self.store.reserve()?;
        if needs_no_part(defs, time, water) {
            self.promise = 0;
            return Ok(0);
        }
        let room = self.parts.reserve_put(defs, time, water)?;
        self.make_room(room)?;
        Ok(room)
    }

    fn put<L>(
        &mut self,
        defs: &Defs,
        x: Kept,
        water: u64,
        out: &mut Vec<Change>,
        steps: &mut Steps<L>,
    ) -> bool {
        if needs_no_part(defs, x.time, water) {
            self.next = x.position + 1;
            let entered = put_in(&mut self.store, defs, x, steps);
            return entered;
        }
        self.parts.before(defs, &self.store, x.time, water, steps);
        let joined = put_in(&mut self.store, defs, x, steps);
        self.parts.put(
            defs,
            &self.store,
            &self.key,
            x,
            water,
            &mut self.scratch,
            steps,
        );
        append_sorted(self.scratch.as_slice(), out);
        self.next = x.position + 1;
        leaves_due(defs, joined)
    }

    fn reserve_mark(&mut self, defs: &Defs, time: u64, water: u64) -> Result<u64, NoMemory> {
        let room = self.parts.reserve_mark(defs, time, water)?;
        self.store.reserve()?;
        self.make_room(room)?;
        Ok(room)
    }

    fn mark<L>(
        &mut self,
        defs: &Defs,
        time: u64,
        water: u64,
        out: &mut Vec<Change>,
        steps: &mut Steps<L>,
    ) {
        self.store.mark(defs, time, steps);
        self.parts.mark(
            defs,
            &self.store,
            &self.key,
            time,
            water,
            &mut self.scratch,
            steps,
        );
        append_sorted(self.scratch.as_slice(), out);
        // A mark can settle what lies before it, and it can be the one that makes others needless.
        self.purge(defs, water, steps);
    }

    fn reserve_water(&mut self, defs: &Defs, old: u64, new: u64) -> Result<u64, NoMemory> {
        self.promise = 0;
        // Under what is no watermark only a key stands that has nothing yet.
        if !is_water(old) {
            return Ok(0);
        }
        let room = self.parts.reserve_water(defs, &self.store, old, new)?;
        self.promise = room;
        Ok(room)
    }

    fn water<L>(
        &mut self,
        defs: &Defs,
        old: u64,
        new: u64,
        out: &mut Vec<Change>,
        steps: &mut Steps<L>,
    ) {
        vouch_reach(&self.store);
        if is_water(old) {
            self.parts
                .water(defs, &self.store, &self.key, old, new, out, steps);
            self.purge(defs, new, steps);
        }
    }

    fn next_due(&self, defs: &Defs, water: u64) -> u64 {
        let settled = self.next_settled(defs, water);
        self.parts.next_due(defs, &self.store, water).min(settled)
    }

    fn slice_count(&self, defs: &Defs, water: u64) -> u64 {
        if all_count_events(defs) {
            return 0;
        }
        let time = self.parts.first_unsettled(defs, water);
        self.store.count_from(time)
    }
}
