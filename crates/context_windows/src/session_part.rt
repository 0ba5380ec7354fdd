//! The part of a session window in the state of a key.
ghost use Rattle.std.specs.Prelude.{◌≤◌, ◌-◌, length};

use crate::sessions::Sessions;
use crate::settled::settled_with;
use agg_laws::Steps;
use agg_store::AggStore;
use aggregates::Partial;
use key_parts::KeyPart;
use std::alloc::Global;
use stream_base::{Change, Defs, Kept, KeyText, Kind, NoMemory};

/// The sessions of one key for a session window of it. They end and start by all tuples that were
/// kept of the key: what has left the store lay in sessions that are forgotten.
#[derive(Debug, Drop)]
pub struct SessionPart {
    sessions: Sessions,
}

impl<M: Partial> KeyPart<M> for SessionPart {
    ghost use Rattle.std.proofs.Common.{◌≤◌, ◌-◌, length, zero-le};
    ghost use Rattle.stream_base.specs.Kinds.{is_session};
    ghost use Rattle.context_windows.specs.SessionsStand.{AreAsked, DoStand, IsSessionShown, do_stand_on, sessions_shown, sessions_untimed};
    ghost use Rattle.window_spans.specs.Ahead.{start_after};
    ghost use Rattle.window_spans.specs.Spans.{due_of, put_changes};
    ghost use Rattle.context_windows.specs.Spanned.{gap_at};

    ghost serves_kind = { is_session };

    ghost is_for = { IsSessionShown M.serves };

    ghost stands = { λ d window m n s p. DoStand M.serves d window m n p.sessions };

    ghost is_asked = { λ d window m time p. AreAsked d window m time p.sessions };

    ghost owed = { λ p. length p.sessions.stood };

    ghost is_ready = { λ d window time water p. 1 ≤ p.sessions.spare };

    ghost put_room = { λ d window time water p.
        put_changes (gap_at d window) time water p.sessions.spans };

    ghost mark_room = { λ d window time water p. 0 };

    ghost can_move = { λ d window s old new p. Unit {0} };

    ghost move_room = { λ d window s old new p. length (due_of old new p.sessions.spans) };

    ghost credit = { λ p. 0 };

    ghost complete_by = { λ d window water. 0 };

    ghost is_ahead = { λ d window water s p. Unit {0} };

    ghost taken_up = { λ d window s old new. 0 };

    ghost missed = { λ d window s water. 0 };

    ghost settles_at = { λ d window water p.
        start_after (water - d.lateness) p.sessions.spans };

    ghost is_lean = { λ d window water p. Unit {0} };

    ghost is_for_served = { sessions_shown M.serves };

    ghost stands_with_room = { λ d window m n s more part same stood. stood };

    ghost ahead_with_room = { λ d window water s more part same ahead. ahead };

    ghost waits = { λ d window key m n s part new at rises none.
        do_stand_on d window m n part.sessions new at.stood rises };

    ghost complete_in_time = { λ d window water. zero-le };

    ghost stands_with_tuple = { λ d window m n before x more after part timed behind step stood.
        absurd (sessions_untimed d window stood.session timed) };

    ghost ahead_with_tuple = { λ d window m n before x more after part timed behind step stood ahead.
        ahead };

    fn can_serve(kind: &Kind) -> bool {
        matches!(kind, Kind::Session { .. })
    }

    fn fresh(alloc: Global, defs: &Defs, window: u32) -> Self {
        // The gap of the window is within its limits.
        let _ = defs.windows();
        let _ = window;
        SessionPart {
            sessions: Sessions::new(alloc),
        }
    }

    fn reserve_put(
        &mut self,
        defs: &Defs,
        window: u32,
        time: u64,
        water: u64,
    ) -> Result<u64, NoMemory> {
        self.sessions.reserve(defs, window, time, water)
    }

    fn before<S: AggStore<M>, L>(
        &mut self,
        defs: &Defs,
        window: u32,
        store: &S,
        time: u64,
        water: u64,
        steps: &mut Steps<L>,
    ) {
        self.sessions
            .before(defs, window, store, time, water, steps);
    }

    fn put<S: AggStore<M>, L>(
        &mut self,
        defs: &Defs,
        window: u32,
        store: &S,
        key: &KeyText,
        x: Kept,
        water: u64,
        out: &mut Vec<Change>,
        steps: &mut Steps<L>,
    ) {
        self.sessions
            .put(defs, window, store, key, x.time, water, out, steps);
    }

    fn reserve_mark(
        &mut self,
        defs: &Defs,
        window: u32,
        time: u64,
        water: u64,
    ) -> Result<u64, NoMemory> {
        // Whoever is ready has room for a tuple too.
        self.sessions.reserve(defs, window, time, water)?;
        Ok(0)
    }

    // A mark changes no session.
    fn mark<S: AggStore<M>, L>(
        &mut self,
        defs: &Defs,
        window: u32,
        store: &S,
        key: &KeyText,
        time: u64,
        water: u64,
        out: &mut Vec<Change>,
        steps: &mut Steps<L>,
    ) {}

    fn reserve_water<S: AggStore<M>>(
        &mut self,
        defs: &Defs,
        window: u32,
        store: &S,
        old: u64,
        new: u64,
    ) -> Result<u64, NoMemory> {
        let _ = store;
        Ok(self.sessions.due(defs, window, old, new))
    }

    fn water<S: AggStore<M>, L>(
        &mut self,
        defs: &Defs,
        window: u32,
        store: &S,
        key: &KeyText,
        old: u64,
        new: u64,
        out: &mut Vec<Change>,
        steps: &mut Steps<L>,
    ) {
        self.sessions
            .water(defs, window, store, key, old, new, out, steps);
    }

    fn next_due<S: AggStore<M>>(&self, defs: &Defs, window: u32, store: &S, water: u64) -> u64 {
        let _ = defs;
        let _ = window;
        let _ = store;
        self.sessions.next_end(water)
    }

    fn first_unsettled(&self, defs: &Defs, window: u32, water: u64) -> u64 {
        let _ = window;
        self.sessions
            .first_open(water.saturating_sub(defs.lateness()))
    }

    fn settled_by(&self, defs: &Defs, window: u32, time: u64) -> u64 {
        let _ = window;
        settled_with(self.sessions.end_of_last_begun(time), defs.lateness())
    }

    fn drop_settled(&mut self, defs: &Defs, window: u32, water: u64) {
        let _ = window;
        self.sessions
            .drop_settled(water.saturating_sub(defs.lateness()));
    }

    fn drop_needless(&mut self, defs: &Defs, window: u32, water: u64) {}
}
