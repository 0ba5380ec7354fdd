//! The part of a window between marks in the state of a key.
ghost use Rattle.std.specs.Prelude.{◌≡◌, ◌<◌, length};
ghost use Rattle.key_parts.specs.Calls.{window_at};

use crate::mark_windows::MarkWindows;
use crate::settled::settled_with;
use agg_laws::Steps;
use agg_store::AggStore;
use aggregates::Partial;
use key_parts::KeyPart;
use std::alloc::Global;
use stream_base::{Change, Defs, Func, Kept, KeyText, Kind, NoMemory};

/// The intervals between the marks of one key for a window of it. They are those of all tuples and
/// marks that were kept of the key: what has left the store lay in intervals that are forgotten.
#[derive(Debug, Drop)]
pub struct MarkPart {
    windows: MarkWindows,
}

// The function of the window at a place of the definitions.
fn func_at(defs: &Defs, window: u32) -> Func
    requires { window < length (defs.now).windows }
    ensures { result ≡ (window_at defs.now window).func }
{
    let windows = defs.windows();
    windows[window as usize].func
}

impl<M: Partial> KeyPart<M> for MarkPart {
    ghost use Rattle.std.proofs.Common.{◌≤◌, ◌-◌, length, zero-le};
    ghost use Rattle.context_windows.specs.MarksStand.{DoStandBetween, IsMarksShown, RemembersHolderAt, do_stand_between_on, is_marks, marks_shown, marks_untimed};
    ghost use Rattle.window_spans.specs.Ahead.{start_after};
    ghost use Rattle.window_spans.specs.Spans.{due_of};
    ghost use Rattle.context_windows.specs.Marked.{holder_in, most_changes};

    ghost serves_kind = { is_marks };

    ghost is_for = { IsMarksShown M.serves };

    ghost stands = { λ d window m n s p. DoStandBetween M.serves d window m n p.windows };

    ghost is_asked = { λ d window m time p. RemembersHolderAt d window m time p.windows };

    ghost owed = { λ p. length p.windows.stood };

    ghost is_ready = { λ d window time water p. 1 ≤ p.windows.spare };

    ghost put_room = { λ d window time water p.
        most_changes time water (holder_in time p.windows.spans p.windows.marks) };

    ghost mark_room = { λ d window time water p.
        most_changes time water (holder_in time p.windows.spans p.windows.marks) };

    ghost can_move = { λ d window s old new p. Unit {0} };

    ghost move_room = { λ d window s old new p. length (due_of old new p.windows.spans) };

    ghost credit = { λ p. 0 };

    ghost complete_by = { λ d window water. 0 };

    ghost is_ahead = { λ d window water s p. Unit {0} };

    ghost taken_up = { λ d window s old new. 0 };

    ghost missed = { λ d window s water. 0 };

    ghost settles_at = { λ d window water p.
        start_after (water - d.lateness) p.windows.spans };

    ghost is_lean = { λ d window water p. Unit {0} };

    ghost is_for_served = { marks_shown M.serves };

    ghost stands_with_room = { λ d window m n s more part same stood. stood };

    ghost ahead_with_room = { λ d window water s more part same ahead. ahead };

    ghost waits = { λ d window key m n s part new at rises none.
        do_stand_between_on d window m n part.windows new at.stood rises };

    ghost complete_in_time = { λ d window water. zero-le };

    ghost stands_with_tuple = { λ d window m n before x more after part timed behind step stood.
        absurd (marks_untimed d window stood.marks timed) };

    ghost ahead_with_tuple = { λ d window m n before x more after part timed behind step stood ahead.
        ahead };

    fn can_serve(kind: &Kind) -> bool {
        matches!(kind, Kind::Marks)
    }

    fn fresh(alloc: Global, defs: &Defs, window: u32) -> Self {
        let _ = defs;
        let _ = window;
        MarkPart {
            windows: MarkWindows::new(alloc),
        }
    }

    fn reserve_put(
        &mut self,
        defs: &Defs,
        window: u32,
        time: u64,
        water: u64,
    ) -> Result<u64, NoMemory> {
        let _ = defs;
        self.windows.reserve(window, time, water)
    }

    fn before<S: AggStore<M>, L>(
        &mut self,
        defs: &Defs,
        window: u32,
        store: &S,
        time: u64,
        water: u64,
        steps: &mut Steps<L>,
    ) {
        let func = func_at(defs, window);
        self.windows.before(window, func, store, time, water, steps);
    }

    fn put<S: AggStore<M>, L>(
        &mut self,
        defs: &Defs,
        window: u32,
        store: &S,
        key: &KeyText,
        x: Kept,
        water: u64,
        out: &mut Vec<Change>,
        steps: &mut Steps<L>,
    ) {
        let func = func_at(defs, window);
        self.windows
            .put(window, func, store, key, x.time, water, out, steps);
    }

    fn reserve_mark(
        &mut self,
        defs: &Defs,
        window: u32,
        time: u64,
        water: u64,
    ) -> Result<u64, NoMemory> {
        let _ = defs;
        self.windows.reserve(window, time, water)
    }

    fn mark<S: AggStore<M>, L>(
        &mut self,
        defs: &Defs,
        window: u32,
        store: &S,
        key: &KeyText,
        time: u64,
        water: u64,
        out: &mut Vec<Change>,
        steps: &mut Steps<L>,
    ) {
        let func = func_at(defs, window);
        self.windows
            .mark(window, func, store, key, time, water, out, steps);
        // Slices that a tuple of another window holds on to don't keep marks here.
        self.windows
            .drop_needless(water.saturating_sub(defs.lateness()));
    }

    fn reserve_water<S: AggStore<M>>(
        &mut self,
        defs: &Defs,
        window: u32,
        store: &S,
        old: u64,
        new: u64,
    ) -> Result<u64, NoMemory> {
        let _ = defs;
        let _ = store;
        Ok(self.windows.due(window, old, new))
    }

    fn water<S: AggStore<M>, L>(
        &mut self,
        defs: &Defs,
        window: u32,
        store: &S,
        key: &KeyText,
        old: u64,
        new: u64,
        out: &mut Vec<Change>,
        steps: &mut Steps<L>,
    ) {
        let func = func_at(defs, window);
        self.windows
            .water(window, func, store, key, old, new, out, steps);
    }

    fn next_due<S: AggStore<M>>(&self, defs: &Defs, window: u32, store: &S, water: u64) -> u64 {
        let _ = defs;
        let _ = window;
        let _ = store;
        self.windows.next_end(water)
    }

    fn first_unsettled(&self, defs: &Defs, window: u32, water: u64) -> u64 {
        let _ = window;
        self.windows
            .first_open(water.saturating_sub(defs.lateness()))
    }

    fn settled_by(&self, defs: &Defs, window: u32, time: u64) -> u64 {
        let _ = window;
        settled_with(self.windows.end_of_last_begun(time), defs.lateness())
    }

    fn drop_settled(&mut self, defs: &Defs, window: u32, water: u64) {
        let _ = window;
        self.windows
            .drop_settled(water.saturating_sub(defs.lateness()));
    }

    fn drop_needless(&mut self, defs: &Defs, window: u32, water: u64) {}
}
