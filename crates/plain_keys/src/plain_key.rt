//! The plain engine: a key's lists, and each change from them anew.
ghost use Rattle.std.specs.Prelude.{◌≡◌, ◌≤◌, ◌<◌, ◌-◌, ◌++◌, ℕ, List, length, OnOk, vec_len, vec_capacity};
ghost use Rattle.std.specs.BTreeSet.{insert_key};
ghost use Rattle.std.specs.Ordering.{nat_cmp};
ghost use Rattle.stream_base.specs.declared.limits.TheConstants.{JOURNAL_MAX};
ghost use Rattle.stream_base.specs.Model.Changes.{rows_at};
ghost use Rattle.stream_base.specs.Model.Journal.{put_in_order};
ghost use Rattle.stream_base.specs.Model.Moments.{moment};
ghost use Rattle.stream_base.specs.Vectors.{Appends, room};
ghost use Rattle.plain_windows.specs.Changing.{IsDue};
ghost use Rattle.key_windows.specs.Calls.{IsAccepted, IsEntryAt};
ghost use Rattle.plain_keys.specs.States.{CatchesUp, Fits, HasDrawnMark, HasDrawnTuple, IsMarked, IsOfSame, HasOneMore, IsReady, IsState, MayMark, MayPut, Prepares, by_one_mark, by_tuple, most_steps, stand_in};

use crate::drafts::{add_mark, draw_mark, draw_put, fill_in, put_in};
use agg_laws::Steps;
use key_windows::{AnyKey, KeyWindows};
use plain_windows::{
    View, append_changes, append_completions, append_rows, bound_from, count_changes,
    count_completions, next_bound, slice_count,
};
use std::alloc::Global;
use std::marker::Model;
use std::mem::swap;
use stream_base::{Change, Defs, JOURNAL_MAX, Kept, KeyText, NoMemory, Row};

/// The windows of one key by its plain lists. A tuple or mark strictly after the watermark changes
/// nothing and is only put at its place; for an earlier one the list with it is drawn beside the
/// old one when room is made, and both are compared.
#[derive(Drop)]
pub struct PlainKey {
    /// The least bound above the watermark. Later than the final one where no bound is.
    due: u64,
    /// The next tuple has at least this position.
    next: u64,
    promise: u64,
    kept: Vec<Kept>,
    marks: Vec<u64>,
    /// The kept tuples after the coming call, with a stand-in for its tuple.
    next_kept: Vec<Kept>,
    /// The marks after the coming call.
    next_marks: Vec<u64>,
    key: KeyText,
}

impl Model for PlainKey {
    ghost use Rattle.std.specs.Prelude.{◌-◌, vec_len, vec_capacity};
    ghost use Rattle.plain_keys.specs.States.{State, IsState};

    ghost Value = { State };

    ghost view = { λ s. record {
      key = s.key;
      kept = s.kept.items;
      marks = s.marks.items;
      next = s.next;
      due = s.due;
      promise = s.promise;
      next_kept = s.next_kept.items;
      next_marks = s.next_marks.items;
      kept_spare = vec_capacity s.kept - vec_len s.kept;
      marks_spare = vec_capacity s.marks - vec_len s.marks;
    } };

    ghost invariant = { λ s. IsState s.kept.items s.marks.items s.next };
}

// A tuple in the place of one to come.
fn stand_in(time: u64) -> Kept
    ensures { result ≡ stand_in time }
{
    Kept {
        position: u64::MAX,
        time,
        value: 0,
    }
}

impl PlainKey {
    /// Appends the rows that stand under a watermark, by window, start and end.
    pub fn append_rows<L>(
        &self,
        defs: &Defs,
        water: u64,
        out: &mut Vec<Row>,
        steps: &mut Steps<L>,
    ) -> Result<(), NoMemory>
        ensures { (kept : List Kept) (marks : List ℕ) → Fits defs.now kept marks water self.now
            → OnOk result (out.new.items ≡ out.old.items
            ++ rows_at (defs.now).windows self.now.key (moment kept marks water)) }
    {
        append_rows(defs, &self.key, &self.view(water), out, steps)
    }

    // Its lists under a watermark.
    fn view(&self, water: u64) -> View
        ensures { result ≡ moment self.now.kept self.now.marks water }
    {
        View::new(&self.kept, &self.marks, water)
    }

    // Changes nothing, and tells a proof what every state keeps.
    fn vouch(&self)
        ensures { IsState self.now.kept self.now.marks self.now.next }
    {
        let _next = self.next;
    }

    // The least bound above a watermark.
    fn bound_ahead(&self, defs: &Defs, water: u64) -> u64
        ensures { IsDue (defs.now).windows self.now.kept self.now.marks water result }
    {
        next_bound(defs, &self.view(water))
    }

    // Waits for a watermark.
    fn wait_for(&mut self, due: u64)
        ensures same { IsOfSame self.old self.new }
        ensures due { self.new.due ≡ due }
    {
        self.due = due;
    }

    // Waits for the least bound above a watermark.
    fn look_ahead(&mut self, defs: &Defs, water: u64)
        ensures same { IsOfSame self.old self.new }
        ensures ahead { IsDue (defs.now).windows self.new.kept self.new.marks water self.new.due }
    {
        let due = self.bound_ahead(defs, water);
        self.wait_for(due);
    }

    // Waits for the least bound with those that a tuple at a time after the watermark brought,
    // where the time alone tells them, and else looks for it.
    fn look_behind(&mut self, defs: &Defs, time: u64, water: u64)
        requires { IsAccepted defs.now time water }
        ensures same { IsOfSame self.old self.new }
        ensures ahead { CatchesUp (defs.now).windows time water self.old self.new }
    {
        match bound_from(defs, time) {
            Some(bound) => self.wait_for(self.due.min(bound)),
            None => self.look_ahead(defs, water),
        }
    }

    // Promises no change.
    fn promise_nothing(&mut self) -> Result<u64, NoMemory>
        ensures { Prepares (λ s. s.promise ≡ 0) self.old self.new result }
    {
        self.promise = 0;
        Ok(0)
    }

    // Makes a place for one tuple more.
    fn make_place(&mut self) -> Result<u64, NoMemory>
        ensures { Prepares (λ s. 1 ≤ s.kept_spare) self.old self.new result }
    {
        self.kept.reserve(1)?;
        self.promise = 0;
        Ok(0)
    }

    // Makes a place for one mark more.
    fn make_mark_place(&mut self) -> Result<u64, NoMemory>
        ensures { Prepares (λ s. 1 ≤ s.marks_spare) self.old self.new result }
    {
        self.marks.reserve(1)?;
        self.promise = 0;
        Ok(0)
    }

    // Draws the kept tuples with a stand-in, and counts what that changes.
    fn draw_tuple(&mut self, defs: &Defs, time: u64, water: u64) -> Result<u64, NoMemory>
        requires entry { IsEntryAt time water }
        requires few { self.old.next < JOURNAL_MAX }
        ensures { Prepares (HasDrawnTuple (defs.now).windows self.old water time)
            self.old self.new result }
    {
        draw_put(&self.kept, stand_in(time), &mut self.next_kept)?;
        let old = View::new(&self.kept, &self.marks, water);
        let new = View::new(&self.next_kept, &self.marks, water);
        let count = count_changes(defs, &old, &new);
        self.promise = count;
        Ok(count)
    }

    // Draws the marks with one more, and counts what that changes.
    fn draw_one_mark(&mut self, defs: &Defs, time: u64, water: u64) -> Result<u64, NoMemory>
        requires { IsEntryAt time water }
        ensures { Prepares (HasDrawnMark (defs.now).windows self.old water time)
            self.old self.new result }
    {
        draw_mark(&self.marks, time, &mut self.next_marks)?;
        let old = View::new(&self.kept, &self.marks, water);
        let new = View::new(&self.kept, &self.next_marks, water);
        let count = count_changes(defs, &old, &new);
        self.promise = count;
        Ok(count)
    }

    // Puts a tuple in the place that was made for it.
    fn put_ahead(&mut self, x: Kept)
        requires next { MayPut self.old x }
        requires room { 1 ≤ self.old.kept_spare }
        ensures { HasOneMore self.old x self.new }
    {
        put_in(&mut self.kept, x);
        self.next = x.position + 1;
    }

    // Puts a tuple where its stand-in is drawn, and appends what that changes.
    fn put_late<L>(
        &mut self,
        defs: &Defs,
        x: Kept,
        water: u64,
        out: &mut Vec<Change>,
        steps: &mut Steps<L>,
    )
        requires next { MayPut self.old x }
        requires drawn { self.old.next_kept ≡ put_in_order self.old.kept (stand_in x.time) }
        requires spare { length (by_tuple (defs.now).windows self.old.key self.old water x)
            ≤ room out.old }
        ensures put { HasOneMore self.old x self.new }
        ensures changes { Appends (by_tuple (defs.now).windows self.old.key self.old water x)
            out.old out.new }
    {
        fill_in(&self.kept, x, &mut self.next_kept);
        let old = View::new(&self.kept, &self.marks, water);
        let new = View::new(&self.next_kept, &self.marks, water);
        append_changes(defs, &self.key, &old, &new, out, steps);
        swap(&mut self.kept, &mut self.next_kept);
        self.next = x.position + 1;
    }

    // Adds a mark in the place that was made for it.
    fn mark_ahead(&mut self, time: u64)
        requires mark { MayMark self.old.marks time }
        requires room { 1 ≤ self.old.marks_spare }
        ensures { IsMarked self.old time self.new }
    {
        add_mark(&mut self.marks, time);
    }

    // Takes the marks that are drawn, and appends what that changes.
    fn mark_late<L>(
        &mut self,
        defs: &Defs,
        time: u64,
        water: u64,
        out: &mut Vec<Change>,
        steps: &mut Steps<L>,
    )
        requires mark { MayMark self.old.marks time }
        requires drawn { self.old.next_marks ≡ insert_key nat_cmp self.old.marks time }
        requires spare { length (by_one_mark (defs.now).windows self.old.key self.old water time)
            ≤ room out.old }
        ensures marked { IsMarked self.old time self.new }
        ensures changes { Appends (by_one_mark (defs.now).windows self.old.key self.old water time)
            out.old out.new }
    {
        let old = View::new(&self.kept, &self.marks, water);
        let new = View::new(&self.kept, &self.next_marks, water);
        append_changes(defs, &self.key, &old, &new, out, steps);
        swap(&mut self.marks, &mut self.next_marks);
    }
}

// Changes nothing, and tells a proof how far a counter counts.
fn vouch_count<L>(steps: &Steps<L>)
    ensures { steps.now ≤ most_steps }
{
    let _count = steps.count();
}

impl AnyKey for PlainKey {
    ghost serves_all = { λ d. tt };
}

impl KeyWindows for PlainKey {
    ghost key_of = { λ s. s.key };

    ghost fits = { Fits };

    ghost is_ready = { IsReady };

    ghost promised = { λ s. s.promise };

    ghost next_position = { λ s. s.next };

    ghost put_work = { λ d old new time s. most_steps };

    ghost mark_work = { λ d old new time before after. most_steps };

    ghost bounds_put = { λ d key old new time n. n ≡ most_steps };

    ghost bounds_mark = { λ d key old new time n. n ≡ most_steps };

    ghost bounds_move = { λ d key old new n. n ≡ most_steps };

    ghost credit = { λ s. 0 };

    ghost is_ahead = { λ d water s. Unit {0} };

    ghost move_work = { λ d old new before after. most_steps };

    ghost catch_up = { λ d water s. 0 };

    ghost serves = { λ d. Unit {0} };

    fn can_serve(_defs: &Defs) -> bool {
        true
    }

    fn fresh(alloc: Global, defs: &Defs, key: KeyText) -> Result<PlainKey, NoMemory> {
        let _ = defs;
        Ok(PlainKey {
            due: u64::MAX,
            next: 0,
            promise: 0,
            kept: Vec::new(alloc),
            marks: Vec::new(alloc),
            next_kept: Vec::new(alloc),
            next_marks: Vec::new(alloc),
            key,
        })
    }

    fn reserve_put(&mut self, defs: &Defs, time: u64, water: u64) -> Result<u64, NoMemory> {
        if water < time {
            self.make_place()
        } else if self.next < JOURNAL_MAX {
            self.draw_tuple(defs, time, water)
        } else {
            self.promise_nothing()
        }
    }

    fn put<L>(
        &mut self,
        defs: &Defs,
        x: Kept,
        water: u64,
        out: &mut Vec<Change>,
        steps: &mut Steps<L>,
    ) -> bool {
        let _windows = defs.windows();
        self.vouch();
        if water < x.time {
            self.put_ahead(x);
            self.look_behind(defs, x.time, water);
            vouch_count(steps);
            false
        } else {
            self.put_late(defs, x, water, out, steps);
            self.look_ahead(defs, water);
            vouch_count(steps);
            false
        }
    }

    fn reserve_mark(&mut self, defs: &Defs, time: u64, water: u64) -> Result<u64, NoMemory> {
        if water < time {
            self.make_mark_place()
        } else {
            self.draw_one_mark(defs, time, water)
        }
    }

    fn mark<L>(
        &mut self,
        defs: &Defs,
        time: u64,
        water: u64,
        out: &mut Vec<Change>,
        steps: &mut Steps<L>,
    ) {
        let _windows = defs.windows();
        self.vouch();
        if water < time {
            self.mark_ahead(time);
            self.look_ahead(defs, water);
            vouch_count(steps);
        } else {
            self.mark_late(defs, time, water, out, steps);
            self.look_ahead(defs, water);
            vouch_count(steps);
        }
    }

    fn reserve_water(&mut self, defs: &Defs, old: u64, new: u64) -> Result<u64, NoMemory> {
        let _windows = defs.windows();
        if new < self.due {
            return self.promise_nothing();
        }
        let count = count_completions(defs, &self.view(old), new);
        self.promise = count;
        Ok(count)
    }

    fn water<L>(
        &mut self,
        defs: &Defs,
        old: u64,
        new: u64,
        out: &mut Vec<Change>,
        steps: &mut Steps<L>,
    ) {
        let _windows = defs.windows();
        self.vouch();
        if new < self.due {
            return;
        }
        let view = self.view(old);
        append_completions(defs, &self.key, &view, new, out, steps);
        self.look_ahead(defs, new);
        vouch_count(steps);
    }

    fn next_due(&self, defs: &Defs, water: u64) -> u64 {
        let _windows = defs.windows();
        let _ = water;
        self.vouch();
        self.due
    }

    fn slice_count(&self, defs: &Defs, water: u64) -> u64 {
        self.vouch();
        slice_count(defs, &self.view(water))
    }
}
