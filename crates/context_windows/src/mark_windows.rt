//! The intervals between the marks of one key.
ghost use Rattle.std.specs.Prelude.{◌≡◌, ◌≤◌, ◌<◌, ◌+◌, ◌-◌, ◌*◌, ◌++◌, ℕ, [], length, max, vec_len, option_to_list};
ghost use Rattle.std.specs.BTreeSet.{insert_key};
ghost use Rattle.std.specs.Ordering.{nat_cmp};
ghost use Rattle.stream_base.specs.declared.limits.TheConstants.{FINAL};
ghost use Rattle.stream_base.specs.Laws.{completions};
ghost use Rattle.stream_base.specs.Vectors.{room};
ghost use Rattle.slice_lists.specs.Touched.{marks_left};
ghost use Rattle.window_laws.specs.After.{with_mark, with_tuple};
ghost use Rattle.window_spans.specs.Ahead.{end_after, end_of_last_begun, start_after};
ghost use Rattle.window_spans.specs.Held.{AreAlignedWith};
ghost use Rattle.window_spans.specs.Spans.{due_of};
ghost use Rattle.window_spans.specs.Telling.{Tells};
ghost use Rattle.context_windows.specs.Calls.{DiffersInStood, MayTake, Promises, TakesOne, TellsEach, spanned_of};
ghost use Rattle.context_windows.specs.Marked.{FollowsMarks, IsMarkedAsBefore, RemembersHolder, asked_at, entered_at, marked_open_after, marks_window, most_changes, parted_of, with_parts};
ghost use Rattle.context_windows.specs.Spanned.{changes_of};
ghost use Rattle.context_windows.specs.MarkCalls.{FollowMarksWithTuple, FollowOn, WhereMarksFollowed, WhereMarksHeld, WhereMomentHeld, WhereRemembered, WhereTupleCameBetween, most_changes_at};

use agg_laws::Steps;
use agg_store::AggStore;
use aggregates::Partial;
use std::alloc::Global;
use std::marker::Model;
use stream_base::{Change, Func, KeyText, NoMemory};
use window_spans::{
    Span, Standing, Teller, add_mark, are_mostly_needless, ask, back_of, between, due, end_after,
    end_of_last_begun, first_asked, first_before, first_or, front_of, holder, is_filled,
    leave_marks, near, part, part_if, replace, start_after, tell_all, tell_joined, tell_part,
    tell_taken,
};

/// The intervals between the marks of one key, for a marks window of it: the span of each that has a
/// tuple, the marks that what comes can need, and what the interval showed that a coming tuple may
/// change. Contracts see these, up to which time intervals are forgotten, and for how many more there
/// is room.
#[derive(Debug, Drop)]
pub struct MarkWindows {
    spans: Vec<Span>,
    marks: Vec<u64>,
    stood: Option<Standing>,
    forgotten: u64,
}

impl Model for MarkWindows {
    ghost use Rattle.std.specs.Prelude.{◌-◌, min, vec_len, vec_capacity, option_to_list};
    ghost use Rattle.context_windows.specs.Marked.{AreIntervals, Marked};

    ghost Value = { Marked };

    ghost view = { λ s. record {
      spans = s.spans.items;
      marks = s.marks.items;
      stood = option_to_list s.stood;
      forgotten = s.forgotten;
      spare = min (vec_capacity s.spans - vec_len s.spans) (vec_capacity s.marks - vec_len s.marks);
    } };

    ghost invariant = { λ s. AreIntervals s.spans.items s.marks.items };
}

impl MarkWindows {
    /// No tuple and no mark yet.
    pub fn new(alloc: Global) -> MarkWindows
        ensures follows { FollowsMarks [] [] result }
        ensures forgotten { (result).forgotten ≡ 0 }
    {
        MarkWindows {
            spans: Vec::new(alloc),
            marks: Vec::new(alloc),
            stood: None,
            forgotten: 0,
        }
    }

    /// Makes room for a tuple or a mark at a time under a watermark, and answers a number that is at
    /// least how many changes its `put` or `mark` will append.
    pub fn reserve(&mut self, window: u32, time: u64, water: u64) -> Result<u64, NoMemory>
        requires { time < u64.MAX }
        ensures promises { Promises (most_changes_at time water self.old) result self.new.spare }
        ensures kept { IsMarkedAsBefore self.old self.new }
    {
        self.spans.reserve(1)?;
        self.marks.reserve(1)?;
        let places = near(&self.spans, 1, time);
        let span = first_or(&self.spans, places, holder(&self.marks, time));
        Ok(most_changes(span, time, water))
    }

    /// Keeps what the interval shows that holds a time, if it stands. It is called before the store
    /// takes the tuple in.
    pub fn before<M: Partial, S: AggStore<M>, L>(
        &mut self,
        window: u32,
        func: Func,
        store: &S,
        time: u64,
        water: u64,
        steps: &mut Steps<L>,
    )
        requires time { time < FINAL }
        requires aligned { AreAlignedWith (S.stored store.now).slices
            (asked_at time water self.old.spans) }
        requires serves { M.serves func }
        ensures kept { DiffersInStood (spanned_of self.old) (spanned_of self.new) }
        ensures marks { self.new.marks ≡ self.old.marks }
        ensures remembers { WhereMarksHeld time (S.stored store.now) self.old
            (λ marks kept. RemembersHolder func time water marks kept self.new) }
        ensures cost { steps.new
            ≤ steps.old + 64 * ((S.stored store.now).reach + 2) * length self.new.stood }
    {
        let places = near(&self.spans, 1, time);
        self.stood = ask(store, first_asked(&self.spans, places, water), func, steps);
    }

    /// Takes in a tuple that the store has taken in, and appends exactly the window's changes: at most
    /// one, of the interval that holds it. `reserve` made the room; `before` kept what stood.
    pub fn put<M: Partial, S: AggStore<M>, L>(
        &mut self,
        window: u32,
        func: Func,
        store: &S,
        key: &KeyText,
        time: u64,
        water: u64,
        out: &mut Vec<Change>,
        steps: &mut Steps<L>,
    )
        requires takes { MayTake time self.old.spare }
        requires aligned { AreAlignedWith (S.stored store.now).slices
            (entered_at time water self.old) }
        requires serves { M.serves func }
        requires spare { length (entered_at time water self.old) ≤ room out.old }
        ensures follows { FollowMarksWithTuple time self.old self.new }
        ensures changes { WhereTupleCameBetween func time water (S.stored store.now) self.old
            (λ m x. out.new.items
            ≡ out.old.items ++ changes_of key.now m (with_tuple m x) (window, marks_window func)) }
        ensures tells { TellsEach (entered_at time water self.old)
            (S.stored store.now) out.old out.new steps.old steps.new }
        ensures owed { WhereRemembered func time water self.old
            (length self.old.stood ≤ vec_len out.new - vec_len out.old) }
        ensures takes { TakesOne (spanned_of self.old) (spanned_of self.new) }
        ensures marks { self.new.marks ≡ self.old.marks }
    {
        let places = near(&self.spans, 1, time);
        let span = first_or(&self.spans, places, holder(&self.marks, time));
        replace(&mut self.spans, places.from, places.to, span);
        let teller = Teller { window, key };
        tell_joined(
            &teller, store, self.stood, None, span, water, func, out, steps,
        );
    }

    /// Takes in a mark that the store has taken in, and appends exactly the window's changes: the
    /// interval that the mark parts is taken back where it stood, and each of its parts that has a
    /// tuple and stands is new. `reserve` made the room.
    pub fn mark<M: Partial, S: AggStore<M>, L>(
        &mut self,
        window: u32,
        func: Func,
        store: &S,
        key: &KeyText,
        time: u64,
        water: u64,
        out: &mut Vec<Change>,
        steps: &mut Steps<L>,
    )
        requires takes { MayTake time self.old.spare }
        requires aligned { AreAlignedWith (S.stored store.now).slices
            (with_parts time (parted_of time self.old.spans)) }
        requires serves { M.serves func }
        requires spare { most_changes_at time water self.old ≤ room out.old }
        ensures follows { WhereMarksHeld time (S.stored store.now) self.old
            (λ marks kept. FollowsMarks (insert_key nat_cmp marks time) kept self.new) }
        ensures changes { WhereMomentHeld time water (S.stored store.now) self.old
            (λ m. out.new.items ≡ out.old.items
            ++ changes_of key.now m (with_mark m time) (window, marks_window func)) }
        ensures number { vec_len out.new ≤ vec_len out.old + most_changes_at time water self.old }
        ensures tells { Tells (vec_len out.new - vec_len out.old)
            (S.stored store.now).reach out.old out.new steps.old steps.new }
        ensures takes { TakesOne (spanned_of self.old) (spanned_of self.new) }
        ensures marks { self.new.marks ≡ insert_key nat_cmp self.old.marks time }
    {
        let places = near(&self.spans, 1, time);
        let parted = first_before(&self.spans, places, time);
        add_mark(&mut self.marks, time);
        if let Some(span) = parted {
            let front = is_filled(store, front_of(span, time));
            let back = is_filled(store, back_of(span, time));
            let first = part_if(front, self.forgotten, front_of(span, time));
            let second = part_if(back, self.forgotten, back_of(span, time));
            part(&mut self.spans, places.from, places.to, first, second);
            let teller = Teller { window, key };
            tell_taken(&teller, store, span, water, func, out, steps);
            tell_part(
                &teller,
                store,
                front_of(span, time),
                front,
                water,
                func,
                out,
                steps,
            );
            tell_part(
                &teller,
                store,
                back_of(span, time),
                back,
                water,
                func,
                out,
                steps,
            );
        }
    }

    /// How many intervals a move of the watermark completes.
    pub fn due(&self, window: u32, old: u64, new: u64) -> u64
        ensures number { result ≡ length (due_of old new self.now.spans) }
        ensures rows { WhereMarksFollowed old self.now
            (λ key func m. result ≡ length (completions key m new (window, marks_window func))) }
    {
        let places = due(&self.spans, old, new);
        (places.to - places.from) as u64
    }

    /// Appends exactly the intervals that a move of the watermark completes, as new. `due` says how
    /// many.
    pub fn water<M: Partial, S: AggStore<M>, L>(
        &self,
        window: u32,
        func: Func,
        store: &S,
        key: &KeyText,
        old: u64,
        new: u64,
        out: &mut Vec<Change>,
        steps: &mut Steps<L>,
    )
        requires aligned { AreAlignedWith (S.stored store.now).slices
            (due_of old new self.now.spans) }
        requires serves { M.serves func }
        requires spare { length (due_of old new self.now.spans) ≤ room out.old }
        ensures changes { WhereMomentHeld old old (S.stored store.now) self.now (λ m. out.new.items
            ≡ out.old.items ++ completions key.now m new (window, marks_window func)) }
        ensures tells { TellsEach (due_of old new self.now.spans)
            (S.stored store.now) out.old out.new steps.old steps.new }
    {
        let places = due(&self.spans, old, new);
        let teller = Teller { window, key };
        tell_all(
            &teller,
            store,
            between(&self.spans, places),
            func,
            out,
            steps,
        );
    }

    /// When the first interval ends that ends after a watermark, and `u64::MAX` where there is none: a
    /// move of the watermark to before it completes none.
    pub fn next_end(&self, water: u64) -> u64
        ensures value { result ≡ end_after water self.now.spans }
        ensures none_due { (new : ℕ) → new < result → due_of water new self.now.spans ≡ [] }
    {
        end_after(&self.spans, water)
    }

    /// When the first interval starts that ends after a time, and `u64::MAX` where there is none.
    pub fn first_open(&self, time: u64) -> u64
        ensures { result ≡ start_after time self.now.spans }
    {
        start_after(&self.spans, time)
    }

    /// When the last interval ends that starts at or before a time, and 0 where there is none.
    pub fn end_of_last_begun(&self, time: u64) -> u64
        ensures { result ≡ end_of_last_begun time self.now.spans }
    {
        end_of_last_begun(&self.spans, time)
    }

    /// Does what `drop_settled` does once more marks leave by it than stay: then what it takes to move
    /// the others up is paid for by those that leave. No tuple and no mark comes at an earlier time.
    pub fn drop_needless(&mut self, time: u64)
        ensures few { length self.new.marks ≤ 2 * length (marks_left time self.new.marks) }
        ensures follows { FollowOn self.old self.new }
        ensures forgotten { self.new.forgotten ≤ max self.old.forgotten time }
        ensures spare { self.old.spare ≤ self.new.spare }
    {
        if are_mostly_needless(&self.marks, time) {
            self.drop_settled(time);
        }
    }

    /// Forgets the intervals that end at or before a time, and the marks up to it but the greatest
    /// of them. No tuple and no mark comes at an earlier time.
    pub fn drop_settled(&mut self, time: u64)
        ensures kept { IsMarkedAsBefore (marked_open_after time self.old) self.new }
        ensures follows { FollowOn self.old self.new }
    {
        self.spans.retain(|s| time < s.high);
        leave_marks(&mut self.marks, time);
        self.forgotten = self.forgotten.max(time);
    }
}

// At least as many as the changes of a tuple or a mark at a time in this interval.
fn most_changes(span: Span, time: u64, water: u64) -> u64
    ensures { result ≡ most_changes time water span }
{
    if span.high <= water {
        3
    } else if time <= water {
        1
    } else {
        0
    }
}
