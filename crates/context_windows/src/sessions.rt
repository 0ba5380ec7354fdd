//! The sessions of one key.
ghost use Rattle.std.specs.Prelude.{◌≡◌, ◌≤◌, ◌<◌, ◌+◌, ◌-◌, ◌*◌, ◌++◌, ℕ, List, [], length, option_to_list, vec_len};
ghost use Rattle.stream_base.specs.declared.kept.Kept.{Kept};
ghost use Rattle.stream_base.specs.Laws.{completions};
ghost use Rattle.stream_base.specs.Vectors.{Adds, room};
ghost use Rattle.key_parts.specs.Calls.{window_at};
ghost use Rattle.window_laws.specs.After.{with_tuple};
ghost use Rattle.window_spans.specs.Ahead.{end_after, end_of_last_begun, start_after};
ghost use Rattle.window_spans.specs.Held.{AreAlignedWith};
ghost use Rattle.window_spans.specs.Spans.{AreApart, asked_of, due_of, put_changes, spans_with};
ghost use Rattle.context_windows.specs.Calls.{DiffersInStood, MayComeAt, MayTake, Promises, TakesOne, TellsEach};
ghost use Rattle.context_windows.specs.Spanned.{FollowsSessions, HasAsked, IsAsBefore, IsSessionAt, Remembers, changes_of, gap_at, open_after};
ghost use Rattle.context_windows.specs.SessionCalls.{FollowTuple, WhereFollowed, WhereFollowedHeld, WhereSessionsHeld, WhereTupleCame, asked_in, told_in};

use crate::windows::{gap_of, window_at};
use agg_laws::Steps;
use agg_store::AggStore;
use aggregates::Partial;
use std::alloc::Global;
use std::marker::Model;
use stream_base::{Change, Defs, KeyText, NoMemory};
use window_spans::{
    Span, Standing, Teller, ask, between, changes_of_joining, due, end_after, end_of_last_begun,
    first_standing, joined, near, replace, start_after, tell_all, tell_joined,
};

/// The sessions of one key for a session window of it: the span of each, and what those showed that a
/// coming tuple may change. Contracts see these, up to which time sessions are forgotten, and for how
/// many more there is room.
///
/// The definitions and the window that a call is handed are those of every call before it: what the
/// sessions stand for is said under the gap of that window.
#[derive(Debug, Drop)]
pub struct Sessions {
    spans: Vec<Span>,
    first: Option<Standing>,
    second: Option<Standing>,
    forgotten: u64,
}

impl Model for Sessions {
    ghost use Rattle.std.specs.Prelude.{◌-◌, ◌++◌, vec_len, vec_capacity, option_to_list};
    ghost use Rattle.window_spans.specs.Spans.{AreApart};
    ghost use Rattle.context_windows.specs.Spanned.{Spanned};

    ghost Value = { Spanned };

    ghost view = { λ s. record {
      spans = s.spans.items;
      stood = option_to_list s.first ++ option_to_list s.second;
      forgotten = s.forgotten;
      spare = vec_capacity s.spans - vec_len s.spans;
    } };

    ghost invariant = { λ s. AreApart s.spans.items };
}

impl Sessions {
    /// No session yet.
    pub fn new(alloc: Global) -> Sessions
        ensures follows { (gap : ℕ) → FollowsSessions gap [] result }
        ensures spans { (result).spans ≡ [] }
        ensures stood { (result).stood ≡ [] }
        ensures forgotten { (result).forgotten ≡ 0 }
    {
        Sessions {
            spans: Vec::new(alloc),
            first: None,
            second: None,
            forgotten: 0,
        }
    }

    /// Makes room for a tuple at a time under a watermark, and answers how many changes its `put`
    /// will append.
    pub fn reserve(
        &mut self,
        defs: &Defs,
        window: u32,
        time: u64,
        water: u64,
    ) -> Result<u64, NoMemory>
        requires { MayComeAt defs.now window time }
        ensures promises { Promises (put_changes (gap_at defs.now window) time water
            self.old.spans) result self.new.spare }
        ensures kept { IsAsBefore self.old self.new }
    {
        self.spans.reserve(1)?;
        let gap = gap_of(&window_at(defs, window).kind);
        // The session that such a tuple makes ends behind the watermark, as those do that it joins.
        if water <= time {
            return Ok(0);
        }
        let places = near(&self.spans, gap, time);
        let sessions = between(&self.spans, places);
        let (first, second) = first_standing(sessions, water);
        Ok(changes_of_joining(first, second, joined(sessions, gap, time), water))
    }

    /// Keeps what those sessions show that stand and that a tuple at a time may change, at most two.
    /// It is called before the store takes the tuple in.
    pub fn before<M: Partial, S: AggStore<M>, L>(
        &mut self,
        defs: &Defs,
        window: u32,
        store: &S,
        time: u64,
        water: u64,
        steps: &mut Steps<L>,
    )
        requires comes { MayComeAt defs.now window time }
        requires aligned { AreAlignedWith (S.stored store.now).slices
            (asked_in defs.now window time water self.old) }
        requires serves { M.serves (window_at defs.now window).func }
        ensures kept { DiffersInStood self.old self.new }
        ensures asked { HasAsked (gap_at defs.now window) time water self.new }
        ensures remembers { WhereSessionsHeld defs.now window time (S.stored store.now) self.old
            (λ kept. Remembers (window_at defs.now window) time water kept self.new) }
        ensures cost { steps.new
            ≤ steps.old + 64 * ((S.stored store.now).reach + 2) * length self.new.stood }
    {
        let def = window_at(defs, window);
        let (first, second) = standing_near(&self.spans, gap_of(&def.kind), time, water);
        self.first = ask(store, first, def.func, steps);
        self.second = ask(store, second, def.func, steps);
    }

    /// Takes in a tuple that the store has taken in, and appends exactly the window's changes: the
    /// sessions less than the gap away from it become one with it, and those that stood and stand no
    /// longer are taken back. `reserve` made the room, and said how many changes there will be;
    /// `before` kept what stood.
    pub fn put<M: Partial, S: AggStore<M>, L>(
        &mut self,
        defs: &Defs,
        window: u32,
        store: &S,
        key: &KeyText,
        time: u64,
        water: u64,
        out: &mut Vec<Change>,
        steps: &mut Steps<L>,
    )
        requires session { IsSessionAt defs.now window }
        requires takes { MayTake time self.old.spare }
        requires asked { HasAsked (gap_at defs.now window) time water self.old }
        requires aligned { AreAlignedWith (S.stored store.now).slices
            (told_in defs.now window time water self.old) }
        requires serves { M.serves (window_at defs.now window).func }
        requires spare { put_changes (gap_at defs.now window) time water self.old.spans
            ≤ room out.old }
        ensures follows { FollowTuple defs.now window time self.old self.new }
        ensures changes { WhereTupleCame defs.now window time water (S.stored store.now) self.old
            (λ def m x. out.new.items
            ≡ out.old.items ++ changes_of key.now m (with_tuple m x) (window, def)) }
        ensures spans { self.new.spans
            ≡ spans_with (gap_at defs.now window) time self.old.spans }
        ensures adds { Adds (put_changes (gap_at defs.now window) time water self.old.spans)
            out.old out.new }
        ensures owed { length self.old.stood ≤ vec_len out.new - vec_len out.old }
        ensures takes { TakesOne self.old self.new }
        ensures cost { steps.new ≤ steps.old + 64 * ((S.stored store.now).reach + 2)
            * length (told_in defs.now window time water self.old) }
    {
        let def = window_at(defs, window);
        let gap = gap_of(&def.kind);
        let places = near(&self.spans, gap, time);
        let span = joined(between(&self.spans, places), gap, time);
        replace(&mut self.spans, places.from, places.to, span);
        let teller = Teller { window, key };
        teller.tell_gone(self.first, span, water, out);
        teller.tell_gone(self.second, span, water, out);
        tell_joined(
            &teller,
            store,
            self.first,
            self.second,
            span,
            water,
            def.func,
            out,
            steps,
        );
    }

    /// How many sessions a move of the watermark completes.
    pub fn due(&self, defs: &Defs, window: u32, old: u64, new: u64) -> u64
        requires { IsSessionAt defs.now window }
        ensures number { result ≡ length (due_of old new self.now.spans) }
        ensures rows { WhereFollowed defs.now window old self.now
            (λ def key m. result ≡ length (completions key m new (window, def))) }
    {
        let places = due(&self.spans, old, new);
        (places.to - places.from) as u64
    }

    /// Appends exactly the sessions that a move of the watermark completes, as new. `due` says how
    /// many.
    pub fn water<M: Partial, S: AggStore<M>, L>(
        &self,
        defs: &Defs,
        window: u32,
        store: &S,
        key: &KeyText,
        old: u64,
        new: u64,
        out: &mut Vec<Change>,
        steps: &mut Steps<L>,
    )
        requires session { IsSessionAt defs.now window }
        requires aligned { AreAlignedWith (S.stored store.now).slices
            (due_of old new self.now.spans) }
        requires serves { M.serves (window_at defs.now window).func }
        requires spare { length (due_of old new self.now.spans) ≤ room out.old }
        ensures changes { WhereFollowedHeld defs.now window old (S.stored store.now) self.now
            (λ def m. out.new.items ≡ out.old.items ++ completions key.now m new (window, def)) }
        ensures tells { TellsEach (due_of old new self.now.spans)
            (S.stored store.now) out.old out.new steps.old steps.new }
    {
        let def = window_at(defs, window);
        let places = due(&self.spans, old, new);
        let teller = Teller { window, key };
        let sessions = between(&self.spans, places);
        tell_all(&teller, store, sessions, def.func, out, steps);
    }

    /// When the first session ends that ends after a watermark, and `u64::MAX` where there is none: a
    /// move of the watermark to before it completes none.
    pub fn next_end(&self, water: u64) -> u64
        ensures value { result ≡ end_after water self.now.spans }
        ensures none_due { (new : ℕ) → new < result → due_of water new self.now.spans ≡ [] }
    {
        end_after(&self.spans, water)
    }

    /// When the first session starts that ends after a time, and `u64::MAX` where there is none.
    pub fn first_open(&self, time: u64) -> u64
        ensures { result ≡ start_after time self.now.spans }
    {
        start_after(&self.spans, time)
    }

    /// When the last session ends that starts at or before a time, and 0 where there is none.
    pub fn end_of_last_begun(&self, time: u64) -> u64
        ensures { result ≡ end_of_last_begun time self.now.spans }
    {
        end_of_last_begun(&self.spans, time)
    }

    /// Forgets the sessions that end at or before a time. No tuple comes at an earlier time.
    pub fn drop_settled(&mut self, time: u64)
        ensures kept { IsAsBefore (open_after time self.old) self.new }
        ensures follows { (gap : ℕ) (kept : List Kept) → FollowsSessions gap kept self.old
            → FollowsSessions gap kept self.new }
    {
        self.spans.retain(|s| time < s.high);
        self.forgotten = self.forgotten.max(time);
    }
}

// Those that stand of the sessions near a time, at most two. Where the watermark isn't behind the time
// none does: each of them ends behind it.
fn standing_near(spans: &[Span], gap: u64, time: u64, water: u64) -> (Option<Span>, Option<Span>)
    requires apart { AreApart spans.now }
    requires gap { 1 ≤ gap }
    requires room { time + gap ≤ u64.MAX }
    ensures { option_to_list result.0 ++ option_to_list result.1
        ≡ asked_of gap time water spans.now }
{
    if water <= time {
        return (None, None);
    }
    let places = near(spans, gap, time);
    first_standing(between(spans, places), water)
}
