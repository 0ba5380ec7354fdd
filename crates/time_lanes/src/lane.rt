//! The lane of one window.
ghost use Rattle.std.specs.Prelude.{◌≡◌, ◌≤◌, ◌+◌, ◌*◌, ◌++◌, ◌||◌, [], true, length, nat_lt, OnOk, IfOk, vec_capacity, ℕ};
ghost use Rattle.stream_base.specs.declared.kind.Kind.{Kind};
ghost use Rattle.stream_base.specs.declared.limits.TheConstants.{FINAL, TIME_MAX};
ghost use Rattle.stream_base.specs.Laws.{completions};
ghost use Rattle.stream_base.specs.Model.Changes.{emissions};
ghost use Rattle.stream_base.specs.Vectors.{room};
ghost use Rattle.window_laws.specs.After.{with_tuple};
ghost use Rattle.window_laws.specs.Due.{first_open};
ghost use Rattle.window_laws.specs.Settled.{last_end_of as last_end_holding_of};
ghost use Rattle.window_laws.specs.Walk.{next_start_of};
ghost use Rattle.agg_store.specs.Stored.{IsSliced, Stored};
ghost use Rattle.time_lanes.specs.Calls.{AppendsWithin, GrowsBy, IsServedUnder, MayComeTo, MayFollow, MayHold, OfWindow, ShowsWindow};
ghost use Rattle.time_lanes.specs.Lane.{HasMoreRoom, HoldsTheSame, IsRefreshed, Knows, MissesNoSlice, KnowsOn};
ghost use Rattle.time_lanes.specs.Late.{formers_of, number_holding};
ghost use Rattle.time_lanes.specs.Joined.{is_order_free};
ghost use Rattle.time_lanes.specs.Spans.{is_served, last_end_by};
ghost use Rattle.time_lanes.specs.Moves.{AtMoments, ByCompleted, ByOpen, ByTouched, HasRoomFor, WhereMayMove, row_count};
ghost use Rattle.time_lanes.specs.Comes.{OfEachTuple, WhereApart, WhereLate};
ghost use Rattle.time_lanes.specs.Shared.{SharesAt};
ghost use Rattle.time_lanes.specs.Stays.{WhereSameUpTo};

use crate::due::{count_due, tell_due};
use crate::held::Held;
use crate::joined::{append_joined, is_order_free};
use crate::late::{append_formers, append_late, complete_at};
use crate::next::end_from;
use crate::owner::Owner;
use crate::served::{Served, serve, window_at};
use crate::span::Span;
use agg_laws::{AggQueue, Steps};
use agg_store::AggStore;
use aggregates::Partial;
use std::alloc::Global;
use std::marker::Model;
use stream_base::{Change, Defs, Former, KeyText, NoMemory};

/// The lane of one tumbling or sliding window of one key: a queue of the partials of those slices
/// that intervals need which aren't complete. Contracts see the partials, up to where they go,
/// whether one of them has changed since, for how many more there is room, and the credit.
///
/// The window and the definitions that a call is handed are those of every call before it. `Knows`
/// says that a lane knows the slices of its store at a watermark. A new lane knows an empty store at
/// every watermark; `laws` and `touched` say that it knows the store after each call on it.
#[derive(Drop)]
pub struct Lane<M: Partial, Q: AggQueue<M>> {
    held: Held<M, Q>,
    stale: bool,
}

impl<M: Partial, Q: AggQueue<M>> Model for Lane<M, Q> {
    ghost use Rattle.time_lanes.specs.Lane.{Laned};

    ghost Value = { Laned M };

    ghost view = { λ l. record {
      partials = l.held.partials;
      to = l.held.to;
      stale = l.stale;
      spare = l.held.spare;
      credit = l.held.credit;
    } };
}

impl<M: Partial, Q: AggQueue<M>> Lane<M, Q> {
    /// A lane that holds nothing: it knows an empty store at every watermark.
    pub fn new(alloc: Global) -> Lane<M, Q>
        ensures credit { (result).credit ≡ 0 }
        ensures knows { (kind : Kind) (water : ℕ) (s : Stored) → s.slices ≡ []
            → Knows M.of_values kind water s result }
        ensures knows_all { (kind : Kind) (water : ℕ) (s : Stored) → s.slices ≡ []
            → MissesNoSlice kind water s result }
    {
        Lane {
            held: Held::new(alloc),
            stale: false,
        }
    }

    /// Makes room for a move of the watermark, and answers how many rows its `advance` will append.
    pub fn reserve<S: AggStore<M>>(
        &mut self,
        defs: &Defs,
        window: u32,
        store: &S,
        old: u64,
        new: u64,
    ) -> Result<u64, NoMemory>
        requires { MayFollow defs.now.windows window (S.stored store.now) old new }
        ensures same { HasMoreRoom self.old self.new }
        ensures room { OfWindow defs.now.windows window
            (λ w. OnOk result (HasRoomFor w.kind (S.stored store.now) old new self.new)) }
        ensures number { OfWindow defs.now.windows window
            (λ w. IfOk result (λ n. n ≡ row_count w.kind (S.stored store.now) old new)) }
    {
        let Served { span, .. } = serve(defs, window);
        let start = span.next_start(old);
        let from = if self.stale {
            start
        } else {
            start.max(self.held.to())
        };
        self.held
            .reserve(store.slices_within(from, span.last_end(new)))?;
        Ok(count_due(store, &span, start, new))
    }

    /// Follows a move of the watermark, and appends exactly the rows of the intervals that it
    /// completes, as new, by their starts. `reserve` made the room, and said how many rows there
    /// will be.
    ///
    /// The work is bounded on credit by 10 steps for each slice of the intervals that end in the
    /// move, and 1 for each row; where the lane has missed slices of complete intervals, or was
    /// touched, by 10 more for each slice of the last one of these. With no credit it is bounded by
    /// 10 steps for each slice from the first interval that is open up to the end of the last one
    /// that is complete in the end, and 1 for each row.
    pub fn advance<S: AggStore<M>, L>(
        &mut self,
        defs: &Defs,
        window: u32,
        store: &S,
        key: &KeyText,
        old: u64,
        new: u64,
        out: &mut Vec<Change>,
        steps: &mut Steps<L>,
    )
        requires follows { MayFollow defs.now.windows window (S.stored store.now) old new }
        requires order { old ≤ new }
        requires serves { ShowsWindow M.serves defs.now.windows window }
        requires room { OfWindow defs.now.windows window
            (λ w. HasRoomFor w.kind (S.stored store.now) old new self.old) }
        requires spare { OfWindow defs.now.windows window
            (λ w. row_count w.kind (S.stored store.now) old new ≤ room out.old) }
        ensures changes { WhereMayMove M.of_values defs.now.windows window
            (S.stored store.now) old self.old
            (λ def m. out.new.items ≡ out.old.items ++ completions key.now m new (window, def)) }
        ensures knows { OfWindow defs.now.windows window
            (λ w. KnowsOn M.of_values w.kind (S.stored store.now) old new self.old self.new) }
        ensures knows_all { OfWindow defs.now.windows window
            (λ w. MissesNoSlice w.kind new (S.stored store.now) self.new) }
        ensures number { OfWindow defs.now.windows window
            (λ w. GrowsBy (row_count w.kind (S.stored store.now) old new) out.old out.new) }
        ensures capacity { vec_capacity out.new ≡ vec_capacity out.old }
        ensures cost { ByCompleted M.of_values defs.now.windows window
            (S.stored store.now) old new self.old (λ slices rows. steps.new + self.new.credit
            ≤ steps.old + self.old.credit + 10 * slices + rows) }
        ensures cost_touched { ByTouched M.of_values defs.now.windows window
            (S.stored store.now) old new self.old (λ slices rows. steps.new + self.new.credit
            ≤ steps.old + self.old.credit + 10 * slices + rows) }
        ensures work { ByOpen M.of_values defs.now.windows window (S.stored store.now) old new
            self.old (λ slices rows. steps.new ≤ steps.old + 10 * slices + rows) }
    {
        let Served { def, span } = serve(defs, window);
        let owner = Owner {
            window,
            key,
            func: def.func,
        };
        self.refresh();
        let start = span.next_start(old);
        let told = tell_due(&mut self.held, owner, &span, store, start, new, out, steps);
        let next = span.next_start(new);
        self.held.shed(store, told, next, steps);
        self.held.pull(store, next, span.last_end(new), steps);
    }

    // Lets all go where a slice has changed since it was taken up.
    fn refresh(&mut self)
        ensures { IsRefreshed self.old self.new }
    {
        if self.stale {
            self.held.clear();
            self.stale = false;
        }
        self.held.vouch();
    }

    /// How many changes `late` appends for a tuple at a time: one for each complete interval that
    /// holds it.
    pub fn late_count(&self, defs: &Defs, window: u32, time: u64, water: u64) -> u64
        requires { MayComeTo defs.now.windows window time water }
        ensures number { OfWindow defs.now.windows window
            (λ w. result ≡ number_holding w.kind time water) }
        ensures changes { OfEachTuple defs.now.windows window time water
            (λ def key m x. result ≡ length (emissions key m (with_tuple m x) (window, def))) }
    {
        let def = window_at(defs, window);
        complete_at(&Span::of(&def.kind), time, water).count
    }

    /// Appends what stands of each complete interval that holds a time, by their starts: `None`
    /// where it selects no tuple. Called before the store takes in a tuple of that time;
    /// `late_count` says how many there are.
    pub fn formers<S: AggStore<M>, L>(
        &self,
        defs: &Defs,
        window: u32,
        store: &S,
        time: u64,
        water: u64,
        into: &mut Vec<Option<Former>>,
        steps: &mut Steps<L>,
    )
        requires comes { MayComeTo defs.now.windows window time water }
        requires sliced { IsSliced defs.now.windows (S.stored store.now) }
        requires serves { ShowsWindow M.serves defs.now.windows window }
        requires spare { OfWindow defs.now.windows window
            (λ w. number_holding w.kind time water ≤ room into.old) }
        ensures formers { WhereApart defs.now.windows window (S.stored store.now) time
            (λ def kept. into.new.items ≡ into.old.items ++ formers_of def time water kept) }
        ensures number { OfWindow defs.now.windows window
            (λ w. GrowsBy (number_holding w.kind time water) into.old into.new) }
        ensures work { AppendsWithin (64 * ((S.stored store.now).reach + 2)) into.old into.new
            steps.old steps.new }
        ensures shared { SharesAt defs.now.windows window time water
            (S.stored store.now) steps.old steps.new }
    {
        let Served { def, span } = serve(defs, window);
        let found = complete_at(&span, time, water);
        append_formers(def.func, &span, store, found, into, steps);
    }

    /// Appends exactly the changes of a tuple that the store has just taken in: one for each
    /// complete interval that selects it, by their starts. It is new where the interval selects that
    /// tuple alone, and else an update with what stood, which `formers` told before. A tuple
    /// retracts no interval. Where the order of values makes no difference, what stood and the
    /// tuple's value tell all, and no slice is folded.
    pub fn late<S: AggStore<M>, L>(
        &self,
        defs: &Defs,
        window: u32,
        store: &S,
        key: &KeyText,
        time: u64,
        value: i64,
        water: u64,
        formers: &[Option<Former>],
        out: &mut Vec<Change>,
        steps: &mut Steps<L>,
    )
        requires comes { MayComeTo defs.now.windows window time water }
        requires sliced { IsSliced defs.now.windows (S.stored store.now) }
        requires serves { ShowsWindow M.serves defs.now.windows window }
        requires formers { OfWindow defs.now.windows window
            (λ w. number_holding w.kind time water ≤ length formers.now) }
        requires spare { OfWindow defs.now.windows window
            (λ w. number_holding w.kind time water ≤ room out.old) }
        ensures changes { WhereLate defs.now.windows window
            (S.stored store.now) time value water formers.now (λ def m x. out.new.items
            ≡ out.old.items ++ emissions key.now m (with_tuple m x) (window, def)) }
        ensures number { OfWindow defs.now.windows window
            (λ w. GrowsBy (number_holding w.kind time water) out.old out.new) }
        ensures work { AppendsWithin (64 * ((S.stored store.now).reach + 2)) out.old out.new
            steps.old steps.new }
        ensures shared { SharesAt defs.now.windows window time water
            (S.stored store.now) steps.old steps.new }
        ensures order_free { OfWindow defs.now.windows window
            (λ w. is_order_free w.func ≡ true → steps.new ≡ steps.old) }
    {
        let Served { def, span } = serve(defs, window);
        let owner = Owner {
            window,
            key,
            func: def.func,
        };
        let found = complete_at(&span, time, water);
        if is_order_free(def.func) {
            // 64 bits count the tuples of a store.
            store.slice_count();
            append_joined(owner, &span, found, value, formers, out);
        } else {
            append_late(owner, &span, store, found, formers, out, steps);
        }
    }

    /// When the first interval ends that holds a tuple and ends after a watermark, and the final time
    /// where there is none: a move of the watermark to before it completes nothing.
    pub fn next_end<S: AggStore<M>>(&self, defs: &Defs, window: u32, store: &S, water: u64) -> u64
        requires { IsServedUnder defs.now.windows window (S.stored store.now) water }
        ensures { AtMoments defs.now.windows window (S.stored store.now) water
            (λ def m. result ≡ first_open m def) }
    {
        let Served { span, .. } = serve(defs, window);
        end_from(store, &span, span.next_start(water))
    }

    /// The start of the first interval that ends after a time: tuples before it lie in none of those.
    pub fn next_start(&self, defs: &Defs, window: u32, time: u64) -> u64
        requires served { is_served defs.now.windows window ≡ true }
        requires time { time ≤ FINAL }
        ensures { OfWindow defs.now.windows window (λ w. result ≡ next_start_of w.kind time) }
    {
        let def = window_at(defs, window);
        Span::of(&def.kind).next_start(time)
    }

    /// The end of the last interval that holds a time: tuples at it lie in none that ends later.
    pub fn last_end_holding(&self, defs: &Defs, window: u32, time: u64) -> u64
        requires { MayHold defs.now.windows window time }
        ensures end { OfWindow defs.now.windows window
            (λ w. result ≡ last_end_holding_of w.kind time) }
        ensures within { result ≤ TIME_MAX + TIME_MAX }
    {
        let def = window_at(defs, window);
        Span::of(&def.kind).last_end_holding(time)
    }

    /// Tells the lane that a slice which holds a time was changed other than at its end, as by a
    /// tuple or a mark before the watermark. What it held of earlier slices it goes on to know.
    pub fn touched(&mut self, time: u64)
        ensures stale { self.new.stale ≡ (self.old.stale || nat_lt time self.old.to) }
        ensures same { HoldsTheSame self.old self.new }
        ensures knows { WhereSameUpTo time
            (λ kind water old new. Knows M.of_values kind water old self.old
            → Knows M.of_values kind water new self.new) }
        ensures knows_all { WhereSameUpTo time (λ kind water old new. last_end_by kind water ≤ time
            → Knows M.of_values kind water old self.old → MissesNoSlice kind water old self.old
            → MissesNoSlice kind water new self.new) }
    {
        self.stale = self.stale || time < self.held.to();
    }
}
