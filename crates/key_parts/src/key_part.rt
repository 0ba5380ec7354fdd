//! What the part of one window in the state of a key promises.
ghost use Rattle.std.specs.Prelude.{◌≡◌, ◌≤◌, ◌<◌, ◌*◌, [], ℕ, length};
ghost use Rattle.stream_base.specs.Model.Changes.{Moment};
ghost use Rattle.stream_base.specs.Model.Moments.{moment};
ghost use Rattle.stream_base.specs.Vectors.{room};
ghost use Rattle.agg_store.specs.Stored.{Stored};
ghost use Rattle.key_windows.specs.Calls.{IsAccepted};
ghost use Rattle.key_parts.specs.Calls.{MayCome, MayLeadTo, MayMove, MayTell, MissesNoMore, StandsAsBefore, StandsAt, StandsForSome, StandsOnUnder, window_kind};
ghost use Rattle.key_parts.specs.Promises.{AddsByMark, AddsByMove, AddsByTuple, AheadAfterLoss, AheadMoved, AheadOfMark, AheadOfTuple, MarkComes, NoneCompleteBefore, PaysAhead, PaysBehind, PreparesEntry, PreparesMove, SettlesTo, SettlesToEach, SomeCompleteAt, StandsAfterLoss, StandsMoved, StandsWithMark, StandsWithTuple, StepsAtMost, TupleComes, WasAsked};
ghost use Rattle.key_parts.specs.Work.{AddsAtMost, SpendsOn, added, change_work, fold_work};

use agg_laws::Steps;
use agg_store::AggStore;
use aggregates::Partial;
use std::alloc::Global;
use stream_base::{Change, Defs, Kept, KeyText, Kind, NoMemory};

/// The part of one window in the state of a key. The tuples lie in the store of slices that all parts
/// of a key share, which takes a tuple or a mark in before the parts do. `put`, `mark` and `water`
/// append exactly the window's changes, retractions first; a call that makes room comes before each
/// of them, with the same arguments, and answers for how many changes to have room.
///
/// The definitions and the window that a call is handed are those of every call before it. A clause
/// that speaks of what is known of the key holds for all that the part stands for.
pub trait KeyPart<M: Partial>: Drop {
    ghost use Rattle.std.specs.Prelude.{ℕ, Bool};
    ghost use Rattle.stream_base.specs.declared.kind.Kind.{Kind};
    ghost use Rattle.stream_base.specs.Limits.{Definitions};
    ghost use Rattle.stream_base.specs.Model.Changes.{Moment};
    ghost use Rattle.agg_store.specs.Stored.{Stored};
    ghost use Rattle.key_parts.specs.PartLaws.{AheadUntold, AheadWithRoom, EndsInTime, IsForServed, StandsUntold, StandsWithRoom, WaitsForMore};

    /// Whether it serves windows of a kind.
    ghost serves_kind: { Kind → Bool };

    /// The window at a place of the definitions is of the kind that it is for, and its function can
    /// be shown.
    ghost is_for: { Definitions → ℕ → Type 0 };

    /// For the window at a place of the definitions it stands for what is known of a key, of which
    /// this store lacks so many first tuples.
    ghost stands: { Definitions → ℕ → Moment → ℕ → Stored → Self → Type 0 };

    /// It has kept what stands of the instances that a tuple at a time changes.
    ghost is_asked: { Definitions → ℕ → Moment → ℕ → Self → Type 0 };

    /// Of how many instances it has kept what stands.
    ghost owed: { Self → ℕ };

    /// It has room for a tuple or a mark at a time under a watermark.
    ghost is_ready: { Definitions → ℕ → ℕ → ℕ → Self → Type 0 };

    /// How many changes a tuple at a time appends at most under a watermark.
    ghost put_room: { Definitions → ℕ → ℕ → ℕ → Self → ℕ };

    /// How many changes a mark at a time appends at most under a watermark.
    ghost mark_room: { Definitions → ℕ → ℕ → ℕ → Self → ℕ };

    /// It has room for a move from one watermark to another, with this store.
    ghost can_move: { Definitions → ℕ → Stored → ℕ → ℕ → Self → Type 0 };

    /// How many changes that move appends at most.
    ghost move_room: { Definitions → ℕ → Stored → ℕ → ℕ → Self → ℕ };

    /// What is left of the steps that were paid for.
    ghost credit: { Self → ℕ };

    /// Up to this time instances are complete at a watermark whose slices it takes up but once.
    ghost complete_by: { Definitions → ℕ → ℕ → ℕ };

    /// It has missed none of those slices at a watermark, with this store.
    ghost is_ahead: { Definitions → ℕ → ℕ → Stored → Self → Type 0 };

    /// How many slices lie in the instances that a move from one watermark to another completes.
    ghost taken_up: { Definitions → ℕ → Stored → ℕ → ℕ → ℕ };

    /// How many lie in the last one that is complete at a watermark.
    ghost missed: { Definitions → ℕ → Stored → ℕ → ℕ };

    /// Before this time tuples are settled in the window at a watermark, and from it on they aren't.
    ghost settles_at: { Definitions → ℕ → ℕ → Self → ℕ };

    /// Of what nothing can need any more at a watermark it keeps little.
    ghost is_lean: { Definitions → ℕ → ℕ → Self → Type 0 };

    /// Whether it serves windows of this kind.
    fn can_serve(kind: &Kind) -> bool
        ensures { result ≡ serves_kind kind.now };

    /// No tuple and no mark yet.
    fn fresh(alloc: Global, defs: &Defs, window: u32) -> Self
        requires within { window < length (defs.now).windows }
        requires kind { is_for defs.now window }
        ensures stands { (water : ℕ) (s : Stored) → s.slices ≡ []
            → stands defs.now window (moment [] [] water) 0 s result }
        ensures credit { credit result ≡ 0 }
        ensures ahead { (water : ℕ) (s : Stored) → s.slices ≡ []
            → is_ahead defs.now window water s result };

    /// Makes room for a tuple at a time, and answers for how many changes.
    fn reserve_put(
        &mut self,
        defs: &Defs,
        window: u32,
        time: u64,
        water: u64,
    ) -> Result<u64, NoMemory>
        requires { (s : Stored)
            × MayCome (StandsAt stands defs.now window) time water s self.old }
        ensures { PreparesEntry stands is_ahead credit is_ready put_room defs.now window
            time water self.old self.new result };

    /// Keeps what stands of the instances that a tuple at a time changes. It is called before the
    /// store takes the tuple in.
    fn before<S: AggStore<M>, L>(
        &mut self,
        defs: &Defs,
        window: u32,
        store: &S,
        time: u64,
        water: u64,
        steps: &mut Steps<L>,
    )
        requires stands { StandsForSome (StandsAt stands defs.now window) water
            (S.stored store.now) self.old }
        requires accepted { IsAccepted defs.now time water }
        requires ready { is_ready defs.now window time water self.old }
        ensures stays { StandsAsBefore (stands defs.now window) self.old self.new }
        ensures asked { WasAsked stands defs.now window is_asked time water (S.stored store.now)
            self.old self.new }
        ensures ready { is_ready defs.now window time water self.new }
        ensures room { put_room defs.now window time water self.new
            ≡ put_room defs.now window time water self.old }
        ensures cost { SpendsOn credit (fold_work (S.stored store.now).reach * owed self.new)
            self.old self.new steps.old steps.new }
        ensures ahead { MissesNoMore (is_ahead defs.now window) self.old self.new };

    /// Takes in a tuple that the store has taken in, or that is settled at once where each window
    /// counts events.
    fn put<S: AggStore<M>, L>(
        &mut self,
        defs: &Defs,
        window: u32,
        store: &S,
        key: &KeyText,
        x: Kept,
        water: u64,
        out: &mut Vec<Change>,
        steps: &mut Steps<L>,
    )
        requires takes { TupleComes stands defs.now window is_asked water x (S.stored store.now)
            self.old }
        requires ready { is_ready defs.now window x.time water self.old }
        requires spare { put_room defs.now window x.time water self.old ≤ room out.old }
        ensures stands { StandsWithTuple stands defs.now window is_asked water x (S.stored
            store.now) self.old self.new }
        ensures changes { AddsByTuple stands defs.now window is_asked water x (S.stored
            store.now) self.old key.now out.old out.new }
        ensures adds { AddsAtMost (put_room defs.now window x.time water self.old)
            out.old out.new }
        ensures owed { owed self.old ≤ added out.old out.new }
        ensures lean { is_lean defs.now window water self.new }
        ensures cost { SpendsOn credit (change_work (window_kind defs.now window) (S.stored
            store.now).reach * added out.old out.new) self.old self.new steps.old steps.new }
        ensures ahead { AheadOfTuple stands defs.now window is_asked complete_by is_ahead water x
            (S.stored store.now) self.old self.new };

    /// Makes room for a mark at a time, and answers for how many changes.
    fn reserve_mark(
        &mut self,
        defs: &Defs,
        window: u32,
        time: u64,
        water: u64,
    ) -> Result<u64, NoMemory>
        requires { (s : Stored)
            × MayCome (StandsAt stands defs.now window) time water s self.old }
        ensures { PreparesEntry stands is_ahead credit is_ready mark_room defs.now window
            time water self.old self.new result };

    /// Takes in a mark that the store has taken in.
    fn mark<S: AggStore<M>, L>(
        &mut self,
        defs: &Defs,
        window: u32,
        store: &S,
        key: &KeyText,
        time: u64,
        water: u64,
        out: &mut Vec<Change>,
        steps: &mut Steps<L>,
    )
        requires takes { MarkComes stands defs.now window water time (S.stored store.now) self.old }
        requires ready { is_ready defs.now window time water self.old }
        requires spare { mark_room defs.now window time water self.old ≤ room out.old }
        ensures stands { StandsWithMark stands defs.now window water time (S.stored store.now)
            self.old self.new }
        ensures changes { AddsByMark stands defs.now window water time (S.stored store.now)
            self.old key.now out.old out.new }
        ensures adds { AddsAtMost (mark_room defs.now window time water self.old)
            out.old out.new }
        ensures cost { SpendsOn credit (fold_work (S.stored store.now).reach
            * added out.old out.new) self.old self.new steps.old steps.new }
        ensures ahead { AheadOfMark stands defs.now window complete_by is_ahead water time
            (S.stored store.now) self.old self.new };

    /// Makes room for a move of the watermark, and answers for how many changes.
    fn reserve_water<S: AggStore<M>>(
        &mut self,
        defs: &Defs,
        window: u32,
        store: &S,
        old: u64,
        new: u64,
    ) -> Result<u64, NoMemory>
        requires { MayMove (StandsAt stands defs.now window) old new
            (S.stored store.now) self.old }
        ensures { PreparesMove stands is_ahead credit can_move move_room defs.now window (S.stored
            store.now) old new self.old self.new result };

    /// Takes in a move of the watermark, and appends the instances that it completes. With no credit
    /// it is bounded by the slices of the store and the rows.
    fn water<S: AggStore<M>, L>(
        &mut self,
        defs: &Defs,
        window: u32,
        store: &S,
        key: &KeyText,
        old: u64,
        new: u64,
        out: &mut Vec<Change>,
        steps: &mut Steps<L>,
    )
        requires moves { MayMove (StandsAt stands defs.now window) old new
            (S.stored store.now) self.old }
        requires ready { can_move defs.now window (S.stored store.now) old new self.old }
        requires spare { move_room defs.now window (S.stored store.now) old new self.old
            ≤ room out.old }
        ensures stands { StandsMoved stands defs.now window old new (S.stored store.now)
            self.old self.new }
        ensures changes { AddsByMove stands defs.now window old new (S.stored store.now)
            self.old key.now out.old out.new }
        ensures adds { AddsAtMost
            (move_room defs.now window (S.stored store.now) old new self.old) out.old out.new }
        ensures ahead { AheadMoved stands defs.now window is_ahead old new (S.stored store.now)
            self.old self.new }
        ensures work_ahead { PaysAhead stands defs.now window is_ahead credit taken_up old new
            (S.stored store.now) self.old self.new (added out.old out.new) steps.old steps.new }
        ensures work { PaysBehind stands defs.now window credit taken_up missed old new (S.stored
            store.now) self.old self.new (added out.old out.new) steps.old steps.new }
        ensures bound { StepsAtMost stands defs.now window old (S.stored store.now) self.old
            (added out.old out.new) steps.old steps.new };

    /// The first watermark at which something becomes complete: a move to below it changes nothing.
    /// Later than the final one where nothing is left to become so.
    fn next_due<S: AggStore<M>>(&self, defs: &Defs, window: u32, store: &S, water: u64) -> u64
        requires { StandsForSome (StandsAt stands defs.now window) water
            (S.stored store.now) self.now }
        ensures none_before { NoneCompleteBefore stands defs.now window water (S.stored store.now)
            self.now result }
        ensures some_at { SomeCompleteAt stands defs.now window water (S.stored store.now)
            self.now result };

    /// From which time on tuples aren't settled in the window under a watermark, its own or a later
    /// one; later than any time where all are.
    fn first_unsettled(&self, defs: &Defs, window: u32, water: u64) -> u64
        requires { MayLeadTo (StandsAt stands defs.now window) water self.now }
        ensures value { result ≡ settles_at defs.now window water self.now }
        ensures settles { SettlesTo stands defs.now window water self.now result };

    /// By which watermark tuples at a time are settled in the window, and by none before.
    fn settled_by(&self, defs: &Defs, window: u32, time: u64) -> u64
        requires { MayTell (StandsAt stands defs.now window) time self.now }
        ensures before { (water : ℕ) → water < result
            → settles_at defs.now window water self.now ≤ time }
        ensures by_then { (water : ℕ) → result ≤ water
            → time < settles_at defs.now window water self.now }
        ensures settles { SettlesToEach stands defs.now window self.now (λ water. settles_at
            defs.now window water self.now) };

    /// Forgets what has ended by the watermark minus the lateness, where settled slices have left
    /// the store.
    fn drop_settled(&mut self, defs: &Defs, window: u32, water: u64)
        requires { window < length (defs.now).windows }
        ensures stands { StandsAfterLoss stands defs.now window settles_at water self.old self.new }
        ensures credit { credit self.new ≡ credit self.old }
        ensures ahead { AheadAfterLoss stands defs.now window is_ahead water self.old self.new };

    /// Lets leave what nothing can need any more at a watermark, where there is much of it.
    fn drop_needless(&mut self, defs: &Defs, window: u32, water: u64)
        requires { (m : Moment) × (n : ℕ) × (s : Stored) × stands defs.now window m n s self.old }
        ensures lean { is_lean defs.now window water self.new }
        ensures stands { StandsOnUnder (stands defs.now window) water self.old self.new }
        ensures credit { credit self.new ≡ credit self.old }
        ensures ahead { MissesNoMore (is_ahead defs.now window) self.old self.new };

    /// It is for each window of the definitions whose kind it serves and whose function M shows.
    ghost is_for_served: { IsForServed serves_kind M.serves is_for };

    /// What it stands for has nothing to do with the room of the store.
    ghost stands_with_room: { StandsWithRoom stands };

    /// And neither has what it missed.
    ghost ahead_with_room: { AheadWithRoom is_ahead };

    /// Up to a later watermark at which nothing becomes complete it stands for the same.
    ghost waits: { WaitsForMore stands };

    /// What is complete at a watermark ends by it.
    ghost complete_in_time: { EndsInTime complete_by };

    /// Where its window is tumbling or sliding it need not be told of a tuple that the store took in
    /// at or behind the watermark: it stands for what is known of the key then, too.
    ghost stands_with_tuple: { StandsUntold stands };

    /// And it has missed nothing by it.
    ghost ahead_with_tuple: { AheadUntold stands is_ahead };
}
