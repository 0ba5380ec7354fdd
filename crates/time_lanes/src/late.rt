//! The complete intervals that hold a time: what stood of them, and what a late tuple changes.
ghost use Rattle.std.specs.Prelude.{◌≡◌, ◌≤◌, ◌<◌, ◌+◌, ◌*◌, ◌++◌, length, ℕ};
ghost use Rattle.stream_base.specs.declared.limits.TheConstants.{FINAL, TIME_MAX};
ghost use Rattle.stream_base.specs.Vectors.{Adds, room};
ghost use Rattle.slice_lists.specs.Runs.{runs_within};
ghost use Rattle.agg_store.specs.Stored.{IsStore};
ghost use Rattle.time_lanes.specs.Folds.{IsShared, MayShare, TakesAlone, TakesShared, fold_between};
ghost use Rattle.time_lanes.specs.Told.{again_or_new, complete_starts, ended};
ghost use Rattle.time_lanes.specs.Walks.{MayFold, StartsAt};
ghost use Rattle.time_lanes.specs.Intervals.{formers_in, starts_in, told_again};

use crate::folds::{FEW, MOST, may_share, show_together};
use crate::owner::{Owner, former, show};
use crate::span::Span;
use agg_laws::Steps;
use agg_store::AggStore;
use aggregates::Partial;
use stream_base::{Change, Former, Func, Row, Shown};

// What an interval shows that isn't folded yet.
const NOTHING: Former = Former {
    number: 0,
    shown: Shown::Whole(0),
};

/// The complete intervals that hold a time: the number of the first, and how many there are.
#[derive(Clone, Copy)]
pub struct Complete {
    pub first: u64,
    pub count: u64,
}

/// The complete intervals that hold a time. Where the watermark hasn't passed it there are none, and
/// nothing is divided.
pub fn complete_at(span: &Span, time: u64, water: u64) -> Complete
    requires time { time ≤ TIME_MAX }
    requires water { water ≤ FINAL }
    ensures starts { complete_starts span.now.length span.now.slide time water
        ≡ starts_in span.now result }
    ensures number { result.count
        ≡ length (complete_starts span.now.length span.now.slide time water) }
    ensures within { (k : ℕ) → k < result.count
        → (result.first + k) * span.now.slide ≤ time }
    ensures holds { (k : ℕ) → k < result.count
        → time < (result.first + k) * span.now.slide + span.now.length }
{
    if water <= time {
        return Complete { first: 0, count: 0 };
    }
    let first = (time + span.slide).saturating_sub(span.length) / span.slide;
    let holding = time / span.slide + 1;
    Complete {
        first,
        count: holding.min(ended(span, water)).saturating_sub(first),
    }
}

// How many intervals end at or before a watermark.
fn ended(span: &Span, water: u64) -> u64
    requires { water ≤ FINAL }
    ensures { result ≡ ended span.now.length span.now.slide water }
{
    if water < span.length {
        0
    } else {
        (water - span.length) / span.slide + 1
    }
}

/// Appends what stood of each. Those that are close are folded together, 64 at once.
pub fn append_formers<M: Partial, S: AggStore<M>, L>(
    func: Func,
    span: &Span,
    store: &S,
    complete: Complete,
    into: &mut Vec<Option<Former>>,
    steps: &mut Steps<L>,
)
    requires intervals { MayFold span.now (S.stored store.now).slices complete }
    requires serves { M.serves func }
    requires spare { complete.count ≤ room into.old }
    ensures told { into.new.items
        ≡ into.old.items ++ formers_in func span.now (S.stored store.now) complete }
    ensures adds { Adds complete.count into.old into.new }
    ensures cost { steps.new ≤ steps.old + 64 * ((S.stored store.now).reach + 2) * complete.count }
    ensures shared { IsShared span.now (S.stored store.now).slices complete steps.old steps.new }
{
    let mut done = 0;
    while done < complete.count {
        let group = Complete {
            first: complete.first + done,
            count: (complete.count - done).min(MOST as u64),
        };
        append_some_formers(func, span, store, group, into, steps);
        done += group.count;
    }
}

// The same of at most so many.
fn append_some_formers<M: Partial, S: AggStore<M>, L>(
    func: Func,
    span: &Span,
    store: &S,
    complete: Complete,
    into: &mut Vec<Option<Former>>,
    steps: &mut Steps<L>,
)
    requires intervals { MayFold span.now (S.stored store.now).slices complete }
    requires serves { M.serves func }
    requires spare { complete.count ≤ room into.old }
    ensures told { into.new.items
        ≡ into.old.items ++ formers_in func span.now (S.stored store.now) complete }
    ensures adds { Adds complete.count into.old into.new }
    ensures cost { steps.new ≤ steps.old + 64 * ((S.stored store.now).reach + 2) * complete.count }
    ensures shared { IsShared span.now (S.stored store.now).slices complete steps.old steps.new }
{
    if may_share(span, store, complete) {
        append_shared_formers(func, span, store, complete, into, steps);
    } else {
        append_each_former(func, span, store, complete, into, steps);
    }
}

// Appends what stood of each, folded on its own.
fn append_each_former<M: Partial, S: AggStore<M>, L>(
    func: Func,
    span: &Span,
    store: &S,
    complete: Complete,
    into: &mut Vec<Option<Former>>,
    steps: &mut Steps<L>,
)
    requires intervals { MayFold span.now (S.stored store.now).slices complete }
    requires serves { M.serves func }
    requires spare { complete.count ≤ room into.old }
    ensures told { into.new.items
        ≡ into.old.items ++ formers_in func span.now (S.stored store.now) complete }
    ensures adds { Adds complete.count into.old into.new }
    ensures cost { steps.new ≤ steps.old + 64 * ((S.stored store.now).reach + 2) * complete.count }
    ensures alone { TakesAlone span.now (S.stored store.now).slices complete steps.old steps.new }
{
    for k in 0..complete.count {
        let low = (complete.first + k) * span.slide;
        let folded = fold_interval(span, store, low, steps);
        into.push_reserved(former(show(func, &folded)));
    }
}

// Appends what stood of each, folded together.
fn append_shared_formers<M: Partial, S: AggStore<M>, L>(
    func: Func,
    span: &Span,
    store: &S,
    complete: Complete,
    into: &mut Vec<Option<Former>>,
    steps: &mut Steps<L>,
)
    requires intervals { MayFold span.now (S.stored store.now).slices complete }
    requires serves { M.serves func }
    requires share { MayShare span.now (S.stored store.now).slices complete }
    requires holds { IsStore (S.stored store.now) }
    requires spare { complete.count ≤ room into.old }
    ensures told { into.new.items
        ≡ into.old.items ++ formers_in func span.now (S.stored store.now) complete }
    ensures adds { Adds complete.count into.old into.new }
    ensures cost { TakesShared span.now (S.stored store.now).slices complete steps.old steps.new }
{
    if complete.count <= FEW as u64 {
        let mut shown = [NOTHING; FEW];
        append_shown_formers(func, span, store, complete, &mut shown, into, steps);
    } else {
        let mut shown = [NOTHING; MOST];
        append_shown_formers(func, span, store, complete, &mut shown, into, steps);
    }
}

// The same, with places for what so many show at least.
fn append_shown_formers<M: Partial, S: AggStore<M>, L>(
    func: Func,
    span: &Span,
    store: &S,
    complete: Complete,
    shown: &mut [Former],
    into: &mut Vec<Option<Former>>,
    steps: &mut Steps<L>,
)
    requires intervals { MayFold span.now (S.stored store.now).slices complete }
    requires serves { M.serves func }
    requires share { MayShare span.now (S.stored store.now).slices complete }
    requires holds { IsStore (S.stored store.now) }
    requires places { complete.count ≤ length shown.old }
    requires spare { complete.count ≤ room into.old }
    ensures told { into.new.items
        ≡ into.old.items ++ formers_in func span.now (S.stored store.now) complete }
    ensures adds { Adds complete.count into.old into.new }
    ensures cost { TakesShared span.now (S.stored store.now).slices complete steps.old steps.new }
{
    show_together(func, span, store, complete, shown, steps);
    let shown = &shown[..];
    for k in 0..complete.count {
        into.push_reserved(former(shown[k as usize]));
    }
}

/// Appends each as it shows now, with what stood of it before. Those that are close are folded
/// together, 64 at once.
pub fn append_late<M: Partial, S: AggStore<M>, L>(
    owner: Owner,
    span: &Span,
    store: &S,
    complete: Complete,
    formers: &[Option<Former>],
    out: &mut Vec<Change>,
    steps: &mut Steps<L>,
)
    requires intervals { MayFold span.now (S.stored store.now).slices complete }
    requires serves { M.serves owner.func }
    requires formers { complete.count ≤ length formers.now }
    requires spare { complete.count ≤ room out.old }
    ensures told { out.new.items ≡ out.old.items
        ++ told_again owner.entry span.now (S.stored store.now) complete formers.now }
    ensures adds { Adds complete.count out.old out.new }
    ensures cost { steps.new ≤ steps.old + 64 * ((S.stored store.now).reach + 2) * complete.count }
    ensures shared { IsShared span.now (S.stored store.now).slices complete steps.old steps.new }
{
    let mut done = 0;
    while done < complete.count {
        let group = Complete {
            first: complete.first + done,
            count: (complete.count - done).min(MOST as u64),
        };
        let stood = &formers[done as usize..];
        append_some_late(owner, span, store, group, stood, out, steps);
        done += group.count;
    }
}

// The same of at most so many.
fn append_some_late<M: Partial, S: AggStore<M>, L>(
    owner: Owner,
    span: &Span,
    store: &S,
    complete: Complete,
    formers: &[Option<Former>],
    out: &mut Vec<Change>,
    steps: &mut Steps<L>,
)
    requires intervals { MayFold span.now (S.stored store.now).slices complete }
    requires serves { M.serves owner.func }
    requires formers { complete.count ≤ length formers.now }
    requires spare { complete.count ≤ room out.old }
    ensures told { out.new.items ≡ out.old.items
        ++ told_again owner.entry span.now (S.stored store.now) complete formers.now }
    ensures adds { Adds complete.count out.old out.new }
    ensures cost { steps.new ≤ steps.old + 64 * ((S.stored store.now).reach + 2) * complete.count }
    ensures shared { IsShared span.now (S.stored store.now).slices complete steps.old steps.new }
{
    if may_share(span, store, complete) {
        append_shared_late(owner, span, store, complete, formers, out, steps);
    } else {
        append_each_late(owner, span, store, complete, formers, out, steps);
    }
}

// Appends each as it shows now, folded on its own.
fn append_each_late<M: Partial, S: AggStore<M>, L>(
    owner: Owner,
    span: &Span,
    store: &S,
    complete: Complete,
    formers: &[Option<Former>],
    out: &mut Vec<Change>,
    steps: &mut Steps<L>,
)
    requires intervals { MayFold span.now (S.stored store.now).slices complete }
    requires serves { M.serves owner.func }
    requires formers { complete.count ≤ length formers.now }
    requires spare { complete.count ≤ room out.old }
    ensures told { out.new.items ≡ out.old.items
        ++ told_again owner.entry span.now (S.stored store.now) complete formers.now }
    ensures adds { Adds complete.count out.old out.new }
    ensures cost { steps.new ≤ steps.old + 64 * ((S.stored store.now).reach + 2) * complete.count }
    ensures alone { TakesAlone span.now (S.stored store.now).slices complete steps.old steps.new }
{
    for k in 0..complete.count {
        let low = (complete.first + k) * span.slide;
        let folded = fold_interval(span, store, low, steps);
        let shown = show(owner.func, &folded);
        let row = owner.row(low, low + span.length, shown);
        out.push_reserved(told(row, formers[k as usize]));
    }
}

// Appends each as it shows now, folded together.
fn append_shared_late<M: Partial, S: AggStore<M>, L>(
    owner: Owner,
    span: &Span,
    store: &S,
    complete: Complete,
    formers: &[Option<Former>],
    out: &mut Vec<Change>,
    steps: &mut Steps<L>,
)
    requires intervals { MayFold span.now (S.stored store.now).slices complete }
    requires serves { M.serves owner.func }
    requires formers { complete.count ≤ length formers.now }
    requires share { MayShare span.now (S.stored store.now).slices complete }
    requires holds { IsStore (S.stored store.now) }
    requires spare { complete.count ≤ room out.old }
    ensures told { out.new.items ≡ out.old.items
        ++ told_again owner.entry span.now (S.stored store.now) complete formers.now }
    ensures adds { Adds complete.count out.old out.new }
    ensures cost { TakesShared span.now (S.stored store.now).slices complete steps.old steps.new }
{
    if complete.count <= FEW as u64 {
        let mut shown = [NOTHING; FEW];
        append_shown_late(
            owner, span, store, complete, formers, &mut shown, out, steps,
        );
    } else {
        let mut shown = [NOTHING; MOST];
        append_shown_late(
            owner, span, store, complete, formers, &mut shown, out, steps,
        );
    }
}

// The same, with places for what so many show at least.
fn append_shown_late<M: Partial, S: AggStore<M>, L>(
    owner: Owner,
    span: &Span,
    store: &S,
    complete: Complete,
    formers: &[Option<Former>],
    shown: &mut [Former],
    out: &mut Vec<Change>,
    steps: &mut Steps<L>,
)
    requires intervals { MayFold span.now (S.stored store.now).slices complete }
    requires serves { M.serves owner.func }
    requires formers { complete.count ≤ length formers.now }
    requires share { MayShare span.now (S.stored store.now).slices complete }
    requires holds { IsStore (S.stored store.now) }
    requires places { complete.count ≤ length shown.old }
    requires spare { complete.count ≤ room out.old }
    ensures told { out.new.items ≡ out.old.items
        ++ told_again owner.entry span.now (S.stored store.now) complete formers.now }
    ensures adds { Adds complete.count out.old out.new }
    ensures cost { TakesShared span.now (S.stored store.now).slices complete steps.old steps.new }
{
    show_together(owner.func, span, store, complete, shown, steps);
    let shown = &shown[..];
    for k in 0..complete.count {
        let low = (complete.first + k) * span.slide;
        let row = owner.row(low, low + span.length, shown[k as usize]);
        let stood = formers[k as usize];
        out.push_reserved(told(row, stood));
    }
}

// The fold of the interval that starts so.
fn fold_interval<M: Partial, S: AggStore<M>, L>(
    span: &Span,
    store: &S,
    low: u64,
    steps: &mut Steps<L>,
) -> M
    requires { StartsAt span.now (S.stored store.now).slices low }
    ensures value { result
        ≡ fold_between M.of_values (S.stored store.now) low (low + span.now.length) }
    ensures one_each { steps.new ≤ steps.old
        + length (runs_within low (low + span.now.length) (S.stored store.now).slices) }
    ensures cost { steps.new ≤ steps.old + 64 * ((S.stored store.now).reach + 2) }
    ensures holds { IsStore (S.stored store.now) }
{
    store.fold(low, low + span.length, steps)
}

// The change of an interval that holds a late tuple.
fn told(row: Row, former: Option<Former>) -> Change
    ensures { result ≡ again_or_new former row }
{
    match former {
        Some(former) => Change::Again { row, former },
        None => Change::New(row),
    }
}
