//! The folds of overlapping intervals, from parts that they share.
ghost use Rattle.std.specs.Prelude.{◌≡◌, ◌≤◌, ◌↔◌, true, length};
ghost use Rattle.agg_store.specs.Stored.{IsStore};
ghost use Rattle.time_lanes.specs.Folds.{AreShown, IsHead, MayShare, TakesFirst, TakesShared, fold_behind};
ghost use Rattle.time_lanes.specs.Walks.{MayFold};

use crate::late::Complete;
use crate::owner::show;
use crate::span::Span;
use agg_laws::Steps;
use agg_store::AggStore;
use aggregates::Partial;
use stream_base::{Former, Func};

/// How many intervals are folded together at most.
pub const MOST: usize = 64;

/// How many have places in the smaller of two arrays.
pub const FEW: usize = 16;

// How many slices may begin in them, for each.
const SLICES_EACH: u64 = 32;

/// Whether intervals are folded from parts that they share: there are several, each two overlap or
/// touch, and few slices begin in them.
pub fn may_share<M: Partial, S: AggStore<M>>(span: &Span, store: &S, complete: Complete) -> bool
    requires { MayFold span.now (S.stored store.now).slices complete }
    ensures share { result ≡ true ↔ MayShare span.now (S.stored store.now).slices complete }
    ensures holds { result ≡ true → IsStore (S.stored store.now) }
{
    if complete.count < 2 || complete.count > MOST as u64 {
        return false;
    }
    let first = complete.first * span.slide;
    let last = (complete.first + (complete.count - 1)) * span.slide;
    if first + span.length < last {
        return false;
    }
    let most = SLICES_EACH * complete.count;
    store.slices_within(first, last + span.length) <= most
}

/// Shows each of the intervals at its place. What begins before the first one's end is folded from
/// the newest start down, and then, on the way back, what is behind that end, upwards. So each slice
/// is combined once, and three combines are made for an interval.
pub fn show_together<M: Partial, S: AggStore<M>, L>(
    func: Func,
    span: &Span,
    store: &S,
    complete: Complete,
    shown: &mut [Former],
    steps: &mut Steps<L>,
)
    requires intervals { MayFold span.now (S.stored store.now).slices complete }
    requires share { MayShare span.now (S.stored store.now).slices complete }
    requires holds { IsStore (S.stored store.now) }
    requires serves { M.serves func }
    requires places { complete.count ≤ length shown.old }
    ensures shown { AreShown func span.now (S.stored store.now) complete complete.count shown.new }
    ensures cost { TakesShared span.now (S.stored store.now).slices complete steps.old steps.new }
{
    let low = complete.first * span.slide + span.length;
    let none = M::unit();
    let count = complete.count;
    show_first(func, span, store, complete, count, low, &none, shown, steps);
}

// Shows the first so many of them, given what is folded from a time up to the end of the first one.
// Gives what is folded from there on to the end of the last of these. Each call keeps what its
// interval has before that end, since an array of partials would ask for a bound on their size.
fn show_first<M: Partial, S: AggStore<M>, L>(
    func: Func,
    span: &Span,
    store: &S,
    complete: Complete,
    count: u64,
    low: u64,
    head: &M,
    shown: &mut [Former],
    steps: &mut Steps<L>,
) -> M
    requires intervals { MayFold span.now (S.stored store.now).slices complete }
    requires holds { IsStore (S.stored store.now) }
    requires serves { M.serves func }
    requires head { IsHead M.of_values span.now (S.stored store.now) complete count low head.now }
    requires places { count ≤ length shown.old }
    ensures shown { AreShown func span.now (S.stored store.now) complete count shown.new }
    ensures tail { result ≡ fold_behind M.of_values span.now (S.stored store.now) complete count }
    ensures cost { TakesFirst span.now
        (S.stored store.now).slices complete count low steps.old steps.new }
{
    if count == 0 {
        return M::unit();
    }
    let at = count - 1;
    let start = (complete.first + at) * span.slide;
    let head = store.fold(start, low, steps).combine(head, steps);
    let tail = show_first(func, span, store, complete, at, start, &head, shown, steps);
    let end = start + span.length;
    let split = complete.first * span.slide + span.length;
    let high = split.max(end - span.slide);
    let tail = tail.combine(&store.fold(high, end, steps), steps);
    shown[at as usize] = show(func, &head.combine(&tail, steps));
    tail
}
