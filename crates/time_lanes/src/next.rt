//! The next slice of a store, and the next interval that is due.
ghost use Rattle.std.specs.Prelude.{◌≡◌, ◌≤◌, ◌+◌, [], IfSome, IfNone};
ghost use Rattle.slice_lists.specs.Runs.{runs_within};
ghost use Rattle.agg_store.specs.Stored.{IsStore, tuples_of};
ghost use Rattle.time_lanes.specs.Held.{IsEndFrom, IsNextDue, IsNextIn};
ghost use Rattle.time_lanes.specs.Walks.{MayWalk, StartsAt};
ghost use Rattle.time_lanes.specs.Due.{due_in};

use crate::span::Span;
use agg_laws::Steps;
use agg_store::AggStore;
use aggregates::Partial;
use slice_lists::Slice;
use stream_base::FINAL;

/// The first slice that begins in an interval, and its partial, for one step at most.
pub fn next_partial<M: Partial, S: AggStore<M>, L>(
    store: &S,
    from: u64,
    to: u64,
    steps: &mut Steps<L>,
) -> Option<(Slice, M)>
    ensures some { IfSome result
        (IsNextIn M.of_values (S.stored store.now).slices from to) }
    ensures none { IfNone result (runs_within from to (S.stored store.now).slices ≡ []) }
    ensures idle { IfNone result (steps.new ≤ steps.old) }
    ensures cost { steps.new ≤ steps.old + 1 }
    ensures holds { IsStore (S.stored store.now) }
{
    store.partial_within(from, to, steps)
}

/// The start of the next interval that is due.
pub fn next_due<M: Partial, S: AggStore<M>>(
    store: &S,
    span: &Span,
    from: u64,
    new: u64,
) -> Option<u64>
    requires { MayWalk span.now (S.stored store.now).slices from new }
    ensures some { IfSome result
        (λ low. IsNextDue span.now.length span.now.slide (S.stored store.now) from new low) }
    ensures none { IfNone result (due_in span.now (S.stored store.now) from new ≡ []) }
    ensures holds { IsStore (S.stored store.now) }
{
    let slice = store.slice_from(from)?;
    let low = from.max(span.next_start(slice.low));
    if low + span.length <= new {
        Some(low)
    } else {
        None
    }
}

/// The end of the first interval from a start on that holds a tuple.
pub fn end_from<M: Partial, S: AggStore<M>>(store: &S, span: &Span, from: u64) -> u64
    requires { StartsAt span.now (S.stored store.now).slices from }
    ensures { IsEndFrom span.now.length span.now.slide (tuples_of (S.stored store.now)) from
        result }
{
    match store.slice_from(from) {
        Some(slice) => span.next_start(slice.low).max(from) + span.length,
        None => FINAL,
    }
}
