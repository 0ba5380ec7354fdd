//! The walk over the intervals that a move of the watermark completes.
ghost use Rattle.std.specs.Prelude.{◌≡◌, ◌≤◌, ◌+◌, ◌*◌, ◌++◌, ◌∷◌, [], length, max};
ghost use Rattle.stream_base.specs.declared.limits.TheConstants.{FINAL};
ghost use Rattle.stream_base.specs.Vectors.{Adds, room};
ghost use Rattle.window_laws.specs.Walk.{next_start};
ghost use Rattle.time_lanes.specs.Spans.{last_end};
ghost use Rattle.time_lanes.specs.Walks.{MayWalk, StartsAt};
ghost use Rattle.time_lanes.specs.Held.{HoldsOn};
ghost use Rattle.time_lanes.specs.Due.{PaysOnward, TakesRoom, WhereHeld, ahead, due_in, missing, new_row, rows_from};

use crate::held::Held;
use crate::next::next_due;
use crate::owner::{Owner, show};
use crate::span::Span;
use agg_laws::{AggQueue, Steps};
use agg_store::AggStore;
use aggregates::Partial;
use stream_base::Change;

/// Tells the intervals that are due from a start on, one after another. Answers from where on the
/// slices are held then.
pub fn tell_due<M: Partial, Q: AggQueue<M>, S: AggStore<M>, L>(
    held: &mut Held<M, Q>,
    owner: Owner,
    span: &Span,
    store: &S,
    from: u64,
    new: u64,
    out: &mut Vec<Change>,
    steps: &mut Steps<L>,
) -> u64
    requires walk { MayWalk span.now (S.stored store.now).slices from new }
    requires serves { M.serves owner.func }
    requires room { length (ahead span.now (S.stored store.now) new from held.old)
        ≤ (held.old).spare }
    requires spare { length (due_in span.now (S.stored store.now) from new) ≤ room out.old }
    ensures told { WhereHeld M.of_values span.now (S.stored store.now) from held.old (out.new.items
        ≡ out.old.items ++ rows_from owner.entry span.now (S.stored store.now) from new) }
    ensures held { HoldsOn M.of_values (S.stored store.now) from result held.old held.new }
    ensures onward { from ≤ result }
    ensures within { result ≤ max from (next_start span.now.length span.now.slide new) }
    ensures to { (held.new).to
        ≤ max (held.old).to (last_end span.now.length span.now.slide new) }
    ensures adds { Adds (length (due_in span.now (S.stored store.now) from new)) out.old out.new }
    ensures room { TakesRoom span.now (S.stored store.now) new from result held.old held.new }
    ensures cost { PaysOnward span.now
        (S.stored store.now) new from result held.old held.new steps.old steps.new }
{
    let mut start = from;
    while let Some(low) = next_due(store, span, start, new) {
        tell_one(held, owner, span, store, low, out, steps);
        start = low + span.slide;
    }
    start
}

// Tells the interval that starts so, and lets the slices go that the next one doesn't need.
fn tell_one<M: Partial, Q: AggQueue<M>, S: AggStore<M>, L>(
    held: &mut Held<M, Q>,
    owner: Owner,
    span: &Span,
    store: &S,
    low: u64,
    out: &mut Vec<Change>,
    steps: &mut Steps<L>,
)
    requires start { StartsAt span.now (S.stored store.now).slices low }
    requires serves { M.serves owner.func }
    requires end { low + span.now.length ≤ FINAL }
    requires room { length (missing span.now (S.stored store.now) low held.old) ≤ (held.old).spare }
    requires spare { 1 ≤ room out.old }
    ensures told { WhereHeld M.of_values span.now (S.stored store.now) low held.old (out.new.items
        ≡ out.old.items ++ new_row owner.entry span.now (S.stored store.now) low ∷ []) }
    ensures held { HoldsOn M.of_values (S.stored store.now) low
        (low + span.now.slide) held.old held.new }
    ensures to { (held.new).to ≡ max (held.old).to (low + span.now.length) }
    ensures adds { Adds 1 out.old out.new }
    ensures room { (held.old).spare
        ≤ (held.new).spare + length (missing span.now (S.stored store.now) low held.old) }
    ensures cost { steps.new + (held.new).credit ≤ steps.old + (held.old).credit
        + 10 * length (missing span.now (S.stored store.now) low held.old) + 1 }
{
    let end = low + span.length;
    held.pull(store, low, end, steps);
    let partial = held.fold(steps);
    let shown = show(owner.func, &partial);
    out.push_reserved(Change::New(owner.row(low, end, shown)));
    held.shed(store, low, low + span.slide, steps);
}

/// How many intervals are due from a start on.
pub fn count_due<M: Partial, S: AggStore<M>>(store: &S, span: &Span, from: u64, new: u64) -> u64
    requires { MayWalk span.now (S.stored store.now).slices from new }
    ensures { result ≡ length (due_in span.now (S.stored store.now) from new) }
{
    let mut count = 0;
    let mut start = from;
    while let Some(low) = next_due(store, span, start, new) {
        count += 1;
        start = low + span.slide;
    }
    count
}
