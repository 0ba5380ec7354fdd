//! A tuple enters the slices that it is near to, and what becomes of their partials.
ghost use Rattle.std.specs.Prelude.{◌≡◌, ◌≤◌, ◌<◌, ◌+◌, ◌-◌, ◌*◌, [], length, slice_index_or, true, false};
ghost use Rattle.stream_base.specs.Model.Windows.{first_time, last_time};
ghost use Rattle.partials.specs.Apart.{SpendsNear};
ghost use Rattle.slice_lists.specs.Slices.{entered_at, joined, slices_between};
ghost use Rattle.slice_store.specs.Following.{EntersNear, Follow, MayEnter};

use crate::lifting::{fold_of, lifted};
use agg_laws::{AggTree, Monoid, Steps};
use aggregates::Partial;
use partials::Partials;
use slice_runs::Runs;
use stream_base::Kept;

// The tuple becomes a slice of its own.
fn add<M: Partial, T: AggTree<M>, L>(
    runs: &mut Runs,
    partials: &mut Partials<M, T>,
    at: usize,
    x: Kept,
    steps: &mut Steps<L>,
)
    requires { MayEnter M.of_values at at x runs.old partials.old }
    ensures follow { Follow M.of_values (entered_at at at x (runs.old).slices)
        runs.old partials.old runs.new partials.new }
    ensures cost { steps.new ≤ steps.old + 64 * ((partials.old).reach + 2) }
{
    partials.insert(x.time, lifted(&x), steps);
    runs.enter(at, at, x);
}

// The tuple comes behind those of a slice, or anywhere in it where order makes no difference: its
// partial is combined with it once, however many tuples it has.
fn extend<M: Partial, T: AggTree<M>, L>(
    runs: &mut Runs,
    partials: &mut Partials<M, T>,
    at: usize,
    x: Kept,
    steps: &mut Steps<L>,
)
    requires may { MayEnter M.of_values at (at + 1) x runs.old partials.old }
    requires late { first_time (slice_index_or (runs.old).slices at []) ≤ x.time }
    requires behind { M.any_order ≡ false
        → last_time (slice_index_or (runs.old).slices at []) ≤ x.time }
    ensures follow { Follow M.of_values (entered_at at (at + 1) x (runs.old).slices)
        runs.old partials.old runs.new partials.new }
    ensures near { SpendsNear T.near (length (runs.old).slices - (at + 1)) (partials.old).reach 2
        steps.old steps.new }
    ensures cost { steps.new ≤ steps.old + 64 * ((partials.old).reach + 3) }
{
    let low = runs.slice(at).low;
    partials.extend(low, &lifted(&x), steps);
    runs.enter(at, at + 1, x);
}

// The tuple comes before those of a slice, which then begins with it.
fn front<M: Partial, T: AggTree<M>, L>(
    runs: &mut Runs,
    partials: &mut Partials<M, T>,
    at: usize,
    x: Kept,
    steps: &mut Steps<L>,
)
    requires may { MayEnter M.of_values at (at + 1) x runs.old partials.old }
    requires early { x.time < first_time (slice_index_or (runs.old).slices at []) }
    ensures follow { Follow M.of_values (entered_at at (at + 1) x (runs.old).slices)
        runs.old partials.old runs.new partials.new }
    ensures cost { steps.new ≤ steps.old + 128 * ((partials.old).reach + 3) }
{
    let low = runs.slice(at).low;
    let own = partials.take(low, steps);
    let partial = lifted::<M>(&x).combine(&own, steps);
    partials.insert(x.time, partial, steps);
    runs.enter(at, at + 1, x);
}

// The tuple comes between those of a slice, whose tuples are folded anew in event order, since that
// makes a difference.
fn refold<M: Partial, T: AggTree<M>, L>(
    runs: &mut Runs,
    partials: &mut Partials<M, T>,
    at: usize,
    x: Kept,
    steps: &mut Steps<L>,
)
    requires may { MayEnter M.of_values at (at + 1) x runs.old partials.old }
    requires late { first_time (slice_index_or (runs.old).slices at []) ≤ x.time }
    ensures follow { Follow M.of_values (entered_at at (at + 1) x (runs.old).slices)
        runs.old partials.old runs.new partials.new }
    ensures near { SpendsNear T.near (length (runs.old).slices - (at + 1)) (partials.old).reach
        (length (slice_index_or (runs.old).slices at []) + 1) steps.old steps.new }
    ensures cost { steps.new ≤ steps.old + (128 * ((partials.old).reach + 3)
        + length (joined (slices_between at (at + 1) (runs.old).slices))) }
{
    let low = runs.slice(at).low;
    runs.enter(at, at + 1, x);
    let partial = fold_of(runs, at, steps);
    partials.set(low, partial, steps);
}

// The tuple comes between two slices and joins them.
fn merge<M: Partial, T: AggTree<M>, L>(
    runs: &mut Runs,
    partials: &mut Partials<M, T>,
    at: usize,
    x: Kept,
    steps: &mut Steps<L>,
)
    requires { MayEnter M.of_values at (at + 2) x runs.old partials.old }
    ensures follow { Follow M.of_values (entered_at at (at + 2) x (runs.old).slices)
        runs.old partials.old runs.new partials.new }
    ensures cost { steps.new ≤ steps.old + 128 * ((partials.old).reach + 3) }
{
    let low = runs.slice(at).low;
    let next = runs.slice(at + 1).low;
    let left = partials.read(low, steps);
    let right = partials.take(next, steps);
    let longer = left.combine(&lifted(&x), steps);
    let partial = longer.combine(&right, steps);
    partials.set(low, partial, steps);
    runs.enter(at, at + 2, x);
}

/// Puts a tuple in its place, where the slices from one place up to another become one with it, and
/// brings the partials after it.
pub fn enter<M: Partial, T: AggTree<M>, L>(
    runs: &mut Runs,
    partials: &mut Partials<M, T>,
    from: usize,
    to: usize,
    x: Kept,
    steps: &mut Steps<L>,
)
    requires { MayEnter M.of_values from to x runs.old partials.old }
    ensures follow { Follow M.of_values (entered_at from to x (runs.old).slices)
        runs.old partials.old runs.new partials.new }
    ensures cost { steps.new ≤ steps.old + (128 * ((partials.old).reach + 3)
        + length (joined (slices_between from to (runs.old).slices))) }
    ensures in_order { last_time (joined (runs.old).slices) ≤ x.time
        → steps.new ≤ steps.old + 128 * ((partials.old).reach + 3) }

    // Where order makes no difference, no slice is folded anew.
    ensures any_order { M.any_order ≡ true
        → steps.new ≤ steps.old + 128 * ((partials.old).reach + 3) }

    // A tuple behind those of its slice refolds none.
    ensures behind { from < to → last_time (slice_index_or (runs.old).slices from []) ≤ x.time
        → steps.new ≤ steps.old + 128 * ((partials.old).reach + 3) }

    // A tuple that enters one slice, and doesn't come before it, goes by how many slices lie behind.
    ensures near { EntersNear T.near from to x (runs.old).slices (partials.old).reach
        steps.old steps.new }
{
    let count = to - from;
    if count == 0 {
        return add(runs, partials, from, x, steps);
    }
    if count != 1 {
        return merge(runs, partials, from, x, steps);
    }
    let slice = runs.slice(from);
    if x.time < slice.low {
        front(runs, partials, from, x, steps);
    } else if slice.high <= x.time || M::in_any_order() {
        extend(runs, partials, from, x, steps);
    } else {
        refold(runs, partials, from, x, steps);
    }
}
