//! A slice is split in two.
ghost use Rattle.std.specs.Prelude.{◌≤◌, ◌+◌, ◌*◌, [], length, slice_index_or};
ghost use Rattle.slice_lists.specs.Slices.{split_at};
ghost use Rattle.slice_store.specs.Following.{Follow, MaySplit};

use crate::lifting::fold_of;
use agg_laws::{AggTree, Steps};
use aggregates::Partial;
use partials::Partials;
use slice_runs::Runs;

/// Splits a slice at a time inside it, and folds the tuples of both parts.
pub fn split<M: Partial, T: AggTree<M>, L>(
    runs: &mut Runs,
    partials: &mut Partials<M, T>,
    at: usize,
    time: u64,
    steps: &mut Steps<L>,
)
    requires { MaySplit M.of_values at time runs.old partials.old }
    ensures follow { Follow M.of_values (split_at at time (runs.old).slices)
        runs.old partials.old runs.new partials.new }
    ensures cost { steps.new ≤ steps.old + (128 * ((partials.old).reach + 3)
        + length (slice_index_or (runs.old).slices at [])) }
{
    let low = runs.slice(at).low;
    runs.split(at, time);
    let next = runs.slice(at + 1).low;
    let front = fold_of(runs, at, steps);
    let back = fold_of(runs, at + 1, steps);
    partials.set(low, front, steps);
    partials.insert(next, back, steps);
}
