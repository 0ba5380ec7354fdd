//! The first slices leave.
ghost use Rattle.std.specs.Prelude.{◌≡◌, ◌≤◌, ◌+◌, ◌*◌, drop, length, map};
ghost use Rattle.partials.specs.Apart.{KeepsRoom};
ghost use Rattle.agg_store.specs.Stored.{partial_of};

use agg_laws::{AggTree, Steps};
use aggregates::Partial;
use partials::Partials;
use slice_runs::Runs;

/// Takes out the partials of the first slices.
pub fn take_first<M: Partial, T: AggTree<M>, L>(
    runs: &Runs,
    partials: &mut Partials<M, T>,
    count: usize,
    steps: &mut Steps<L>,
)
    requires within { count ≤ length (runs.now).slices }
    requires stand { (partials.old).pairs ≡ map (partial_of M.of_values) (runs.now).slices }
    ensures stand { (partials.new).pairs
        ≡ map (partial_of M.of_values) (drop count (runs.now).slices) }
    ensures keeps { KeepsRoom partials.old partials.new }
    ensures cost { steps.new ≤ steps.old + 64 * ((partials.old).reach + 2) * count }
{
    for at in 0..count {
        let _partial = partials.take(runs.slice(at).low, steps);
    }
}
