//! What tuples come to.
ghost use Rattle.std.specs.Prelude.{◌≡◌, ◌≤◌, ◌<◌, ◌+◌, ◌∷◌, [], length, slice_index_or};
ghost use Rattle.slice_lists.specs.Slices.{values_of};

use agg_laws::Steps;
use aggregates::Partial;
use slice_runs::Runs;
use stream_base::Kept;

/// What a tuple alone comes to.
pub fn lifted<M: Partial>(x: &Kept) -> M
    ensures { result ≡ M.of_values ((x.now).value ∷ []) }
{
    M::lift(x.value)
}

/// What the tuples of a slice come to in event order, in at most one step for each.
pub fn fold_of<M: Partial, L>(runs: &mut Runs, at: usize, steps: &mut Steps<L>) -> M
    requires { at < length (runs.old).slices }
    ensures value { result ≡ M.of_values (values_of (slice_index_or (runs.old).slices at [])) }
    ensures kept { runs.new ≡ runs.old }
    ensures cost { steps.new ≤ steps.old + length (slice_index_or (runs.old).slices at []) }
{
    M::of_bundle(&runs.fold_of(at, steps))
}
