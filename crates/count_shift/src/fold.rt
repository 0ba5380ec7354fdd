//! Folds over runs of tuples.
ghost use Rattle.std.specs.Prelude.{◌≡◌, ◌≤◌, ◌+◌, length};
ghost use Rattle.count_shift.specs.Folded.{folded_onto};

use agg_laws::{Lift, Monoid, Steps};
use aggregates::Bundle;
use stream_base::Kept;

// The values of some tuples, and then those of a run. One step for each tuple of the run.
pub fn fold_onto<L>(bundle: Bundle, run: &[Kept], steps: &mut Steps<L>) -> Bundle
    ensures value { result ≡ folded_onto bundle run.now }
    ensures cost { steps.new ≤ steps.old + length run.now }
{
    let mut so_far = bundle;
    for x in run {
        so_far = so_far.combine(&Bundle::lift(x.value), steps);
    }
    so_far
}
