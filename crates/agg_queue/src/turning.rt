ghost use Rattle.std.specs.Prelude.{◌≡◌, ◌≤◌, ◌+◌, length, All};
ghost use Rattle.agg_queue.specs.Lanes.{KeepsValues};
ghost use Rattle.agg_queue.specs.Stacks.{AreSuffixTotals};

use crate::cells::Cells;
use agg_laws::{Monoid, Steps};

// Makes each aggregate that of the values from it to the end, from the last one on. One step for
// each cell.
pub(crate) fn turn_over<M: Monoid, L>(cells: &mut Cells<M>, steps: &mut Steps<L>)
    requires values { All M.is_value cells.old.values }
    requires aligned { length cells.old.aggregates ≡ length cells.old.values }
    ensures kept { KeepsValues cells.old cells.new }
    ensures aligned { length cells.new.aggregates ≡ length cells.new.values }
    ensures suffixes { AreSuffixTotals M.empty M.op cells.new.values cells.new.aggregates 0 }
    ensures cost { steps.new ≤ steps.old + length cells.old.values }
{
    let mut suffix = M::unit();
    for i in (0..cells.len()).rev() {
        suffix = cells.value(i).combine(&suffix, steps);
        cells.set_aggregate(i, suffix);
    }
}
