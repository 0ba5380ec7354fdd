ghost use Rattle.std.specs.Prelude.{◌≡◌, ◌≤◌, ◌+◌, ◌*◌, true};
ghost use Rattle.agg_laws.specs.Counters.{Looks};
ghost use Rattle.fiba_nodes.specs.Stores.{full_nodes};
ghost use Rattle.fiba_nodes.specs.Changes.{is_set};
ghost use Rattle.fiba_finger.specs.Climbs.{CanRaise, IsRaised};

use crate::climbed::Climbed;
use crate::edge::right_place;
use agg_laws::{Monoid, Probes, Steps};
use fiba_nodes::{Change, Nodes, Root, apply_low, write};

/// Lets an item into the tree of a node on the right edge in the place of another one, and writes
/// that node again: no node is split, and nothing above counts what lies in it. At most eight steps
/// a level below the node, and seven.
pub fn renew<M: Monoid, L>(
    nodes: &mut Nodes<M>,
    root: Root,
    from: Climbed,
    change: Change<M>,
    probes: &mut Probes,
    steps: &mut Steps<L>,
)
    requires can { CanRaise M.is_value M.empty M.op nodes.old root from.at from.below change }
    requires set { is_set change ≡ true }
    ensures raised { IsRaised M.is_value M.empty M.op nodes.old nodes.new root root
        from.at from.below change }
    ensures full { full_nodes nodes.new ≡ full_nodes nodes.old }
    ensures looks { Looks (10 + 12 * from.below) probes.old probes.new }
    ensures cost { steps.new ≤ steps.old + 8 * from.below + 7 }
{
    let up = nodes.peek(from.at, probes).up;
    let place = right_place(from.below + 1 == root.height);
    let applied = apply_low(nodes, from.at, from.below, place, change, probes, steps);
    let open = applied.open;
    write(nodes, from.at, &open, from.below, place, up, probes, steps);
}
