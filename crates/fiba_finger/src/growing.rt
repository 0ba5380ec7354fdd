ghost use Rattle.std.specs.Prelude.{◌≡◌, ◌≤◌, ◌<◌, ◌+◌, ◌*◌, ◌-◌};
ghost use Rattle.agg_laws.specs.Counters.{Looks};
ghost use Rattle.fiba_nodes.specs.Stores.{full_nodes};
ghost use Rattle.fiba_nodes.specs.Changes.{growth};
ghost use Rattle.fiba_finger.specs.Climbs.{CanRaise, IsRaised};

use crate::climbed::Climbed;
use crate::edge::right_place;
use crate::raised::Raised;
use agg_laws::{Monoid, Probes, Steps};
use fiba_nodes::{Change, Nest, Nodes, Open, Root, apply_low, plant, settle, write};

/// Lets an item into the tree of a node on the right edge, and closes that node again: it is
/// written where it isn't split, else its parent is opened. At most eight steps a level below the
/// node, eight more, and eleven for each node that is split above.
pub fn raise<M: Monoid, L>(
    nodes: &mut Nodes<M>,
    root: Root,
    from: Climbed,
    change: Change<M>,
    probes: &mut Probes,
    steps: &mut Steps<L>,
) -> Raised
    requires can { CanRaise M.is_value M.empty M.op nodes.old root from.at from.below change }
    requires grows { growth change ≡ 1 }
    ensures raised { IsRaised M.is_value M.empty M.op nodes.old nodes.new root result.root
        result.top.at result.top.below change }
    ensures splits { result.splits ≤ root.height }
    ensures top { result.top.below ≤ from.below + result.splits }
    ensures taken { nodes.new.spare + (result.splits + (result.root.height - root.height))
        ≡ nodes.old.spare }
    ensures full { full_nodes nodes.new + result.splits ≤ full_nodes nodes.old + 1 }
    ensures looks { Looks (16 + 12 * (from.below + result.splits)) probes.old probes.new }
    ensures cost { steps.new ≤ steps.old + 8 * from.below + 8 + 11 * result.splits }
{
    let spare = nodes.spare();
    let mut up = nodes.peek(from.at, probes).up;
    let place = right_place(from.below + 1 == root.height);
    let applied = apply_low(nodes, from.at, from.below, place, change, probes, steps);
    let inner = spare.saturating_sub(nodes.spare()) as u32;
    let mut at = from.at;
    let mut open = applied.open;
    for below in from.below..root.height - 1 {
        let top = Climbed { at, below };
        let splits = inner + (below - from.below);
        if open.slots.len() < 4 {
            let edge = right_place(false);
            write(nodes, at, &open, below, edge, up, probes, steps);
            return Raised { root, top, splits };
        }
        let parent = up.unwrap();
        let node = nodes.peek(parent, probes);
        let (row, next) = (node.opened(), node.up);
        let nest = Nest {
            row,
            at: row.slots.len(),
            child: open,
        };
        let place = right_place(below + 2 == root.height);
        open = settle(nodes, &nest, below, place, Some(parent), probes, steps);
        at = parent;
        up = next;
    }
    let below = root.height - 1;
    let grown = plant(nodes, at, below, right_place(true), &open, probes, steps);
    let splits = inner + (below - from.below) + (grown.height - root.height);
    let (root, at, below) = (grown, grown.at, grown.height - 1);
    let top = Climbed { at, below };
    Raised { root, top, splits }
}
