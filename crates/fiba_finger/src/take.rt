ghost use Rattle.std.specs.Prelude.{◌≡◌, ◌≤◌, ◌+◌, ◌*◌, true, Some, slice_get};
ghost use Rattle.agg_laws.specs.Counters.{Works};
ghost use Rattle.fiba_nodes.specs.Arena.{pairs_in};
ghost use Rattle.fiba_nodes.specs.Trees.{pair_of};
ghost use Rattle.fiba_nodes.specs.Roots.{CanChange};
ghost use Rattle.fiba_nodes.specs.declared.change.Change.TheVariants.{Remove};
ghost use Rattle.fiba_finger.specs.Fingers.{IsFront, Takes};

use crate::draining::pull;
use crate::edge::right_place;
use agg_laws::{Monoid, Probes, Steps};
use fiba_nodes::{Change, Changed, Item, Nodes, Open, Root, Row, change_root, plant};

/// Takes the item with a key out of a tree, if there is one: along the left edge where it is the
/// first item, and else on the way from the root. At most 16 steps a level, and 16.
pub fn take<M: Monoid, L>(
    nodes: &mut Nodes<M>,
    root: Root,
    front: usize,
    key: u64,
    probes: &mut Probes,
    steps: &mut Steps<L>,
) -> Changed<M>
    requires can { CanChange M.is_value M.empty M.op nodes.old root true true (Remove key) }
    requires front { IsFront nodes.old root front }
    ensures takes { Takes M.is_value M.empty M.op nodes.old nodes.new root key result }
    ensures work { Works (16 * root.height + 16) probes.old probes.new steps.old steps.new }
{
    let change = Change::Remove(key);
    let place = right_place(true);
    if root.height == 0 {
        return change_root(nodes, root, place, change, probes, steps);
    }
    let first = nodes.peek(front, probes).first;
    if first.key != key {
        return change_root(nodes, root, place, change, probes, steps);
    }
    take_first(nodes, root, first, probes, steps)
}

// Takes the first item out of a tree.
fn take_first<M: Monoid, L>(
    nodes: &mut Nodes<M>,
    root: Root,
    first: Item<M>,
    probes: &mut Probes,
    steps: &mut Steps<L>,
) -> Changed<M>
    requires can { CanChange M.is_value M.empty M.op nodes.old root true true (Remove first.key) }
    requires some { 1 ≤ root.height }
    requires first { slice_get (pairs_in nodes.old root) 0 ≡ Some (pair_of first) }
    ensures takes { Takes M.is_value M.empty M.op nodes.old nodes.new root first.key result }
    ensures work { Works (16 * root.height + 16) probes.old probes.new steps.old steps.new }
{
    let below = root.height - 1;
    let taken = Some(first);
    let Some(last) = pull(nodes, root.at, below, true, probes, steps) else {
        return Changed { root, taken };
    };
    let bare = Open {
        slots: Row::Empty,
        last,
    };
    Changed {
        root: plant(
            nodes,
            root.at,
            below,
            right_place(true),
            &bare,
            probes,
            steps,
        ),
        taken,
    }
}
