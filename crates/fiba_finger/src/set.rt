ghost use Rattle.std.specs.Prelude.{◌≡◌, ◌≤◌, ◌<◌, ◌+◌, ◌*◌, true};
ghost use Rattle.agg_laws.specs.Counters.{Works};
ghost use Rattle.agg_laws.specs.Pairs.{AreRising, distance};
ghost use Rattle.fiba_nodes.specs.Arena.{pairs_in};
ghost use Rattle.fiba_nodes.specs.Stores.{full_nodes};
ghost use Rattle.fiba_nodes.specs.Roots.{CanChange};
ghost use Rattle.fiba_nodes.specs.declared.change.Change.TheVariants.{Set};
ghost use Rattle.fiba_finger.specs.Climbs.{IsNear, IsPutInTree};
ghost use Rattle.fiba_finger.specs.Fingers.{IsFinger, IsFront};

use crate::ascending::climb;
use crate::climbed::Climbed;
use crate::edge::rightmost;
use crate::put::front_after;
use crate::renewing::renew;
use agg_laws::{Monoid, Probes, Steps};
use fiba_nodes::{Change, Item, Nodes, Root};

/// A tree after another value came under a key: its first and its last leaf, and how many levels
/// were climbed.
#[derive(Clone, Copy)]
pub struct Reset {
    pub front: usize,
    pub finger: usize,
    pub climbs: u32,
}

/// Puts an item in the place of the one with its key, from the last leaf.
pub fn set_near<M: Monoid, L>(
    nodes: &mut Nodes<M>,
    root: Root,
    front: usize,
    finger: usize,
    item: Item<M>,
    probes: &mut Probes,
    steps: &mut Steps<L>,
) -> Reset
    requires can { CanChange M.is_value M.empty M.op nodes.old root true true (Set item) }
    requires rising { AreRising (pairs_in nodes.old root) }
    requires some { 1 ≤ root.height }
    requires front { IsFront nodes.old root front }
    requires finger { IsFinger nodes.old root finger }
    ensures put { IsPutInTree M.is_value M.empty M.op nodes.old nodes.new root root (Set item) }
    ensures front { IsFront nodes.new root result.front }
    ensures finger { IsFinger nodes.new root result.finger }
    ensures full { full_nodes nodes.new ≡ full_nodes nodes.old }
    ensures near { IsNear result.climbs (distance item.key (pairs_in nodes.old root)) }
    ensures climbs { result.climbs < root.height }
    ensures work { Works (8 * (result.climbs + 1)) probes.old probes.new steps.old steps.new }
{
    let from = Climbed {
        at: finger,
        below: 0,
    };
    let near = climb(nodes, root, from, item.key, probes);
    renew(nodes, root, near, Change::Set(item), probes, steps);
    let is_root = near.below + 1 == root.height;
    Reset {
        front: front_after(nodes, root, near.below, front, probes),
        finger: rightmost(nodes, near.at, near.below, is_root, probes),
        climbs: near.below,
    }
}
