ghost use Rattle.std.specs.Prelude.{◌≡◌, ◌≤◌, ◌<◌, ◌+◌, ◌-◌, ◌*◌, ◌^◌, true};
ghost use Rattle.agg_laws.specs.Counters.{Looks};
ghost use Rattle.agg_laws.specs.Pairs.{AreRising, distance};
ghost use Rattle.fiba_nodes.specs.Arena.{pairs_in};
ghost use Rattle.fiba_nodes.specs.Stores.{full_nodes};
ghost use Rattle.fiba_nodes.specs.Roots.{CanChange, IsTree};
ghost use Rattle.fiba_nodes.specs.declared.change.Change.TheVariants.{Insert};
ghost use Rattle.fiba_finger.specs.Climbs.{IsPutInTree};
ghost use Rattle.fiba_finger.specs.Fingers.{IsFinger, IsFront, KeepsFront};

use crate::ascending::climb;
use crate::climbed::Climbed;
use crate::edge::{leftmost, right_place, rightmost};
use crate::growing::raise;
use crate::grown::Grown;
use agg_laws::{Monoid, Probes, Steps};
use fiba_nodes::{Change, Item, Nodes, Root, change_root};

/// A tree after an insertion, its first and its last leaf, and what the insertion did.
#[derive(Clone, Copy)]
pub struct Put {
    pub root: Root,
    pub front: usize,
    pub finger: usize,
    pub grown: Grown,
}

/// Puts an item into a tree, from its last leaf.
pub fn put_near<M: Monoid, L>(
    nodes: &mut Nodes<M>,
    root: Root,
    front: usize,
    finger: usize,
    item: Item<M>,
    probes: &mut Probes,
    steps: &mut Steps<L>,
) -> Put
    requires can { CanChange M.is_value M.empty M.op nodes.old root true true (Insert item) }
    requires rising { AreRising (pairs_in nodes.old root) }
    requires front { IsFront nodes.old root front }
    requires finger { IsFinger nodes.old root finger }
    ensures put { IsPutInTree M.is_value M.empty M.op nodes.old nodes.new root result.root
        (Insert item) }
    ensures front { IsFront nodes.new result.root result.front }
    ensures finger { IsFinger nodes.new result.root result.finger }
    ensures near { 2 ^ result.grown.climbs ≤ distance item.key (pairs_in nodes.old root) + 1 }
    ensures climbs { result.grown.climbs ≤ root.height }
    ensures splits { result.grown.splits ≤ root.height }
    ensures taken { nodes.new.spare + (result.grown.splits + (result.root.height - root.height))
        ≡ nodes.old.spare }
    ensures full { full_nodes nodes.new + result.grown.splits ≤ full_nodes nodes.old + 1 }
    ensures looks { Looks (20 + 16 * (result.grown.climbs + result.grown.splits))
        probes.old probes.new }
    ensures cost { steps.new ≤ steps.old + 8
        + (8 * result.grown.climbs + 11 * result.grown.splits) }
{
    let change = Change::Insert(item);
    if root.height == 0 {
        let place = right_place(true);
        let root = change_root(nodes, root, place, change, probes, steps).root;
        let front = start_of(nodes, root, probes);
        let finger = end_of(nodes, root, probes);
        let grown = Grown {
            splits: 0,
            climbs: 0,
        };
        return Put {
            root,
            front,
            finger,
            grown,
        };
    }
    let from = Climbed {
        at: finger,
        below: 0,
    };
    let near = climb(nodes, root, from, item.key, probes);
    let raised = raise(nodes, root, near, change, probes, steps);
    let top = raised.top;
    let is_root = top.below + 1 == raised.root.height;
    let grown = Grown {
        splits: raised.splits,
        climbs: near.below,
    };
    Put {
        root: raised.root,
        front: front_after(nodes, raised.root, top.below, front, probes),
        finger: rightmost(nodes, top.at, top.below, is_root, probes),
        grown,
    }
}

/// The last leaf of a tree.
pub fn end_of<M: Monoid>(nodes: &Nodes<M>, root: Root, probes: &mut Probes) -> usize
    requires { IsTree M.is_value M.empty M.op nodes.now root true true }
    ensures finger { IsFinger nodes.now root result }
    ensures looks { Looks root.height probes.old probes.new }
{
    if root.height == 0 {
        return 0;
    }
    rightmost(nodes, root.at, root.height - 1, true, probes)
}

/// The first leaf of a tree.
pub fn start_of<M: Monoid>(nodes: &Nodes<M>, root: Root, probes: &mut Probes) -> usize
    requires { IsTree M.is_value M.empty M.op nodes.now root true true }
    ensures front { IsFront nodes.now root result }
    ensures looks { Looks root.height probes.old probes.new }
{
    if root.height == 0 {
        return 0;
    }
    leftmost(nodes, root.at, root.height - 1, right_place(true), probes)
}

/// The first leaf after a change that wrote no node above a level: the one from before, unless the
/// root was written too.
pub fn front_after<M: Monoid>(
    nodes: &Nodes<M>,
    root: Root,
    below: u32,
    front: usize,
    probes: &mut Probes,
) -> usize
    requires { KeepsFront M.is_value M.empty M.op nodes.now root below front }
    ensures front { IsFront nodes.now root result }
    ensures looks { Looks (below + 1) probes.old probes.new }
{
    if below + 1 < root.height {
        return front;
    }
    start_of(nodes, root, probes)
}
