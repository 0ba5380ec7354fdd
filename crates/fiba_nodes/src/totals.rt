ghost use Rattle.std.specs.Prelude.{◌≡◌, ◌≤◌, ◌+◌, ◌*◌, ◌||◌, [], length, fold, if◌then◌else◌};
ghost use Rattle.agg_laws.specs.Counters.{Looks, Spends};
ghost use Rattle.agg_laws.specs.Laws.{total};
ghost use Rattle.agg_laws.specs.Pairs.{values_of};
ghost use Rattle.fiba_nodes.specs.Rows.{listed};
ghost use Rattle.fiba_nodes.specs.Trees.{AreValues, IsAt, TreesAt, pairs_at, plain, shown};

use crate::nodes::Nodes;
use crate::place::Place;
use crate::row::Row;
use crate::slot::Slot;
use agg_laws::{Monoid, Probes, Steps};

/// What a node over these children comes to at its place. At most two steps an item, and one.
pub fn total_of<M: Monoid, L>(
    nodes: &Nodes<M>,
    slots: &Row<Slot<M>>,
    last: usize,
    height: u32,
    place: Place,
    probes: &mut Probes,
    steps: &mut Steps<L>,
) -> M
    requires items { AreValues M.is_value (listed slots.now) }
    requires kids { TreesAt M.is_value M.empty M.op (plain nodes.now) height place.left place.right
        (listed slots.now) last }
    ensures value { result ≡ total M.empty M.op (values_of
        (shown place.left place.right (pairs_at (plain nodes.now) height)
        (listed slots.now) last)) }
    ensures looks { Looks (length (listed slots.now) + 1) probes.old probes.new }
    ensures cost { steps.new ≤ steps.old + 2 * length (listed slots.now) + 1 }
{
    let mut sum = M::unit();
    let mut left = place.left;
    for i in 0..slots.len() {
        let slot = slots.peek(i);
        let inner = Place { left, right: false };
        sum = with_kid(nodes, slot.kid, height, inner, sum, probes, steps).combine(
            &slot.item.value,
            steps,
        );
        left = false;
    }
    let end = Place {
        left,
        right: place.right,
    };
    with_kid(nodes, last, height, end, sum, probes, steps)
}

/// A sum and then a child's aggregate, unless that child is on an edge. At most one step.
pub fn with_kid<M: Monoid, L>(
    nodes: &Nodes<M>,
    kid: usize,
    height: u32,
    place: Place,
    sum: M,
    probes: &mut Probes,
    steps: &mut Steps<L>,
) -> M
    requires { IsAt M.is_value M.empty M.op (plain nodes.now) height place.left place.right kid }
    ensures value { result ≡ fold M.op sum (values_of
        (if place.left || place.right then [] else pairs_at (plain nodes.now) height kid)) }
    ensures looks { Looks 1 probes.old probes.new }
    ensures work { Spends 1 (length
        (if place.left || place.right then [] else pairs_at (plain nodes.now) height kid))
        steps.old steps.new }
{
    if place.left || place.right || height == 0 {
        return sum;
    }
    sum.vouch();
    sum.combine(&nodes.peek(kid, probes).agg, steps)
}
