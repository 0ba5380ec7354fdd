ghost use Rattle.std.specs.Prelude.{◌≡◌, ◌≢◌, ◌≤◌, ◌<◌, ◌+◌, length, true};
ghost use Rattle.agg_laws.specs.Counters.{Works};
ghost use Rattle.fiba_nodes.specs.Rows.{listed};
ghost use Rattle.fiba_nodes.specs.Trees.{IsAt, TreesAt, pairs_at, plain};
ghost use Rattle.fiba_nodes.specs.Places.{AreOrdered, IsFolded, IsStrung, is_all, way_high, way_low};

use crate::bound::Bound;
use crate::nodes::Nodes;
use crate::open::Open;
use crate::place::Place;
use crate::totals::with_kid;
use agg_laws::{Monoid, Probes, Steps};

/// The values between two bounds of the tree under a number, combined after a sum: one step a value
/// at most, and six for each level on the way to a bound. On an edge of the tree there is a bound.
pub fn fold_span<M: Monoid, L>(
    nodes: &Nodes<M>,
    at: usize,
    height: u32,
    place: Place,
    low: Bound,
    high: Bound,
    sum: M,
    probes: &mut Probes,
    steps: &mut Steps<L>,
) -> M
    requires tree { IsAt M.is_value M.empty M.op (plain nodes.now) height
        place.left place.right at }
    requires left { place.left ≡ true → low ≢ Bound.Start }
    requires right { place.right ≡ true → high ≢ Bound.End }
    requires order { AreOrdered low high }
    ensures folded { IsFolded M.op low high (pairs_at (plain nodes.now) height at) sum result
        steps.old steps.new }
    ensures work { Works (way_low low height + way_high high height + 1)
        probes.old probes.new steps.old steps.new }
{
    if height == 0 {
        return sum;
    }
    let node = nodes.peek(at, probes);
    if spans_all(low, high) {
        sum.vouch();
        return sum.combine(&node.agg, steps);
    }
    let open = Open {
        slots: node.slots(),
        last: node.last(),
    };
    let i = low.place(&open.slots);
    let j = high.place(&open.slots);
    let first = open.place(i, place);
    let kid = open.kid(i);
    if i == j {
        return fold_span(nodes, kid, height - 1, first, low, high, sum, probes, steps);
    }
    let end = Bound::End;
    let sum = fold_span(nodes, kid, height - 1, first, low, end, sum, probes, steps);
    let sum = fold_between(nodes, &open, height - 1, place, i, j, sum, probes, steps);
    let last = open.place(j, place);
    let start = Bound::Start;
    let kid = open.kid(j);
    fold_span(
        nodes,
        kid,
        height - 1,
        last,
        start,
        high,
        sum,
        probes,
        steps,
    )
}

// Whether all keys lie between two bounds.
fn spans_all(low: Bound, high: Bound) -> bool
    ensures { result ≡ is_all low high }
{
    match (low, high) {
        (Bound::Start, Bound::End) => true,
        (Bound::Start, Bound::Start) => false,
        (Bound::Start, Bound::Key(_)) => false,
        (Bound::Key(_), _) => false,
        (Bound::End, _) => false,
    }
}

// The items from a place to another and the children between them, combined after a sum. At most
// five steps.
fn fold_between<M: Monoid, L>(
    nodes: &Nodes<M>,
    open: &Open<M>,
    height: u32,
    place: Place,
    i: usize,
    j: usize,
    sum: M,
    probes: &mut Probes,
    steps: &mut Steps<L>,
) -> M
    requires kids { TreesAt M.is_value M.empty M.op (plain nodes.now) height place.left place.right
        (listed open.now.slots) open.now.last }
    requires order { i < j }
    requires within { j ≤ length (listed open.now.slots) }
    requires few { length (listed open.now.slots) ≤ 3 }
    ensures strung { IsStrung M.op (pairs_at (plain nodes.now) height) (listed open.now.slots)
        open.now.last i j sum result steps.old steps.new }
    ensures work { Works 5 probes.old probes.new steps.old steps.new }
{
    let mut sum = sum.combine(&open.slots.peek(i).item.value, steps);
    for k in i + 1..j {
        let slot = open.slots.peek(k);
        let inner = Place {
            left: false,
            right: false,
        };
        sum = with_kid(nodes, slot.kid, height, inner, sum, probes, steps).combine(
            &slot.item.value,
            steps,
        );
    }
    sum
}
