ghost use Rattle.std.specs.Prelude.{◌≡◌, ◌≤◌, ◌<◌, ◌+◌, ◌-◌, ◌*◌, suc, false, None, Some, length};
ghost use Rattle.agg_laws.specs.Counters.{Looks};
ghost use Rattle.fiba_nodes.specs.Rows.{FitsNode, listed};
ghost use Rattle.fiba_nodes.specs.Stores.{full_nodes, fullness, held, look};
ghost use Rattle.fiba_nodes.specs.Trees.{HasUp, IsClosed, IsLoose, KidsAt, IsOpened, IsWritten, Moves, TreesAt, only, plain, row_times, times, ups};
ghost use Rattle.fiba_nodes.specs.Links.{AreAdopted};

use crate::node::Node;
use crate::nodes::Nodes;
use crate::open::Open;
use crate::place::Place;
use crate::row::Row;
use crate::slot::Slot;
use crate::totals::total_of;
use agg_laws::{Monoid, Probes, Steps};

// Another parent for all children of a row.
fn adopt_all<M: Monoid>(
    nodes: &mut Nodes<M>,
    open: &Open<M>,
    height: u32,
    place: Place,
    at: usize,
    probes: &mut Probes,
)
    requires { TreesAt M.is_value M.empty M.op (plain nodes.old) height place.left place.right
        (listed open.now.slots) open.now.last }
    ensures adopted { AreAdopted nodes.old nodes.new height
        (listed open.now.slots) open.now.last at }
    ensures looks { Looks (length (listed open.now.slots) + 1) probes.old probes.new }
{
    if height == 0 {
        return;
    }
    for i in 0..open.slots.len() {
        nodes.adopt(open.slots.peek(i).kid, at, probes);
    }
    nodes.adopt(open.last, at, probes);
}

/// A node over these items and children under a number that is held for it. At most two steps an
/// item, and one.
pub fn write<M: Monoid, L>(
    nodes: &mut Nodes<M>,
    at: usize,
    open: &Open<M>,
    height: u32,
    place: Place,
    up: Option<usize>,
    probes: &mut Probes,
    steps: &mut Steps<L>,
)
    requires opened { IsOpened M.is_value M.empty M.op nodes.old at height place.left place.right
        (listed open.now.slots) open.now.last }
    requires fits { FitsNode (listed open.now.slots) }
    ensures written { IsWritten M.is_value M.empty M.op nodes.old nodes.new at height
        place.left place.right (listed open.now.slots) open.now.last }
    ensures moves { Moves (look nodes.old) (look nodes.new)
        (λ k. only k at
        + row_times k (plain nodes.old) height (listed open.now.slots) open.now.last)
        (λ k. times k (plain nodes.new) (suc height) at) }
    ensures spare { nodes.new.spare ≡ nodes.old.spare }
    ensures up { ups nodes.new at ≡ Some up }
    ensures kids { KidsAt (λ _ _ k. HasUp nodes.new height at k) false false
        (listed open.now.slots) open.now.last }
    ensures full { full_nodes nodes.new + fullness (held (look nodes.old at))
        ≡ full_nodes nodes.old + fullness (length (listed open.now.slots)) }
    ensures looks { Looks (2 * length (listed open.now.slots) + 2) probes.old probes.new }
    ensures cost { steps.new ≤ steps.old + 2 * length (listed open.now.slots) + 1 }
{
    let agg = total_of(nodes, &open.slots, open.last, height, place, probes, steps);
    adopt_all(nodes, open, height, place, at, probes);
    nodes.set(at, Node::made(&open.slots, open.last, height == 0, up, agg));
}

/// A node over these items and children under a number that wasn't there. Uses one spare. At most
/// two steps an item, and one.
pub fn create<M: Monoid, L>(
    nodes: &mut Nodes<M>,
    open: &Open<M>,
    height: u32,
    place: Place,
    probes: &mut Probes,
    steps: &mut Steps<L>,
) -> usize
    requires loose { IsLoose M.is_value M.empty M.op nodes.old height place.left place.right
        (listed open.now.slots) open.now.last }
    requires fits { FitsNode (listed open.now.slots) }
    requires room { 1 ≤ nodes.old.spare }
    ensures written { IsWritten M.is_value M.empty M.op nodes.old nodes.new result height
        place.left place.right (listed open.now.slots) open.now.last }
    ensures moves { Moves (look nodes.old) (look nodes.new)
        (λ k. row_times k (plain nodes.old) height (listed open.now.slots) open.now.last)
        (λ k. times k (plain nodes.new) (suc height) result) }
    ensures spare { nodes.new.spare + 1 ≡ nodes.old.spare }
    ensures kids { KidsAt (λ _ _ k. HasUp nodes.new height result k) false false
        (listed open.now.slots) open.now.last }
    ensures full { full_nodes nodes.new
        ≡ full_nodes nodes.old + fullness (length (listed open.now.slots)) }
    ensures looks { Looks (2 * length (listed open.now.slots) + 2) probes.old probes.new }
    ensures cost { steps.new ≤ steps.old + 2 * length (listed open.now.slots) + 1 }
{
    let blank = Node::made(&open.slots, open.last, height == 0, None, M::unit());
    let at = nodes.add(blank);
    write(nodes, at, open, height, place, None, probes, steps);
    at
}

/// Closes an opened node again: one node under its number, or two where it has more items than
/// `most`. At most eight steps.
pub fn close<M: Monoid, L>(
    nodes: &mut Nodes<M>,
    at: usize,
    open: &Open<M>,
    most: usize,
    height: u32,
    place: Place,
    up: Option<usize>,
    probes: &mut Probes,
    steps: &mut Steps<L>,
) -> Open<M>
    requires opened { IsOpened M.is_value M.empty M.op nodes.old at height place.left place.right
        (listed open.now.slots) open.now.last }
    requires some { 1 ≤ length (listed open.now.slots) }
    requires two { 2 ≤ most }
    requires three { most ≤ 3 }
    requires room { most < length (listed open.now.slots) → 1 ≤ nodes.old.spare }
    ensures closed { IsClosed M.is_value M.empty M.op nodes.old nodes.new at height
        place.left place.right (listed open.now.slots) open.now.last
        (listed result.slots) result.last }
    ensures whole { length (listed open.now.slots) ≤ most → length (listed result.slots) ≡ 0 }
    ensures split { most < length (listed open.now.slots) → length (listed result.slots) ≡ 1 }
    ensures spare { nodes.new.spare + length (listed result.slots) ≡ nodes.old.spare }
    ensures full { 3 ≤ most → full_nodes nodes.new + fullness (held (look nodes.old at))
        ≡ full_nodes nodes.old + fullness (length (listed open.now.slots)) }
    ensures thin { most ≤ 2 → full_nodes nodes.new + fullness (held (look nodes.old at))
        ≡ full_nodes nodes.old }
    ensures looks { Looks 10 probes.old probes.new }
    ensures cost { steps.new ≤ steps.old + 8 }
{
    if open.slots.len() <= most {
        write(nodes, at, open, height, place, up, probes, steps);
        return Open {
            slots: Row::Empty,
            last: at,
        };
    }
    let cut = open.slots.len() - 2;
    let middle = open.slots.get(cut);
    let front = Open {
        slots: open.slots.first(cut),
        last: middle.kid,
    };
    let back = Open {
        slots: open.slots.rest(cut + 1),
        last: open.last,
    };
    let last = create(nodes, &back, height, place.back(), probes, steps);
    write(nodes, at, &front, height, place.front(), up, probes, steps);
    Open {
        slots: Row::One(Slot {
            kid: at,
            item: middle.item,
        }),
        last,
    }
}
