ghost use Rattle.std.specs.Prelude.{◌≡◌, ◌≤◌, ◌<◌, ◌+◌, ◌-◌, length};
ghost use Rattle.agg_laws.specs.Counters.{Looks};
ghost use Rattle.fiba_nodes.specs.Rows.{FitsNode, listed};
ghost use Rattle.fiba_nodes.specs.Stores.{full_nodes, fullness, held, look};
ghost use Rattle.fiba_nodes.specs.Kids.{kid_of};
ghost use Rattle.fiba_nodes.specs.Nested.{IsNested};
ghost use Rattle.fiba_nodes.specs.Filling.{Fills, HasEmptyChild, Settles, opened_kid};

use crate::nest::Nest;
use crate::nodes::Nodes;
use crate::open::Open;
use crate::place::Place;
use crate::slot::Slot;
use crate::writing::close;
use agg_laws::{Monoid, Probes, Steps};

/// Closes the opened child of a row: it becomes one node or two, together with a neighbour where
/// it has no item of its own. At most eight steps. It makes a full node only where the child has
/// three items.
pub fn settle<M: Monoid, L>(
    nodes: &mut Nodes<M>,
    nest: &Nest<M>,
    height: u32,
    place: Place,
    up: Option<usize>,
    probes: &mut Probes,
    steps: &mut Steps<L>,
) -> Open<M>
    requires nested { IsNested M.is_value M.empty M.op nodes.old height place.left place.right
        (listed nest.now.row.slots) nest.now.row.last nest.now.at
        (listed nest.now.child.slots) nest.now.child.last }
    requires fits { FitsNode (listed nest.now.row.slots) }
    requires room { 4 ≤ length (listed nest.now.child.slots) → 1 ≤ nodes.old.spare }
    ensures settled { Settles M.is_value M.empty M.op nodes.old nodes.new height place nest.now
        result }
    ensures kept { 1 ≤ length (listed nest.now.child.slots)
        → length (listed nest.now.row.slots) ≤ length (listed result.slots) }
    ensures spare { nodes.old.spare ≤ nodes.new.spare + 1 }
    ensures taken { 1 ≤ length (listed nest.now.child.slots)
        → nodes.new.spare + (length (listed nest.now.child.slots) - 3) ≡ nodes.old.spare }
    ensures full { full_nodes nodes.new + fullness (held (look nodes.old
        (kid_of (listed nest.now.row.slots) nest.now.row.last nest.now.at)))
        ≤ full_nodes nodes.old + fullness (length (listed nest.now.child.slots)) }
    ensures even { 1 ≤ length (listed nest.now.child.slots)
        → full_nodes nodes.new + fullness (held (look nodes.old (opened_kid nest.now)))
        ≡ full_nodes nodes.old + fullness (length (listed nest.now.child.slots)) }
    ensures looks { Looks 11 probes.old probes.new }
    ensures cost { steps.new ≤ steps.old + 8 }
{
    let most = most_items(&nest.child);
    let nest = filled(nodes, nest, height, place, probes);
    let at = nest.row.kid(nest.at);
    let inner = nest.row.place(nest.at, place);
    let closed = close(
        nodes,
        at,
        &nest.child,
        most,
        height,
        inner,
        up,
        probes,
        steps,
    );
    nest.row.spliced(nest.at, closed)
}

// How many items a node can have that an opened child becomes: three, and two where the child has
// none of its own. So a removal makes no full node: there are no more of them than insertions, and
// each pays for one split.
fn most_items<M: Copy>(child: &Open<M>) -> usize
    ensures some { 1 ≤ length (listed child.now.slots) → result ≡ 3 }
    ensures none { length (listed child.now.slots) ≡ 0 → result ≡ 2 }
    ensures two { 2 ≤ result }
    ensures three { result ≤ 3 }
    ensures few { length (listed child.now.slots) ≤ 4 }
{
    if child.slots.len() == 0 { 2 } else { 3 }
}

// Gives the opened child an item: where it has none, it takes the item beside it and all that the
// neighbour behind that item has.
fn filled<M: Monoid>(
    nodes: &mut Nodes<M>,
    nest: &Nest<M>,
    height: u32,
    place: Place,
    probes: &mut Probes,
) -> Nest<M>
    requires nested { IsNested M.is_value M.empty M.op nodes.old height place.left place.right
        (listed nest.now.row.slots) nest.now.row.last nest.now.at
        (listed nest.now.child.slots) nest.now.child.last }
    requires some { 1 ≤ length (listed nest.now.row.slots) }
    requires room { 4 ≤ length (listed nest.now.child.slots) → 1 ≤ nodes.old.spare }
    ensures fills { Fills M.is_value M.empty M.op nodes.old nodes.new height place nest.now result
        probes.old probes.new }
    ensures same { 1 ≤ length (listed nest.now.child.slots) → result ≡ nest.now }
    ensures still { 1 ≤ length (listed nest.now.child.slots) → nodes.new ≡ nodes.old }
{
    if nest.child.slots.len() != 0 {
        return *nest;
    }
    if nest.at < nest.row.slots.len() {
        return with_next(nodes, nest, height, place, probes);
    }
    with_previous(nodes, nest, height, place, probes)
}

// The opened child together with the next one, which is freed.
fn with_next<M: Monoid>(
    nodes: &mut Nodes<M>,
    nest: &Nest<M>,
    height: u32,
    place: Place,
    probes: &mut Probes,
) -> Nest<M>
    requires empty { HasEmptyChild M.is_value M.empty M.op nodes.old height place nest.now }
    requires inner { nest.now.at < length (listed nest.now.row.slots) }
    ensures { Fills M.is_value M.empty M.op nodes.old nodes.new height place nest.now result
        probes.old probes.new }
{
    let item = nest.row.slots.peek(nest.at).item;
    let next = nest.row.kid(nest.at + 1);
    let node = nodes.peek(next, probes);
    let (behind, last) = (node.slots(), node.last());
    nodes.free(next);
    let kid = nest.child.last;
    let front = nest.child.slots.pushed(Slot { kid, item });
    Nest {
        row: nest.row.thinned(nest.at),
        at: nest.at,
        child: Open {
            slots: front.joined(&behind),
            last,
        },
    }
}

// The opened child together with the previous one, under whose number they go on.
fn with_previous<M: Monoid>(
    nodes: &mut Nodes<M>,
    nest: &Nest<M>,
    height: u32,
    place: Place,
    probes: &mut Probes,
) -> Nest<M>
    requires empty { HasEmptyChild M.is_value M.empty M.op nodes.old height place nest.now }
    requires inner { 1 ≤ nest.now.at }
    ensures { Fills M.is_value M.empty M.op nodes.old nodes.new height place nest.now result
        probes.old probes.new }
{
    let at = nest.at - 1;
    let item = nest.row.slots.peek(at).item;
    let node = nodes.peek(nest.row.kid(at), probes);
    let kid = node.last();
    let front = node.slots().pushed(Slot { kid, item });
    nodes.free(nest.row.kid(nest.at));
    Nest {
        row: nest.row.thinned(at),
        at,
        child: Open {
            slots: front.joined(&nest.child.slots),
            last: nest.child.last,
        },
    }
}
