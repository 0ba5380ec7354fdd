ghost use Rattle.std.specs.Prelude.{◌≡◌, ◌≤◌, ◌+◌, ◌*◌, false, true, IfSome, IfNone, length};
ghost use Rattle.agg_laws.specs.Counters.{Looks};
ghost use Rattle.fiba_nodes.specs.Rows.{listed};
ghost use Rattle.fiba_nodes.specs.Stores.{full_nodes, held, look};
ghost use Rattle.fiba_nodes.specs.Changes.{CanApply, IsApplied, IsItemAt, IsPaid, IsPassed, growth, is_first, meets};

use crate::applied::Applied;
use crate::change::Change;
use crate::item::Item;
use crate::leaf::{leaf_applied, met, rank};
use crate::nest::Nest;
use crate::nodes::Nodes;
use crate::place::Place;
use crate::row::Row;
use crate::settling::settle;
use crate::slot::Slot;
use agg_laws::{Monoid, Probes, Steps};

/// Makes a change to the tree under a node, whose children's trees are `below` high. The node
/// stays open. At most eight steps for each level below it.
pub fn apply<M: Monoid, L>(
    nodes: &mut Nodes<M>,
    at: usize,
    below: u32,
    place: Place,
    change: Change<M>,
    probes: &mut Probes,
    steps: &mut Steps<L>,
) -> Applied<M>
    requires { CanApply M.is_value M.empty M.op nodes.old at below place.left place.right change }
    ensures applied { IsApplied M.is_value M.empty M.op nodes.old nodes.new at below
        place.left place.right change result.taken (listed result.open.slots) result.open.last }
    ensures some { 1 ≤ growth change → 1 ≤ length (listed result.open.slots) }
    ensures spare { nodes.old.spare ≤ nodes.new.spare + below }
    ensures grows { 1 ≤ growth change → nodes.new.spare ≤ nodes.old.spare }
    ensures paid { IsPaid change (full_nodes nodes.old) (full_nodes nodes.new)
        nodes.old.spare nodes.new.spare (held (look nodes.old at))
        (length (listed result.open.slots)) }
    ensures looks { Looks (12 * below + 1) probes.old probes.new }
    ensures cost { steps.new ≤ steps.old + 8 * below }
{
    let open = nodes.peek(at, probes).opened();
    if below == 0 {
        return leaf_applied(&open, &change);
    }
    let i = rank(&open.slots, &change);
    let Some(old) = inner_met(&open.slots, i, &change) else {
        let inner = open.place(i, place);
        let kid = apply(nodes, open.kid(i), below - 1, inner, change, probes, steps);
        let nest = Nest {
            row: open,
            at: i,
            child: kid.open,
        };
        let open = settle(nodes, &nest, below - 1, place, Some(at), probes, steps);
        return Applied {
            open,
            taken: kid.taken,
        };
    };
    if let Some(item) = change.item() {
        return Applied {
            open: open.with_item(i, item),
            taken: Some(old),
        };
    }
    let inner = open.place(i + 1, place);
    let next = open.kid(i + 1);
    let kid = apply(nodes, next, below - 1, inner, Change::First, probes, steps);
    let nest = Nest {
        row: open.with_item(i, kid.taken.unwrap()),
        at: i + 1,
        child: kid.open,
    };
    let open = settle(nodes, &nest, below - 1, place, Some(at), probes, steps);
    Applied {
        open,
        taken: Some(old),
    }
}

/// Makes a change as `apply` does. A leaf is changed without the space on the stack that a way down
/// takes, which is filled with zeros at each call.
pub fn apply_low<M: Monoid, L>(
    nodes: &mut Nodes<M>,
    at: usize,
    below: u32,
    place: Place,
    change: Change<M>,
    probes: &mut Probes,
    steps: &mut Steps<L>,
) -> Applied<M>
    requires { CanApply M.is_value M.empty M.op nodes.old at below place.left place.right change }
    ensures applied { IsApplied M.is_value M.empty M.op nodes.old nodes.new at below
        place.left place.right change result.taken (listed result.open.slots) result.open.last }
    ensures some { 1 ≤ growth change → 1 ≤ length (listed result.open.slots) }
    ensures spare { nodes.old.spare ≤ nodes.new.spare + below }
    ensures grows { 1 ≤ growth change → nodes.new.spare ≤ nodes.old.spare }
    ensures paid { IsPaid change (full_nodes nodes.old) (full_nodes nodes.new)
        nodes.old.spare nodes.new.spare (held (look nodes.old at))
        (length (listed result.open.slots)) }
    ensures looks { Looks (12 * below + 1) probes.old probes.new }
    ensures cost { steps.new ≤ steps.old + 8 * below }
{
    if below != 0 {
        return apply(nodes, at, below, place, change, probes, steps);
    }
    let open = nodes.peek(at, probes).opened();
    leaf_applied(&open, &change)
}

// The item at a place of a node that isn't a leaf, if the change is about it. The first item of
// all is never in such a node.
fn inner_met<M: Copy>(slots: &Row<Slot<M>>, at: usize, change: &Change<M>) -> Option<Item<M>>
    ensures some { IfSome result (λ item. meets change.now item.key ≡ true) }
    ensures there { IfSome result (λ item. IsItemAt (listed slots.now) at item) }
    ensures other { IfSome result (λ _. is_first change.now ≡ false) }
    ensures none { IfNone result (IsPassed change.now (listed slots.now) at) }
{
    if change.is_first() {
        return None;
    }
    met(slots, at, change)
}
