ghost use Rattle.std.specs.Prelude.{◌≤◌, ◌+◌, ◌*◌, true, IfSome, IfNone, IsSome, length};
ghost use Rattle.agg_laws.specs.Counters.{Works};
ghost use Rattle.fiba_nodes.specs.Rows.{listed};
ghost use Rattle.fiba_nodes.specs.Stores.{Store, full_nodes, look};
ghost use Rattle.fiba_nodes.specs.Trees.{IsOpened};
ghost use Rattle.fiba_nodes.specs.Changes.{CanApply};
ghost use Rattle.fiba_nodes.specs.declared.change.Change.TheVariants.{First};
ghost use Rattle.fiba_finger.specs.Pulls.{IsBare, IsHung, IsKept, Pulls};

use agg_laws::{Monoid, Probes, Steps};
use fiba_nodes::{Nest, Nodes, Open, Place, Row, settle, write};

/// Takes the first item out of a tree on the left edge. Only the nodes that lose an item or a child
/// are written: on that edge nothing above counts what lies below. Answers nothing where the tree is
/// whole again, and else the only child that its root has left, whose number stays held.
pub fn pull<M: Monoid, L>(
    nodes: &mut Nodes<M>,
    at: usize,
    below: u32,
    right: bool,
    probes: &mut Probes,
    steps: &mut Steps<L>,
) -> Option<usize>
    requires { CanApply M.is_value M.empty M.op nodes.old at below true right First }
    ensures pulls { Pulls M.is_value M.empty M.op nodes.old nodes.new at below right result }
    ensures full { full_nodes nodes.new ≤ full_nodes nodes.old }
    ensures work { Works (16 * below + 8) probes.old probes.new steps.old steps.new }
{
    if below == 0 {
        return pull_leaf(nodes, at, right, probes, steps);
    }
    let kid = nodes.peek(at, probes).first_kid();
    let Some(last) = pull(nodes, kid, below - 1, false, probes, steps) else {
        return None;
    };
    mend(nodes, at, below, right, last, probes, steps)
}

// Takes the first item out of a leaf.
fn pull_leaf<M: Monoid, L>(
    nodes: &mut Nodes<M>,
    at: usize,
    right: bool,
    probes: &mut Probes,
    steps: &mut Steps<L>,
) -> Option<usize>
    requires { CanApply M.is_value M.empty M.op nodes.old at 0 true right First }
    ensures pulls { Pulls M.is_value M.empty M.op nodes.old nodes.new at 0 right result }
    ensures full { full_nodes nodes.new ≤ full_nodes nodes.old }
    ensures work { Works 7 probes.old probes.new steps.old steps.new }
{
    let open = Open {
        slots: nodes.peek(at, probes).slots().rest(1),
        last: 0,
    };
    keep(
        nodes,
        at,
        &open,
        0,
        Place { left: true, right },
        probes,
        steps,
    )
}

// Gives a node's first child, which has only a child left, the item behind it and all that the next
// child has. A function of its own, since most nodes on the way down don't need its rows.
fn mend<M: Monoid, L>(
    nodes: &mut Nodes<M>,
    at: usize,
    below: u32,
    right: bool,
    last: usize,
    probes: &mut Probes,
    steps: &mut Steps<L>,
) -> Option<usize>
    requires hung { (old : Store M) × IsHung M.is_value M.empty M.op old nodes.old
        at below right last }
    ensures pulls { (old : Store M) → IsHung M.is_value M.empty M.op old nodes.old
        at below right last
        → Pulls M.is_value M.empty M.op old nodes.new at below right result }
    ensures full { full_nodes nodes.new ≤ full_nodes nodes.old }
    ensures work { Works 15 probes.old probes.new steps.old steps.new }
{
    let place = Place { left: true, right };
    let nest = Nest {
        row: nodes.peek(at, probes).opened(),
        at: 0,
        child: Open {
            slots: Row::Empty,
            last,
        },
    };
    let open = settle(nodes, &nest, below - 1, place, Some(at), probes, steps);
    keep(nodes, at, &open, below, place, probes, steps)
}

// Writes an opened node again if it has an item, and else answers its only child.
fn keep<M: Monoid, L>(
    nodes: &mut Nodes<M>,
    at: usize,
    open: &Open<M>,
    height: u32,
    place: Place,
    probes: &mut Probes,
    steps: &mut Steps<L>,
) -> Option<usize>
    requires opened { IsOpened M.is_value M.empty M.op nodes.old at height place.left place.right
        (listed open.now.slots) open.now.last }
    requires few { length (listed open.now.slots) ≤ 3 }
    requires there { IsSome (look nodes.old at) }
    ensures kept { IfNone result (IsKept M.is_value M.empty M.op nodes.old nodes.new at height
        place.left place.right (listed open.now.slots) open.now.last) }
    ensures bare { IfSome result (λ kid. IsBare nodes.old nodes.new (listed open.now.slots)
        open.now.last kid) }
    ensures work { Works 7 probes.old probes.new steps.old steps.new }
{
    if open.slots.len() == 0 {
        return Some(open.last);
    }
    let up = nodes.peek(at, probes).up;
    write(nodes, at, open, height, place, up, probes, steps);
    None
}
