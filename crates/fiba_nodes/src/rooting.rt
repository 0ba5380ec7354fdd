ghost use Rattle.std.specs.Prelude.{◌≡◌, ◌≤◌, ◌<◌, ◌+◌, ◌-◌, ◌*◌, ◌^◌, false, true, length};
ghost use Rattle.agg_laws.specs.Counters.{Looks};
ghost use Rattle.fiba_nodes.specs.Rows.{listed};
ghost use Rattle.fiba_nodes.specs.Trees.{IsOpened};
ghost use Rattle.fiba_nodes.specs.Stores.{full_nodes, fullness, held, look};
ghost use Rattle.fiba_nodes.specs.Changes.{growth, is_first, is_set};
ghost use Rattle.fiba_nodes.specs.Roots.{CanChange, CanSprout, IsChanged, IsPlanted, IsSprouted};

use crate::applying::apply;
use crate::change::Change;
use crate::changed::Changed;
use crate::item::Item;
use crate::nodes::Nodes;
use crate::open::Open;
use crate::place::Place;
use crate::root::Root;
use crate::row::Row;
use crate::slot::Slot;
use crate::writing::{close, create};
use agg_laws::{Monoid, Probes, Steps};

/// Makes a change to a tree. The height grows by one at most, and only where an item comes in. At
/// most eight steps a level, and three.
pub fn change_root<M: Monoid, L>(
    nodes: &mut Nodes<M>,
    root: Root,
    place: Place,
    change: Change<M>,
    probes: &mut Probes,
    steps: &mut Steps<L>,
) -> Changed<M>
    requires can { CanChange M.is_value M.empty M.op nodes.old root place.left place.right change }
    requires known { is_first change ≡ false }
    ensures changed { IsChanged M.is_value M.empty M.op nodes.old nodes.new root result.root
        place.left place.right change result.taken }
    ensures grows { full_nodes nodes.new ≤ full_nodes nodes.old + growth change }
    ensures kept { is_set change ≡ true → full_nodes nodes.new ≡ full_nodes nodes.old }
    ensures looks { Looks (12 * root.height + 4) probes.old probes.new }
    ensures cost { steps.new ≤ steps.old + 8 * root.height + 3 }
{
    if root.height == 0 {
        return Changed {
            root: sprout(nodes, root, place, change.added(), probes, steps),
            taken: None,
        };
    }
    let below = root.height - 1;
    let applied = apply(nodes, root.at, below, place, change, probes, steps);
    Changed {
        root: plant(nodes, root.at, below, place, &applied.open, probes, steps),
        taken: applied.taken,
    }
}

// The tree of one item, or of none.
fn sprout<M: Monoid, L>(
    nodes: &mut Nodes<M>,
    root: Root,
    place: Place,
    item: Option<Item<M>>,
    probes: &mut Probes,
    steps: &mut Steps<L>,
) -> Root
    requires can { CanSprout M.is_value M.empty M.op nodes.old root item }
    ensures sprouted { IsSprouted M.is_value M.empty M.op nodes.old nodes.new root
        place.left place.right item result }
    ensures full { full_nodes nodes.new ≡ full_nodes nodes.old }
    ensures looks { Looks 4 probes.old probes.new }
    ensures cost { steps.new ≤ steps.old + 3 }
{
    let Some(item) = item else {
        return root;
    };
    let open = Open {
        slots: Row::One(Slot { kid: 0, item }),
        last: 0,
    };
    Root {
        at: create(nodes, &open, 0, place, probes, steps),
        height: 1,
    }
}

/// The root that an opened root becomes: its only child where it has no item, else a node or two
/// with a new root above them. At most eight steps, and three more where it is split.
pub fn plant<M: Monoid, L>(
    nodes: &mut Nodes<M>,
    at: usize,
    below: u32,
    place: Place,
    open: &Open<M>,
    probes: &mut Probes,
    steps: &mut Steps<L>,
) -> Root
    requires opened { IsOpened M.is_value M.empty M.op nodes.old at below place.left place.right
        (listed open.now.slots) open.now.last }
    requires room { length (listed open.now.slots) ≤ nodes.old.spare + 1 }
    requires levels { below + 2 < 2 ^ 32 }
    ensures planted { IsPlanted M.is_value M.empty M.op nodes.old nodes.new at below
        place.left place.right (listed open.now.slots) open.now.last result }
    ensures height { 1 ≤ length (listed open.now.slots)
        → result.height ≡ below + 1 + (length (listed open.now.slots) - 3) }
    ensures spare { 1 ≤ length (listed open.now.slots)
        → nodes.new.spare + 2 * (length (listed open.now.slots) - 3) ≡ nodes.old.spare }
    ensures full { full_nodes nodes.new + fullness (held (look nodes.old at))
        ≡ full_nodes nodes.old + fullness (length (listed open.now.slots)) }
    ensures looks { Looks (10 + 4 * (length (listed open.now.slots) - 3))
        probes.old probes.new }
    ensures cost { steps.new ≤ steps.old + 8 + 3 * (length (listed open.now.slots) - 3) }
{
    if open.slots.len() == 0 {
        nodes.free(at);
        return Root {
            at: open.last,
            height: below,
        };
    }
    let closed = close(nodes, at, open, 3, below, place, None, probes, steps);
    if closed.slots.len() == 0 {
        return Root {
            at: closed.last,
            height: below + 1,
        };
    }
    Root {
        at: create(nodes, &closed, below + 1, place, probes, steps),
        height: below + 2,
    }
}
