ghost use Rattle.std.specs.Prelude.{◌≡◌, Some, suc, slice_get};
ghost use Rattle.fiba_nodes.specs.Trees.{IsAt, pair_of, pairs_at, plain};

use crate::item::Item;
use crate::nodes::Nodes;
use crate::place::Place;
use agg_laws::{Monoid, Probes};

/// The first item of a tree.
pub fn first_item<M: Monoid>(nodes: &Nodes<M>, at: usize, below: u32, place: Place) -> Item<M>
    requires { IsAt M.is_value M.empty M.op (plain nodes.now) (suc below)
        place.left place.right at }
    ensures { slice_get (pairs_at (plain nodes.now) (suc below) at) 0 ≡ Some (pair_of result) }
{
    let mut probes = Probes::new();
    let slot = nodes.get(at, &mut probes).slots().get(0);
    if below == 0 {
        return slot.item;
    }
    first_item(nodes, slot.kid, below - 1, place.front())
}
