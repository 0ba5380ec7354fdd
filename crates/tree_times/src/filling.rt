ghost use Rattle.std.specs.Prelude.{◌≡◌, ◌≤◌, ◌^◌, []};

use crate::order::Order;
use agg_laws::{AggTree, Lift, Probes, Steps};
use aggregates::Sum;
use fiba_arena::ArenaTree;
use stream_base::NoMemory;

/// So many keys in an order.
#[derive(Clone, Copy)]
pub struct Keys {
    pub order: Order,
    pub count: u64,
    ghost few: { count ≤ 2 ^ 20 },
}

/// Puts keys into an empty tree.
pub fn fill<L>(
    tree: &mut ArenaTree<Sum>,
    keys: Keys,
    probes: &mut Probes,
    steps: &mut Steps<L>,
) -> Result<(), NoMemory>
    requires { tree.old.table.pairs ≡ [] }
{
    tree.reserve(keys.count)?;
    for i in 0..keys.count {
        tree.insert(keys.order.key(i), Sum::lift(1), probes, steps);
    }
    Ok(())
}

/// Takes keys out.
pub fn drain<L>(tree: &mut ArenaTree<Sum>, keys: Keys, probes: &mut Probes, steps: &mut Steps<L>) {
    for i in 0..keys.count {
        let _gone = tree.remove(keys.order.key(i), probes, steps);
    }
}
