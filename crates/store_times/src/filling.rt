ghost use Rattle.std.specs.Prelude.{◌≤◌, ◌^◌};
ghost use Rattle.agg_store.specs.Stored.{IsSliced};

use crate::order::Order;
use agg_laws::{AggTree, Steps};
use aggregates::Partial;
use slice_store::SliceStore;
use stream_base::{Defs, Kept, NoMemory};

/// Puts so many tuples into a store.
pub fn fill<M: Partial, T: AggTree<M>, L>(
    store: &mut SliceStore<M, T>,
    defs: &Defs,
    order: Order,
    count: u64,
    steps: &mut Steps<L>,
) -> Result<(), NoMemory>
    requires sliced { IsSliced defs.now.windows store.old }
    requires few { count ≤ 2 ^ 20 }
    ensures sliced { IsSliced defs.now.windows store.new }
{
    let mut seed = 1;
    for i in 0..count {
        seed = next_seed(seed);
        store.reserve()?;
        let x = Kept {
            position: i,
            time: order.time(i, seed),
            value: (seed >> 40) as i64,
        };
        store.put(defs, x, steps);
    }
    Ok(())
}

// The next of numbers that look random (Knuth's linear congruential generator).
fn next_seed(seed: u64) -> u64 {
    seed.wrapping_mul(6_364_136_223_846_793_005)
        .wrapping_add(1_442_695_040_888_963_407)
}
