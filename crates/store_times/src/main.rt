//! Puts tuples into a store of slices: what `bench/store.sh` times. *Promise*: the slices are those
//! of the definitions.
#![tactic(auto)]

mod filling;
mod order;

use agg_laws::{AggTree, Steps};
use agg_store::AggStore;
use aggregates::{Bundle, Partial};
use filling::fill;
use order::Order;
use pair_row::FlatTree;
use slice_store::SliceStore;
use std::{env, io};
use stream_base::{Def, Defs, FINAL, Func, Kind};

// Keeps the steps apart.
struct Work;

/// `in_order` or `late`, and how many tuples.
fn main(rt: HostRuntime) -> io::Result<()> {
    let mut words = Vec::new(rt.alloc());
    for word in env::args(&rt)?.skip(1) {
        words.push(word)?;
    }
    let (what, number) = match words.as_slice() {
        [what, number] => (what.as_str(), number.as_str()),
        _ => ("late", "1000"),
    };
    let count = number.parse::<u64>().unwrap_or(1000).min(1 << 20);
    let tumbling = Def {
        kind: Kind::Tumbling { length: 100 },
        func: Func::Sum,
    };
    let Ok(defs) = Defs::new(vec![in rt.alloc(); tumbling]?, 0, 0, 0) else {
        println!(rt; "no definitions")?;
        return Ok(());
    };
    let mut steps: Steps<Work> = Steps::start(&rt);
    let mut store: SliceStore<Bundle, FlatTree<Bundle>> = SliceStore::new(rt.alloc());
    if fill(&mut store, &defs, Order::named(what), count, &mut steps).is_err() {
        println!(rt; "no memory")?;
    }
    let slices = store.slice_count();
    let trace = fold_all(&store, &mut steps).show(Func::Trace);
    println!(rt; "{slices} slices, trace {trace:?}")?;
    Ok(())
}

// The fold of all tuples.
fn fold_all<M: Partial, T: AggTree<M>, L>(store: &SliceStore<M, T>, steps: &mut Steps<L>) -> M {
    let _count = store.slice_count();
    store.fold(0, FINAL, steps)
}
