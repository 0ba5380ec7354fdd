//! Puts keys into a tree of partial aggregates, and takes them out again where asked to: what
//! `bench/trees.sh` and `bench/fingers.sh` time. *Promise*: no key comes twice.
#![tactic(auto)]

ghost use Rattle.std.specs.Prelude.{◌≡◌, ◌≤◌, ◌^◌, []};

mod filling;
mod near;
mod order;

use agg_laws::{AggTree, Probes, Steps};
use aggregates::Sum;
use fiba_arena::ArenaTree;
use fiba_finger::FingerTree;
use filling::{Keys, drain, fill};
use near::Near;
use order::Order;
use std::{env, io};

// Keeps the steps apart.
struct Work;

/// `rising`, `scattered` or `removed`, and how many keys; or `near`, `arena` or `finger`, the
/// distance of late keys, how many keys come before them, and how many late ones.
fn main(rt: HostRuntime) -> io::Result<()> {
    let mut words = Vec::new(rt.alloc());
    for word in env::args(&rt)?.skip(1) {
        words.push(word)?;
    }
    let mut steps: Steps<Work> = Steps::start(&rt);
    let mut late_steps: Steps<Work> = Steps::start(&rt);
    match words.as_slice() {
        [what, tree, distance, count, late] if what.as_str() == "near" => {
            let near = Near::of(number(distance), number(count), number(late));
            if tree.as_str() == "finger" {
                let mut tree: FingerTree<Sum> = FingerTree::fresh(rt.alloc());
                put_near(&rt, &mut tree, near, &mut steps, &mut late_steps)
            } else {
                let mut tree: ArenaTree<Sum> = ArenaTree::fresh(rt.alloc());
                put_near(&rt, &mut tree, near, &mut steps, &mut late_steps)
            }
        }
        [what, count] => {
            let what = what.as_str();
            let keys = Keys {
                order: Order::named(what),
                count: number(count),
            };
            put_all(&rt, keys, what == "removed", &mut steps)
        }
        _ => {
            let keys = Keys {
                order: Order::Scattered,
                count: 1000,
            };
            put_all(&rt, keys, false, &mut steps)
        }
    }
}

// The number that a word is, at most 2^20, and 1000 where it is none.
fn number(word: &str) -> u64
    ensures { result ≤ 2 ^ 20 }
{
    word.parse::<u64>().unwrap_or(1000).min(1 << 20)
}

// Fills a tree with keys, takes them out again where asked to, and says what it holds.
fn put_all(
    rt: &HostRuntime,
    keys: Keys,
    are_removed: bool,
    steps: &mut Steps<Work>,
) -> io::Result<()> {
    let mut probes = Probes::new();
    let mut tree: ArenaTree<Sum> = ArenaTree::fresh(rt.alloc());
    if fill(&mut tree, keys, &mut probes, steps).is_err() {
        println!(rt; "no memory")?;
    }
    if are_removed {
        drain(&mut tree, keys, &mut probes, steps);
    }
    let sum = tree.fold_range(0, 1 << 20, &mut probes, steps).sum;
    println!(rt; "{} pairs, sum {sum}", tree.len())?;
    Ok(())
}

// Fills an empty tree with late keys among the others, and says what it holds and how many
// combines the late ones took.
fn put_near<T: AggTree<Sum>>(
    rt: &HostRuntime,
    tree: &mut T,
    near: Near,
    steps: &mut Steps<Work>,
    late_steps: &mut Steps<Work>,
) -> io::Result<()>
    requires empty { (T.table tree.old).pairs ≡ [] }
    requires far { near.distance ≤ near.count }
    requires few { near.count ≤ 2 ^ 20 }
    requires few_late { near.late ≤ 2 ^ 20 }
{
    let mut probes = Probes::new();
    if near.fill(tree, &mut probes, steps, late_steps).is_err() {
        println!(rt; "no memory")?;
    }
    let sum = tree.fold_range(0, 1 << 23, &mut probes, steps).sum;
    let combines = late_steps.count();
    println!(rt; "{} pairs, sum {sum}, {combines} combines", tree.len())?;
    Ok(())
}
