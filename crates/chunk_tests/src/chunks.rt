ghost use Rattle.std.specs.Prelude.{◌<◌};

use crate::both::Both;
use crate::draws::Draws;
use agg_laws::Steps;
use slice_lists::Slice;
use std::alloc::Global;
use std::process::Abort;
use std::test::Fail;
use std::thread::Threads;
use stream_base::Kept;
use tuple_chunks::Tuples;

// So many tuples: more than two groups of chunks.
const TUPLES: u64 = 9_000;

// How the times of tuples go.
#[derive(Clone, Copy)]
enum Order {
    Rising,
    Falling,
    Equal,
    Random,
}

fn time_of(order: Order, i: u64, draws: &mut Draws) -> u64
    requires { i < 9000 }
{
    match order {
        Order::Rising => i / 2,
        Order::Falling => 9_000 - i,
        Order::Equal => 4_000,
        Order::Random => draws.below(9_000),
    }
}

fn fill<R: Abort + Threads>(rt: &R, alloc: Global, order: Order) -> Result<(), Fail> {
    let mut draws = Draws { seed: 7 };
    let mut both = Both {
        tuples: Tuples::new(alloc),
        plain: Vec::new(alloc),
        steps: Steps::start(rt),
    };
    for i in 0..TUPLES {
        let time = time_of(order, i, &mut draws);
        let value = draws.below(2_001) as i64 - 1_000;
        both.put(Kept {
            position: i,
            time,
            value,
        })?;
        if i % 500 == 63 {
            look(rt, &mut both, &mut draws);
        }
        if i % 3_000 == 2_900 {
            both.drop_before(draws.below(2_500));
            look(rt, &mut both, &mut draws);
        }
    }
    both.drop_before(20_000);
    look(rt, &mut both, &mut draws);
    Ok(())
}

// All of them, and two ranges that are drawn, each asked for twice: sums are kept by then.
fn look(rt: &impl Abort, both: &mut Both, draws: &mut Draws) {
    let low = draws.below(9_000);
    let high = draws.below(10_000);
    both.compare(rt, 0, 20_000);
    both.compare(rt, low, high);
    both.compare(rt, low, high);
    both.compare(rt, high, low);
}

#[test]
fn rising_times_fold_as_in_a_plain_list(rt: HostRuntime) -> Result<(), Fail> {
    fill(&rt, rt.alloc(), Order::Rising)
}

#[test]
fn falling_times_fold_as_in_a_plain_list(rt: HostRuntime) -> Result<(), Fail> {
    fill(&rt, rt.alloc(), Order::Falling)
}

#[test]
fn equal_times_fold_as_in_a_plain_list(rt: HostRuntime) -> Result<(), Fail> {
    fill(&rt, rt.alloc(), Order::Equal)
}

#[test]
fn random_times_fold_as_in_a_plain_list(rt: HostRuntime) -> Result<(), Fail> {
    fill(&rt, rt.alloc(), Order::Random)
}

#[test]
fn range_shows_by_its_first_and_last_tuple(rt: HostRuntime) -> Result<(), Fail> {
    let mut tuples = Tuples::new(rt.alloc());
    tuples.reserve()?;
    tuples.put(Kept {
        position: 0,
        time: 5,
        value: 1,
    });
    let want = Slice {
        low: 5,
        high: 5,
        number: 1,
    };
    assert_eq!(rt; tuples.shown(3, 6), want);
    Ok(())
}
