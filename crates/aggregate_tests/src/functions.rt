ghost use Rattle.std.specs.Prelude.{◌≡◌, ◌≤◌, ◌+◌, length, IfOk, OnOk};
ghost use Rattle.agg_laws.specs.Laws.{total};

use agg_laws::{AggQueue, Lift, Monoid, Pair, Probes, Steps};
use aggregates::{Bundle, Count, First, Last, Max, Mean, Min, Partial, Rises, Sum, Summary, Trace};
use std::fmt::Debug;
use std::process::Abort;
use stream_base::{Func, NoMemory, Shown};

// Keeps the counters of a test apart.
struct Work;

// Three numbers folded from the unit, in this order.
fn of_three<M: Lift>(first: i64, second: i64, third: i64, steps: &mut Steps<Work>) -> M {
    let sum = M::unit()
        .combine(&M::lift(first), steps)
        .combine(&M::lift(second), steps)
        .combine(&M::lift(third), steps);
    sum.vouch();
    sum
}

#[test]
fn counters_go_up_by_one(rt: HostRuntime) {
    let mut steps: Steps<Work> = Steps::start(&rt);
    let mut probes = Probes::new();
    let before = (steps.count(), probes.count());
    steps.tick();
    steps.tick();
    probes.look();
    assert_eq!(rt; (before, (steps.count(), probes.count())), ((0, 0), (2, 1)));
}

// A function folds 3, 1 and 2 to this.
fn folds<M: Lift + PartialEq + Debug>(rt: &impl Abort, want: M, steps: &mut Steps<Work>) {
    assert_eq!(rt; of_three::<M>(3, 1, 2, steps), want);
}

#[test]
fn each_function_folds_three_one_two(rt: HostRuntime) {
    let mut steps: Steps<Work> = Steps::start(&rt);
    folds(&rt, Count { count: 3 }, &mut steps);
    folds(&rt, Sum { sum: 6 }, &mut steps);
    folds(&rt, Min { least: Some(1) }, &mut steps);
    folds(&rt, Max { most: Some(3) }, &mut steps);
    folds(&rt, Mean { sum: 6, count: 3 }, &mut steps);
    folds(&rt, First { value: Some(3) }, &mut steps);
    folds(&rt, Last { value: Some(2) }, &mut steps);
    folds(
        &rt,
        Rises {
            run: Some((3, 2, 1)),
        },
        &mut steps,
    );
    folds(&rt, HASH, &mut steps);
    assert_eq!(rt; steps.count(), 27);
}

const HASH: Trace = Trace {
    a: 624_165_263_380_053_675,
    b: 2_870_824_860_691_248,
};

#[test]
fn trace_of_three_and_one_hashes_them_in_order(rt: HostRuntime) {
    let mut steps: Steps<Work> = Steps::start(&rt);
    let sum = Trace::lift(3).combine(&Trace::lift(1), &mut steps);
    assert_eq!(rt; sum.b, 3_298_534_884_634);
}

const BOTH: Pair<Sum, Last> = Pair {
    left: Sum { sum: 6 },
    right: Last { value: Some(2) },
};

#[test]
fn a_pair_combines_in_one_step(rt: HostRuntime) {
    let mut steps: Steps<Work> = Steps::start(&rt);
    folds(&rt, BOTH, &mut steps);
    assert_eq!(rt; steps.count(), 3);
}

// What each function shows of the three numbers.
const SHOWN: [(&str, Func, Shown); 9] = [
    ("how many", Func::Count, Shown::Whole(3)),
    ("their sum", Func::Sum, Shown::Whole(6)),
    ("the least", Func::Min, Shown::Whole(1)),
    ("the greatest", Func::Max, Shown::Whole(3)),
    ("their mean", Func::Mean, Shown::Ratio { sum: 6, count: 3 }),
    ("the first", Func::First, Shown::Whole(3)),
    ("the last", Func::Last, Shown::Whole(2)),
    ("how often they rise", Func::Rises, Shown::Whole(1)),
    (
        "their hash",
        Func::Trace,
        Shown::Whole(2_870_824_860_691_248),
    ),
];

#[test]
fn a_bundle_shows_each_function(rt: HostRuntime) {
    let mut steps: Steps<Work> = Steps::start(&rt);
    let bundle: Bundle = of_three(3, 1, 2, &mut steps);
    assert_eq!(rt; steps.count(), 3);
    for (word, func, shown) in &SHOWN {
        assert_eq!(rt; bundle.show(*func), *shown, "{word}");
    }
}

// A summary lies in five words, a bundle in 22.
const _: () = prove!(size_of::<Summary>() == 40);

const _: () = prove!(size_of::<Bundle>() == 176);

// The first five of these functions are shown by a summary, whatever the order, and by what is kept of a
// bundle.
#[test]
fn a_summary_shows_the_functions_that_are_free_of_order(rt: HostRuntime) {
    let mut steps: Steps<Work> = Steps::start(&rt);
    let bundle: Bundle = of_three(3, 1, 2, &mut steps);
    let orders: [Summary; 3] = [
        of_three(3, 1, 2, &mut steps),
        of_three(2, 3, 1, &mut steps),
        Summary::of_bundle(&bundle),
    ];
    for summary in &orders {
        for (word, func, shown) in &SHOWN {
            if Summary::can_show(*func) {
                assert_eq!(rt; summary.show(*func), *shown, "{word}");
            }
        }
    }
    let shown = SHOWN
        .iter()
        .filter(|(_word, func, _shown)| Summary::can_show(*func))
        .count();
    assert_eq!(rt; shown, 5);
}

// A caller of any queue: room for two, two pushes, a pop and a fold, with its list and its cost.
fn push_pop_fold<M: Monoid, Q: AggQueue<M>, L>(
    queue: &mut Q,
    a: M,
    b: M,
    steps: &mut Steps<L>,
) -> Result<M, NoMemory>
    ensures value { IfOk result (λ sum. sum ≡ total M.empty M.op (Q.items queue.new)) }
    ensures items { OnOk result (length (Q.items queue.new) ≡ length (Q.items queue.old) + 1) }
    ensures cost { OnOk result (steps.new + Q.credit queue.new
        ≤ steps.old + Q.credit queue.old + 15) }
{
    queue.reserve(2)?;
    queue.push(a, steps);
    queue.push(b, steps);
    let _first = queue.pop(steps);
    Ok(queue.fold(steps))
}
