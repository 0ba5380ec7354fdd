ghost use Rattle.std.specs.Prelude.{◌≤◌, ◌+◌, OnOk};

use agg_laws::{AggQueue, Lift, Monoid, Steps};
use agg_queue::{Daba, TwoStacks};
use aggregates::{Sum, Trace};
use std::collections::VecDeque;
use std::process::Abort;

// Keeps the steps of a test apart.
struct Work;

// What each row shows, the sum of all items, and then the first one, which goes out.
const OUT: [(&str, Sum, Option<Sum>); 4] = [
    ("of three", Sum { sum: 6 }, Some(Sum { sum: 1 })),
    ("of two", Sum { sum: 5 }, Some(Sum { sum: 2 })),
    ("of one", Sum { sum: 3 }, Some(Sum { sum: 3 })),
    ("of none", Sum { sum: 0 }, None),
];

// Three numbers go in, come out in the same order, and are added up before and between.
fn adds_up_in_order<Q: AggQueue<Sum>>(rt: &impl Abort, queue: &mut Q, steps: &mut Steps<Work>) {
    let Ok(()) = queue.reserve(3) else {
        panic!(rt; "no memory");
    };
    queue.push(Sum::lift(1), steps);
    queue.push(Sum::lift(2), steps);
    queue.push(Sum::lift(3), steps);
    assert_eq!(rt; queue.len(), 3);
    for (word, all, first) in &OUT {
        assert_eq!(rt;
            (queue.fold(steps), queue.pop(steps)),
            (*all, *first),
            "{word}"
        );
    }
}

// The fold keeps the order of the numbers, and an emptied queue folds to the unit.
fn keeps_the_order<Q: AggQueue<Trace>>(rt: &impl Abort, queue: &mut Q, steps: &mut Steps<Work>) {
    let Ok(()) = queue.reserve(2) else {
        panic!(rt; "no memory");
    };
    queue.push(Trace::lift(3), steps);
    queue.push(Trace::lift(1), steps);
    assert_eq!(rt; queue.fold(steps).b, 3_298_534_884_634);
    queue.clear();
    assert_eq!(rt; (queue.len(), queue.fold(steps)), (0, Trace { a: 1, b: 0 }));
}

// A caller of two stacks themselves has their bounds on credit.
fn through_two_stacks(queue: &mut TwoStacks<Sum>, value: Sum, steps: &mut Steps<Work>) -> Sum
    requires { 1 ≤ queue.old.queue.spare }
    ensures cost { steps.new + queue.new.credit ≤ steps.old + queue.old.credit + 3 }
{
    queue.push(value, steps);
    let _first = queue.pop(steps);
    queue.fold(steps)
}

// A caller of Daba itself has the bounds of each call, with no credit.
fn through_daba(queue: &mut Daba<Sum>, value: Sum, steps: &mut Steps<Work>) -> Sum
    requires { 1 ≤ queue.old.spare }
    ensures cost { steps.new ≤ steps.old + 8 }
{
    queue.push(value, steps);
    let _first = queue.pop(steps);
    queue.fold(steps)
}

fn works_as_two_stacks(rt: &impl Abort, queue: &mut TwoStacks<Sum>, steps: &mut Steps<Work>) {
    adds_up_in_order(rt, queue, steps);
    let Ok(()) = queue.reserve(1) else {
        panic!(rt; "no memory");
    };
    assert_eq!(rt;
        through_two_stacks(queue, Sum::lift(4), steps),
        Sum { sum: 0 }
    );
}

fn works_as_daba(rt: &impl Abort, queue: &mut Daba<Sum>, steps: &mut Steps<Work>) {
    adds_up_in_order(rt, queue, steps);
    let Ok(()) = queue.reserve(1) else {
        panic!(rt; "no memory");
    };
    assert_eq!(rt; through_daba(queue, Sum::lift(4), steps), Sum { sum: 0 });
}

#[test]
fn two_stacks_add_up_and_keep_the_order(rt: HostRuntime) {
    let mut steps: Steps<Work> = Steps::start(&rt);
    let mut sums: TwoStacks<Sum> = TwoStacks::fresh(rt.alloc());
    works_as_two_stacks(&rt, &mut sums, &mut steps);
    let mut traces: TwoStacks<Trace> = TwoStacks::fresh(rt.alloc());
    keeps_the_order(&rt, &mut traces, &mut steps);
}

#[test]
fn daba_adds_up_and_keeps_the_order(rt: HostRuntime) {
    let mut steps: Steps<Work> = Steps::start(&rt);
    let mut sums: Daba<Sum> = Daba::fresh(rt.alloc());
    works_as_daba(&rt, &mut sums, &mut steps);
    let mut traces: Daba<Trace> = Daba::fresh(rt.alloc());
    keeps_the_order(&rt, &mut traces, &mut steps);
}

// The numbers of a plain list, each standing for n -> 1099511628211 * n + number, one behind the
// other.
fn traced(numbers: &VecDeque<i64>) -> Trace {
    let mut all = Trace { a: 1, b: 0 };
    for number in numbers {
        all.a = all.a.wrapping_mul(1_099_511_628_211);
        all.b = all
            .b
            .wrapping_mul(1_099_511_628_211)
            .wrapping_add(number.cast_unsigned());
    }
    all
}

// The next number of a fixed sequence that looks random.
fn next_draw(draw: u64) -> u64 {
    draw.wrapping_mul(6_364_136_223_846_793_005)
        .wrapping_add(1_442_695_040_888_963_407)
}

// One call on a queue and the same on a plain list, by lot: more pushes than pops, seldom a clear.
fn same_call<Q: AggQueue<Trace>>(
    rt: &impl Abort,
    lot: u64,
    queue: &mut Q,
    list: &mut VecDeque<i64>,
    steps: &mut Steps<Work>,
) {
    match lot % 256 {
        0 => {
            queue.clear();
            list.clear();
        }
        1..=120 => assert_eq!(rt; queue.pop(steps), list.pop_front().map(Trace::lift)),
        _ => {
            let number = lot.cast_signed();
            let Ok(()) = list.push_back(number) else {
                panic!(rt; "no memory");
            };
            let Ok(()) = queue.reserve(1) else {
                panic!(rt; "no memory");
            };
            queue.push(Trace::lift(number), steps);
        }
    }
    assert_eq!(rt;
        (queue.len(), queue.fold(steps)),
        (list.len() as u64, traced(list))
    );
}

// A queue folds as a plain list over 4000 mixed calls.
fn folds_as_a_list<Q: AggQueue<Trace>>(
    rt: &impl Abort,
    queue: &mut Q,
    list: &mut VecDeque<i64>,
    steps: &mut Steps<Work>,
) {
    let mut draw = 1;
    for _ in 0..4000 {
        draw = next_draw(draw);
        same_call(rt, draw >> 33, queue, list, steps);
    }
}

#[test]
fn two_stacks_fold_as_a_plain_list_over_mixed_calls(rt: HostRuntime) {
    let mut queue: TwoStacks<Trace> = TwoStacks::fresh(rt.alloc());
    let mut list = VecDeque::new(rt.alloc());
    folds_as_a_list(&rt, &mut queue, &mut list, &mut Steps::start(&rt));
}

#[test]
fn daba_folds_as_a_plain_list_over_mixed_calls(rt: HostRuntime) {
    let mut queue: Daba<Trace> = Daba::fresh(rt.alloc());
    let mut list = VecDeque::new(rt.alloc());
    folds_as_a_list(&rt, &mut queue, &mut list, &mut Steps::start(&rt));
}

// The numbers of a plain list added up.
fn summed(numbers: &VecDeque<i64>) -> Sum {
    let mut all = Sum { sum: 0 };
    for number in numbers {
        all.sum = all.sum.wrapping_add(i128::from(*number));
    }
    all
}

// Ten thousand items come and go in 20,000 calls, each within its bound.
fn keeps_its_bounds(
    rt: &impl Abort,
    queue: &mut Daba<Sum>,
    list: &mut VecDeque<i64>,
    steps: &mut Steps<Work>,
)
    requires { 10000 ≤ queue.old.spare }
{
    let mut pushed: u32 = 0;
    for call in 0..20_000 {
        let before = steps.count();
        if pushed < 10_000 && call % 12 < 7 {
            let Ok(()) = list.push_back(i64::from(pushed)) else {
                panic!(rt; "no memory");
            };
            queue.push(Sum::lift(i64::from(pushed)), steps);
            pushed += 1;
            assert!(rt; steps.count() <= before.saturating_add(4));
        } else {
            assert_eq!(rt; queue.pop(steps), list.pop_front().map(Sum::lift));
            assert!(rt; steps.count() <= before.saturating_add(3));
        }
        assert_eq!(rt; queue.fold(steps), summed(list));
    }
    assert_eq!(rt; (pushed, queue.len()), (10_000, 0));
}

#[test]
fn daba_keeps_its_bounds_over_ten_thousand_items(rt: HostRuntime) {
    let mut queue: Daba<Sum> = Daba::fresh(rt.alloc());
    let mut list = VecDeque::new(rt.alloc());
    let Ok(()) = queue.reserve(10_000) else {
        panic!(rt; "no memory");
    };
    keeps_its_bounds(&rt, &mut queue, &mut list, &mut Steps::start(&rt));
}
