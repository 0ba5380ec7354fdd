ghost use Rattle.std.specs.Prelude.{◌≡◌, ◌≤◌, ◌+◌, ◌*◌, [], IfOk, OnOk, IsTrue, false};
ghost use Rattle.agg_laws.specs.Laws.{total};
ghost use Rattle.agg_laws.specs.Pairs.{has_key, within, inserted, without, values_of};

use agg_laws::{AggTree, Lift, Monoid, Probes, Steps};
use aggregates::{Sum, Trace};
use fiba_arena::{ArenaTree, Item, Node, Nodes};
use fiba_finger::FingerTree;
use pair_row::FlatTree;
use std::process::Abort;
use stream_base::NoMemory;

// Keeps the steps of a test apart.
struct Work;

// A caller of any tree: an insertion, a fold of a range that holds it, and its removal.
fn insert_fold_remove<M: Monoid, T: AggTree<M>, L>(
    tree: &mut T,
    key: u64,
    value: M,
    probes: &mut Probes,
    steps: &mut Steps<L>,
) -> Result<M, NoMemory>
    requires { has_key key (T.table tree.old).pairs ≡ false }
    ensures value { IfOk result (λ sum. sum ≡ total M.empty M.op
        (values_of (within 0 1000 (inserted key value (T.table tree.old).pairs)))) }
    ensures rest { OnOk result ((T.table tree.new).pairs
        ≡ without key (inserted key value (T.table tree.old).pairs)) }
    ensures cost { OnOk result (steps.new ≤ steps.old + 64 * (3 * T.reach tree.old + 8)) }
{
    tree.reserve(1)?;
    tree.insert(key, value, probes, steps);
    let sum = tree.fold_range(0, 1000, probes, steps);
    let _value = tree.remove(key, probes, steps);
    Ok(sum)
}

// What a tree of numbers is asked.
#[derive(Clone, Copy)]
enum Ask {
    // The sum of the values under keys from the one up to the other.
    Sum(u64, u64),
    First,
    Len,
    Height,
}

// What each row shows, what is asked, and the answer.
type Row = (&'static str, Ask, Option<i128>);

// A tree of numbers answers each row so.
fn answers<T: AggTree<Sum>>(rt: &impl Abort, tree: &T, rows: &[Row], steps: &mut Steps<Work>) {
    let mut probes = Probes::new();
    for (word, ask, want) in rows {
        let answer = match *ask {
            Ask::Sum(low, high) => Some(tree.fold_range(low, high, &mut probes, steps).sum),
            Ask::First => tree.first_key().map(i128::from),
            Ask::Len => Some(i128::from(tree.len())),
            Ask::Height => Some(i128::from(tree.height())),
        };
        assert_eq!(rt; answer, *want, "{word}");
    }
}

// A value under a key, whatever was there before.
fn put<M: Monoid, T: AggTree<M>>(
    rt: &impl Abort,
    tree: &mut T,
    key: u64,
    value: M,
    steps: &mut Steps<Work>,
) {
    let mut probes = Probes::new();
    let _former = tree.remove(key, &mut probes, steps);
    let Ok(()) = tree.reserve(1) else {
        panic!(rt; "no memory");
    };
    tree.insert(key, value, &mut probes, steps);
}

// Each number under its key, in this order.
fn puts<T: AggTree<Sum>>(
    rt: &impl Abort,
    tree: &mut T,
    rows: &[(u64, i64)],
    steps: &mut Steps<Work>,
) {
    for (key, number) in rows {
        put(rt, tree, *key, Sum::lift(*number), steps);
    }
}

const EMPTY: [Row; 2] = [
    ("no key is the least", Ask::First, None),
    ("there is no pair", Ask::Len, Some(0)),
];

const FIVE_TO_TEN: [(u64, i64); 3] = [(10, 1), (5, 2), (7, 4)];

const THREE: [Row; 5] = [
    ("a range without its end", Ask::Sum(5, 8), Some(6)),
    ("a range up to a key", Ask::Sum(5, 7), Some(2)),
    ("a range that ends first", Ask::Sum(8, 5), Some(0)),
    ("the least of three keys", Ask::First, Some(5)),
    ("there are three pairs", Ask::Len, Some(3)),
];

const ANOTHER: [Row; 1] = [("8 in place of 2", Ask::Sum(0, 11), Some(13))];

const TWO: [Row; 1] = [("two pairs are left", Ask::Len, Some(2))];

// Of three pairs the one under 7 goes out, once.
fn takes_seven<T: AggTree<Sum>>(rt: &impl Abort, tree: &mut T, steps: &mut Steps<Work>) {
    let mut probes = Probes::new();
    let first = tree.remove(7, &mut probes, steps);
    let second = tree.remove(7, &mut probes, steps);
    assert_eq!(rt; (first, second), (Some(Sum { sum: 4 }), None));
    answers(rt, tree, &TWO, steps);
}

// A caller of any tree works on an empty one.
fn takes_a_caller<T: AggTree<Sum>>(rt: &impl Abort, tree: &mut T, steps: &mut Steps<Work>)
    requires { (T.table tree.old).pairs ≡ [] }
{
    let mut probes = Probes::new();
    let Ok(sum) = insert_fold_remove(tree, 5, Sum::lift(2), &mut probes, steps) else {
        panic!(rt; "no memory");
    };
    assert_eq!(rt; sum.sum, 2);
    answers(rt, tree, &EMPTY, steps);
}

// Three pairs go in, ranges are folded, and one goes out.
fn answers_five_calls<T: AggTree<Sum>>(rt: &impl Abort, tree: &mut T, steps: &mut Steps<Work>) {
    answers(rt, tree, &EMPTY, steps);
    puts(rt, tree, &FIVE_TO_TEN, steps);
    answers(rt, tree, &THREE, steps);
    takes_seven(rt, tree, steps);
}

// Three pairs go in where there is room for three, and make so many levels. One gets another
// value, and one goes out.
fn sets_one_of_three<T: AggTree<Sum>>(
    rt: &impl Abort,
    tree: &mut T,
    levels: u32,
    steps: &mut Steps<Work>,
)
    requires { (T.table tree.old).pairs ≡ [] }
{
    let mut probes = Probes::new();
    let Ok(()) = tree.reserve(3) else {
        panic!(rt; "no memory");
    };
    tree.insert(10, Sum::lift(1), &mut probes, steps);
    tree.insert(5, Sum::lift(2), &mut probes, steps);
    tree.insert(7, Sum::lift(4), &mut probes, steps);
    answers(rt, tree, &THREE, steps);
    assert_eq!(rt; tree.height(), levels);
    tree.set(5, Sum::lift(8), &mut probes, steps);
    answers(rt, tree, &ANOTHER, steps);
    takes_seven(rt, tree, steps);
}

#[test]
fn an_arena_tree_answers_as_any_tree(rt: HostRuntime) {
    let mut steps: Steps<Work> = Steps::start(&rt);
    let mut tree: ArenaTree<Sum> = ArenaTree::fresh(rt.alloc());
    takes_a_caller(&rt, &mut tree, &mut steps);
    let mut tree: ArenaTree<Sum> = ArenaTree::fresh(rt.alloc());
    answers_five_calls(&rt, &mut tree, &mut steps);
    let mut tree: ArenaTree<Sum> = ArenaTree::fresh(rt.alloc());
    sets_one_of_three(&rt, &mut tree, 1, &mut steps);
}

#[test]
fn a_flat_tree_answers_as_any_tree(rt: HostRuntime) {
    let mut steps: Steps<Work> = Steps::start(&rt);
    let mut tree: FlatTree<Sum> = FlatTree::fresh(rt.alloc());
    takes_a_caller(&rt, &mut tree, &mut steps);
    let mut tree: FlatTree<Sum> = FlatTree::fresh(rt.alloc());
    answers_five_calls(&rt, &mut tree, &mut steps);
    let mut tree: FlatTree<Sum> = FlatTree::fresh(rt.alloc());
    sets_one_of_three(&rt, &mut tree, 0, &mut steps);
}

#[test]
fn a_finger_tree_answers_as_any_tree(rt: HostRuntime) {
    let mut steps: Steps<Work> = Steps::start(&rt);
    let mut tree: FingerTree<Sum> = FingerTree::fresh(rt.alloc());
    takes_a_caller(&rt, &mut tree, &mut steps);
    let mut tree: FingerTree<Sum> = FingerTree::fresh(rt.alloc());
    answers_five_calls(&rt, &mut tree, &mut steps);
    let mut tree: FingerTree<Sum> = FingerTree::fresh(rt.alloc());
    sets_one_of_three(&rt, &mut tree, 1, &mut steps);
}

const ONE_TO_THREE: [(u64, i64); 3] = [(1, 1), (2, 2), (3, 4)];

const FOUR: [(u64, i64); 1] = [(4, 8)];

const NO_LEVEL: [Row; 1] = [("no key, no level", Ask::Height, Some(0))];

const ONE_LEVEL: [Row; 1] = [("three keys in a leaf", Ask::Height, Some(1))];

const TWO_LEVELS: [Row; 2] = [
    ("the fourth key splits the leaf", Ask::Height, Some(2)),
    ("a range over both leaves", Ask::Sum(2, 4), Some(6)),
];

#[test]
fn an_arena_tree_grows_a_level_at_one_key_and_at_four(rt: HostRuntime) {
    let mut steps: Steps<Work> = Steps::start(&rt);
    let mut tree: ArenaTree<Sum> = ArenaTree::fresh(rt.alloc());
    answers(&rt, &tree, &NO_LEVEL, &mut steps);
    puts(&rt, &mut tree, &ONE_TO_THREE, &mut steps);
    answers(&rt, &tree, &ONE_LEVEL, &mut steps);
    puts(&rt, &mut tree, &FOUR, &mut steps);
    answers(&rt, &tree, &TWO_LEVELS, &mut steps);
}

// A caller of the arena tree itself has its bounds, which go by the height.
fn through_arena(
    tree: &mut ArenaTree<Sum>,
    key: u64,
    value: Sum,
    probes: &mut Probes,
    steps: &mut Steps<Work>,
) -> Sum
    requires { IsTrue (has_key key tree.old.table.pairs) }
    ensures cost { steps.new ≤ steps.old + 32 * (tree.old.height + 2) }
{
    tree.set(key, value, probes, steps);
    tree.fold_range(0, key, probes, steps)
}

const NINE: [Row; 1] = [("9 in place of 1", Ask::Sum(3, 4), Some(9))];

fn takes_another_value(rt: &impl Abort, tree: &mut ArenaTree<Sum>, steps: &mut Steps<Work>)
    requires { tree.old.table.pairs ≡ [] }
{
    let mut probes = Probes::new();
    let Ok(()) = tree.reserve(1) else {
        panic!(rt; "no memory");
    };
    tree.insert(3, Sum::lift(1), &mut probes, steps);
    let below = through_arena(tree, 3, Sum::lift(9), &mut probes, steps);
    assert_eq!(rt; below.sum, 0);
    answers(rt, tree, &NINE, steps);
}

#[test]
fn another_value_comes_into_the_fold(rt: HostRuntime) {
    let mut tree: ArenaTree<Sum> = ArenaTree::fresh(rt.alloc());
    takes_another_value(&rt, &mut tree, &mut Steps::start(&rt));
}

const LEAF: Node<Sum> = Node {
    first: Item {
        key: 1,
        value: Sum { sum: 5 },
    },
    second: None,
    third: None,
    kids: [0; 4],
    leaf: true,
    up: None,
    agg: Sum { sum: 5 },
};

fn finds_the_leaf(rt: &impl Abort, nodes: &mut Nodes<Sum>) {
    let mut probes = Probes::new();
    let Ok(()) = nodes.reserve(1) else {
        panic!(rt; "no memory");
    };
    let at = nodes.add(LEAF);
    let found = nodes.get(at, &mut probes);
    assert_eq!(rt; (found.first.key, found.first.value.sum), (1, 5));
    assert_eq!(rt; (found.agg.sum, found.leaf, probes.count()), (5, true, 1));
}

#[test]
fn a_node_is_found_under_the_number_that_it_got(rt: HostRuntime) {
    finds_the_leaf(&rt, &mut Nodes::new(rt.alloc()));
}

// What is compared of a tree: two folds, the number of pairs and the least key.
fn seen<T: AggTree<Trace>>(tree: &T, steps: &mut Steps<Work>) -> (Trace, Trace, u64, Option<u64>) {
    let mut probes = Probes::new();
    (
        tree.fold_range(0, 1009, &mut probes, steps),
        tree.fold_range(300, 600, &mut probes, steps),
        tree.len(),
        tree.first_key(),
    )
}

// A tree folds as a sorted vector does and has as many pairs, and it is low.
fn are_alike<T: AggTree<Trace>>(
    rt: &impl Abort,
    tree: &T,
    flat: &FlatTree<Trace>,
    steps: &mut Steps<Work>,
) {
    assert_eq!(rt; seen(tree, steps), seen(flat, steps));
    assert!(rt; tree.height() <= 9);
}

// The keys `i * 617 % 1009` come, for each i below `end`.
fn come<T: AggTree<Trace>>(
    rt: &impl Abort,
    tree: &mut T,
    flat: &mut FlatTree<Trace>,
    end: u64,
    steps: &mut Steps<Work>,
)
    requires { end ≤ 1009 }
{
    for i in 1..end {
        let (key, value) = (i * 617 % 1009, Trace::lift(i as i64));
        put(rt, tree, key, value, steps);
        put(rt, flat, key, value, steps);
        are_alike(rt, tree, flat, steps);
    }
}

// The keys below 505 go, those that are there.
fn go<T: AggTree<Trace>>(
    rt: &impl Abort,
    tree: &mut T,
    flat: &mut FlatTree<Trace>,
    steps: &mut Steps<Work>,
) {
    let mut probes = Probes::new();
    for key in 1..505 {
        let taken = tree.remove(key, &mut probes, steps);
        assert_eq!(rt; taken, flat.remove(key, &mut probes, steps));
        are_alike(rt, tree, flat, steps);
    }
}

#[test]
fn a_thousand_keys_come_and_go_as_in_a_sorted_vector(rt: HostRuntime) {
    let mut steps: Steps<Work> = Steps::start(&rt);
    let mut arena: ArenaTree<Trace> = ArenaTree::fresh(rt.alloc());
    let mut flat: FlatTree<Trace> = FlatTree::fresh(rt.alloc());
    come(&rt, &mut arena, &mut flat, 1009, &mut steps);
    let all = arena.len();
    go(&rt, &mut arena, &mut flat, &mut steps);
    assert_eq!(rt; (all, arena.len()), (1008, 504));
}

#[test]
fn keys_come_and_go_at_a_finger_as_in_a_sorted_vector(rt: HostRuntime) {
    let mut steps: Steps<Work> = Steps::start(&rt);
    let mut finger: FingerTree<Trace> = FingerTree::fresh(rt.alloc());
    let mut flat: FlatTree<Trace> = FlatTree::fresh(rt.alloc());
    come(&rt, &mut finger, &mut flat, 505, &mut steps);
    go(&rt, &mut finger, &mut flat, &mut steps);
}

// What an insertion from the finger did, and how many steps and probes it took.
#[derive(Clone, Copy)]
struct Near {
    splits: u32,
    climbs: u32,
    steps: u64,
    probes: u64,
}

// A value under a key from the finger, whatever was there before.
fn put_near(
    rt: &impl Abort,
    tree: &mut FingerTree<Sum>,
    key: u64,
    value: Sum,
    steps: &mut Steps<Work>,
) -> Near {
    let mut aside = Probes::new();
    let _former = tree.remove(key, &mut aside, steps);
    let Ok(()) = tree.reserve(1) else {
        panic!(rt; "no memory");
    };
    let before = steps.count();
    let mut probes = Probes::new();
    let grown = tree.insert_near(key, value, &mut probes, steps);
    Near {
        splits: grown.splits,
        climbs: grown.climbs,
        steps: steps.count().saturating_sub(before),
        probes: probes.count(),
    }
}

// An insertion kept its bounds on steps and probes.
fn is_within(near: &Near) -> bool {
    let levels = u64::from(near.climbs) + u64::from(near.splits);
    near.steps <= 8 + 32 * levels && near.probes <= 32 * (levels + 2)
}

// The keys 2, 4 and so on up to 2000, each with a 1.
fn puts_even_keys(rt: &impl Abort, tree: &mut FingerTree<Sum>, steps: &mut Steps<Work>) {
    for i in 1..1001 {
        put(rt, tree, 2 * i, Sum::lift(1), steps);
    }
}

const THOUSAND: [Row; 1] = [("there are a thousand pairs", Ask::Len, Some(1000))];

const LAST_THREE: [Row; 1] = [("the last three keys", Ask::Sum(1998, 2001), Some(3))];

#[test]
fn a_key_before_the_last_of_a_thousand_climbs_at_most_one_level(rt: HostRuntime) {
    let mut steps: Steps<Work> = Steps::start(&rt);
    let mut tree: FingerTree<Sum> = FingerTree::fresh(rt.alloc());
    puts_even_keys(&rt, &mut tree, &mut steps);
    answers(&rt, &tree, &THOUSAND, &mut steps);
    let near = put_near(&rt, &mut tree, 1999, Sum::lift(1), &mut steps);
    assert_eq!(rt; (near.climbs <= 1, is_within(&near)), (true, true));
    answers(&rt, &tree, &LAST_THREE, &mut steps);
}

// The same keys from the finger: each climbs no level, and costs little where no node is split.
fn puts_even_keys_near(rt: &impl Abort, tree: &mut FingerTree<Sum>, steps: &mut Steps<Work>) {
    for i in 1..1001 {
        let near = put_near(rt, tree, 2 * i, Sum::lift(1), steps);
        assert_eq!(rt; (near.climbs, is_within(&near)), (0, true));
        assert!(rt; near.splits > 0 || near.steps <= 8);
    }
}

#[test]
fn a_thousand_keys_in_order_climb_no_level(rt: HostRuntime) {
    let mut steps: Steps<Work> = Steps::start(&rt);
    let mut tree: FingerTree<Sum> = FingerTree::fresh(rt.alloc());
    puts_even_keys_near(&rt, &mut tree, &mut steps);
    answers(&rt, &tree, &THOUSAND, &mut steps);
}

// Another value under a key, and how many steps it took to set it.
fn set_near(
    rt: &impl Abort,
    tree: &mut FingerTree<Sum>,
    key: u64,
    value: Sum,
    steps: &mut Steps<Work>,
) -> u64 {
    let mut probes = Probes::new();
    let _former = tree.remove(key, &mut probes, steps);
    let Ok(()) = tree.reserve(1) else {
        panic!(rt; "no memory");
    };
    tree.insert(key, Sum::unit(), &mut probes, steps);
    let before = steps.count();
    tree.set(key, value, &mut probes, steps);
    steps.count().saturating_sub(before)
}

// Of the keys 2, 4 and so on up to 2000 some that get another value, with as many steps at most as a
// climb of their distance asks for.
const RESET: [(u64, u64); 4] = [(2000, 8), (1998, 16), (1994, 24), (20, 80)];

const RESET_SUMS: [Row; 3] = [
    (
        "three values among the last four",
        Ask::Sum(1994, 2001),
        Some(16),
    ),
    ("a value among the first", Ask::Sum(2, 41), Some(24)),
    ("all values", Ask::Sum(0, 2001), Some(1016)),
];

#[test]
fn another_value_of_a_thousand_costs_what_its_distance_asks(rt: HostRuntime) {
    let mut steps: Steps<Work> = Steps::start(&rt);
    let mut tree: FingerTree<Sum> = FingerTree::fresh(rt.alloc());
    puts_even_keys(&rt, &mut tree, &mut steps);
    for (key, most) in &RESET {
        let cost = set_near(&rt, &mut tree, *key, Sum::lift(5), &mut steps);
        assert!(rt; cost <= *most, "at {key}");
    }
    answers(&rt, &tree, &RESET_SUMS, &mut steps);
}

const SPLIT: [Row; 2] = [
    ("the fourth key splits the leaf", Ask::Height, Some(2)),
    ("a range over both leaves", Ask::Sum(2, 5), Some(14)),
];

#[test]
fn the_fourth_key_splits_the_only_leaf(rt: HostRuntime) {
    let mut steps: Steps<Work> = Steps::start(&rt);
    let mut tree: FingerTree<Sum> = FingerTree::fresh(rt.alloc());
    puts(&rt, &mut tree, &ONE_TO_THREE, &mut steps);
    let near = put_near(&rt, &mut tree, 4, Sum::lift(8), &mut steps);
    assert_eq!(rt; (near.splits, near.climbs), (1, 0));
    answers(&rt, &tree, &SPLIT, &mut steps);
}
