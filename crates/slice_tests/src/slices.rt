ghost use Rattle.agg_store.specs.Stored.{IsSliced};

use agg_laws::{AggTree, Steps};
use agg_store::AggStore;
use aggregates::{Bundle, Partial, Summary};
use fiba_arena::ArenaTree;
use fiba_finger::FingerTree;
use pair_row::FlatTree;
use slice_lists::Slice;
use slice_store::{Placed, SliceStore};
use std::alloc::Global;
use std::process::Abort;
use std::test::Fail;
use stream_base::{Def, Defs, FINAL, Func, Kept, Kind, Shown, TIME_MAX};

// Keeps the steps of a test apart.
struct Work;

// What comes to the slices of a key, and what they answer.
#[derive(Clone, Copy)]
enum Step {
    // A tuple of a value at a time, and what it does to the slices.
    Put(u64, i64, Placed),
    // A mark at a time, and whether it splits a slice.
    Mark(u64, bool),
    // What all tuples come to in event order.
    Fold(Func, i128),
}

// The slices of a key, parted at the cuts of its windows.
#[derive(Drop)]
struct Slices<M: Partial, T: AggTree<M>> {
    defs: Defs,
    store: SliceStore<M, T>,
    steps: Steps<Work>,
    ghost sliced: { IsSliced defs.windows store },
}

impl<M: Partial, T: AggTree<M>> Slices<M, T> {
    // The slices of no tuple yet.
    fn new(alloc: Global, windows: Vec<Def>, steps: Steps<Work>) -> Result<Slices<M, T>, Fail> {
        Ok(Slices {
            defs: Defs::new(windows, 0, 0, 0)?,
            store: SliceStore::new(alloc),
            steps,
        })
    }

    // Takes the steps, one after another; each comes with how many slices there are then.
    fn follow(&mut self, rt: &impl Abort, script: &[(Step, u64)]) -> Result<(), Fail> {
        for k in 0..script.len() {
            let (step, slices) = script[k];
            self.take(rt, k as u64, step)?;
            assert_eq!(rt; self.store.slice_count(), slices, "after step {k}");
        }
        Ok(())
    }

    fn take(&mut self, rt: &impl Abort, pos: u64, step: Step) -> Result<(), Fail> {
        match step {
            Step::Put(time, value, placed) => {
                assert!(rt; time <= TIME_MAX);
                self.store.reserve()?;
                let x = Kept {
                    position: pos,
                    time,
                    value,
                };
                let found = self.store.put(&self.defs, x, &mut self.steps);
                assert_eq!(rt; found, placed, "at step {pos}");
            }
            Step::Mark(time, splits) => {
                assert!(rt; time <= TIME_MAX);
                self.store.reserve()?;
                let found = self.store.mark(&self.defs, time, &mut self.steps);
                assert_eq!(rt; found, splits, "at step {pos}");
            }
            Step::Fold(func, value) => {
                let _count = self.store.slice_count();
                let folded = self.store.fold(0, FINAL, &mut self.steps);
                let shows = M::can_show(func);
                assert!(rt; shows, "at step {pos}");
                assert_eq!(rt; folded.show(func), Shown::Whole(value), "at step {pos}");
            }
        }
        Ok(())
    }

    // A thousand slices of ten, each with two tuples of value 1.
    fn fill(&mut self, rt: &impl Abort) -> Result<(), Fail> {
        for i in 0..1000 {
            let low = 10 * i + 1;
            self.take(rt, 2 * i, Step::Put(low, 1, Placed::Added))?;
            self.take(rt, 2 * i + 1, Step::Put(low + 4, 1, Placed::Appended))?;
        }
        Ok(())
    }

    // How many steps a tuple of value 1 takes that comes late in a slice.
    fn cost_of(&mut self, rt: &impl Abort, pos: u64, time: u64) -> Result<u64, Fail> {
        let before = self.steps.count();
        self.take(rt, pos, Step::Put(time, 1, Placed::Joined))?;
        Ok(self.steps.count().saturating_sub(before))
    }

    // No slice is left.
    fn drop_all(&mut self) {
        let _count = self.store.slice_count();
        self.store.drop_settled(FINAL, &mut self.steps);
    }
}

fn window(kind: Kind) -> Def {
    Def {
        kind,
        func: Func::Sum,
    }
}

// Tuples that come late, in and behind slices of ten.
fn enters_slices_of_ten<M: Partial, T: AggTree<M> + Drop>(
    rt: &impl Abort,
    alloc: Global,
    steps: Steps<Work>,
) -> Result<(), Fail> {
    let script = [
        (Step::Put(1, 7, Placed::Added), 1),
        (Step::Put(12, 7, Placed::Added), 2),
        (Step::Put(5, 7, Placed::Joined), 2),
        (Step::Put(14, 7, Placed::Appended), 2),
        (Step::Fold(Func::Sum, 28), 2),
    ];
    let tumbling = window(Kind::Tumbling { length: 10 });
    let mut slices: Slices<M, T> = Slices::new(alloc, vec![in alloc; tumbling]?, steps)?;
    slices.follow(rt, &script)?;
    let second = Slice {
        low: 12,
        high: 14,
        number: 2,
    };
    assert_eq!(rt; slices.store.slice_from(6), Some(second));
    assert_eq!(rt; slices.store.slice_from(13), None);
    slices.drop_all();
    assert_eq!(rt; slices.store.slice_count(), 0);
    Ok(())
}

#[test]
fn late_tuples_enter_slices_over_a_flat_tree(rt: HostRuntime) -> Result<(), Fail> {
    enters_slices_of_ten::<Bundle, FlatTree<Bundle>>(&rt, rt.alloc(), Steps::start(&rt))
}

#[test]
fn late_tuples_enter_slices_over_an_arena_tree(rt: HostRuntime) -> Result<(), Fail> {
    enters_slices_of_ten::<Bundle, ArenaTree<Bundle>>(&rt, rt.alloc(), Steps::start(&rt))
}

// With a gap of 4 the tuples at 1 and 2 are a session, and the one at 8 is another. One at 5 is less
// than 4 away from both. A mark at 4 splits the slice once; a tuple at 6 enters the second part.
#[test]
fn a_tuple_between_two_sessions_merges_their_slices(rt: HostRuntime) -> Result<(), Fail> {
    let script = [
        (Step::Put(1, 1, Placed::Added), 1),
        (Step::Put(2, 2, Placed::Appended), 1),
        (Step::Put(8, 4, Placed::Added), 2),
        (Step::Put(5, 8, Placed::Merged), 1),
        (Step::Fold(Func::Last, 4), 1),
        (Step::Mark(4, true), 2),
        (Step::Mark(4, false), 2),
        (Step::Put(6, 16, Placed::Joined), 2),
    ];
    let tumbling = window(Kind::Tumbling { length: 10 });
    let session = window(Kind::Session { gap: 4 });
    let windows = vec![in rt.alloc(); tumbling, session]?;
    let mut slices: Slices<Bundle, FlatTree<Bundle>> = Slices::new(
        rt.alloc(),
        windows,
        Steps::start(&rt),
    )?;
    slices.follow(&rt, &script)
}

// The hash of 1 and then 3 is 1 * 1099511628211 + 3. With a 9 between them the values rise once.
#[test]
fn a_late_tuple_folds_in_event_order(rt: HostRuntime) -> Result<(), Fail> {
    let script = [
        (Step::Put(5, 3, Placed::Added), 1),
        (Step::Put(2, 1, Placed::Joined), 1),
        (Step::Fold(Func::Trace, 1_099_511_628_214), 1),
        (Step::Put(3, 9, Placed::Joined), 1),
        (Step::Fold(Func::Rises, 1), 1),
    ];
    let windows = vec![in rt.alloc(); window(Kind::Tumbling { length: 10 })]?;
    let mut slices: Slices<Bundle, FlatTree<Bundle>> = Slices::new(
        rt.alloc(),
        windows,
        Steps::start(&rt),
    )?;
    slices.follow(&rt, &script)
}

#[test]
fn a_mark_splits_the_slice_that_is_across_it(rt: HostRuntime) -> Result<(), Fail> {
    let script = [
        (Step::Mark(4, false), 0),
        (Step::Put(5, 1, Placed::Added), 1),
        (Step::Put(7, 2, Placed::Appended), 1),
        (Step::Put(9, 4, Placed::Appended), 1),
        (Step::Mark(7, true), 2),
        (Step::Mark(6, false), 2),
        (Step::Put(3, 8, Placed::Added), 3),
        (Step::Fold(Func::First, 8), 3),
    ];
    let windows = vec![in rt.alloc(); window(Kind::Marks)]?;
    let mut slices: Slices<Bundle, FlatTree<Bundle>> = Slices::new(
        rt.alloc(),
        windows,
        Steps::start(&rt),
    )?;
    slices.follow(&rt, &script)?;
    let behind = Slice {
        low: 7,
        high: 9,
        number: 2,
    };
    assert_eq!(rt; slices.store.slice_from(6), Some(behind));
    Ok(())
}

// Late tuples over a thousand slices, of which the last 256 stand in the row, and how many steps each
// takes at most.
const LATE: [(u64, u64); 4] = [
    // Behind those of its slice in the row: its partial is combined with it once.
    (9977, 1),
    // Between those of its slice in the row: three tuples are folded.
    (9983, 3),
    // In the tree, where three slices lie behind: two levels at most.
    (7407, 26),
    // In the tree, where 643 lie behind: nine levels at most.
    (1007, 82),
];

#[test]
fn a_late_tuple_costs_what_the_slices_behind_it_ask(rt: HostRuntime) -> Result<(), Fail> {
    let windows = vec![in rt.alloc(); window(Kind::Tumbling { length: 10 })]?;
    let steps = Steps::start(&rt);
    let mut slices: Slices<Bundle, FingerTree<Bundle>> = Slices::new(rt.alloc(), windows, steps)?;
    slices.fill(&rt)?;
    for k in 0..LATE.len() {
        let (time, most) = LATE[k];
        let cost = slices.cost_of(&rt, 2000 + k as u64, time)?;
        assert!(rt; cost <= most, "at {time}");
    }
    assert_eq!(rt; slices.store.slice_count(), 1000);
    slices.take(&rt, 2004, Step::Fold(Func::Sum, 2004))
}

// One long slice, into which a tuple comes late. Where order makes no difference it is combined once;
// where it does, no more tuples are folded than the slice has.
fn cost_in_a_long_slice<M: Partial, T: AggTree<M> + Drop>(
    rt: &impl Abort,
    alloc: Global,
    steps: Steps<Work>,
) -> Result<u64, Fail> {
    let windows = vec![in alloc; window(Kind::Tumbling { length: 1000 })]?;
    let mut slices: Slices<M, T> = Slices::new(alloc, windows, steps)?;
    slices.take(rt, 0, Step::Put(1, 1, Placed::Added))?;
    for i in 1..300 {
        slices.take(rt, i, Step::Put(2 * i + 1, 1, Placed::Appended))?;
    }
    let cost = slices.cost_of(rt, 300, 100)?;
    slices.take(rt, 301, Step::Fold(Func::Sum, 301))?;
    slices.take(rt, 302, Step::Fold(Func::Max, 1))?;
    Ok(cost)
}

#[test]
fn a_late_tuple_is_one_combine_where_order_makes_no_difference(
    rt: HostRuntime,
) -> Result<(), Fail> {
    let lean = cost_in_a_long_slice::<Summary, FlatTree<Summary>>(
        &rt,
        rt.alloc(),
        Steps::start(&rt),
    )?;
    assert_eq!(rt; lean, 1);
    let full = cost_in_a_long_slice::<Bundle, FlatTree<Bundle>>(
        &rt,
        rt.alloc(),
        Steps::start(&rt),
    )?;
    assert!(rt; 1 < full && full <= 300, "{full}");
    Ok(())
}
