ghost use Rattle.std.specs.Prelude.{◌≡◌, ◌≤◌, IfOk, true};
ghost use Rattle.stream_base.specs.declared.limits.TheConstants.{TIME_MAX};
ghost use Rattle.stream_base.specs.Kinds.{is_timed};
ghost use Rattle.stream_base.specs.Model.Moments.{IsWater};
ghost use Rattle.agg_store.specs.Stored.{IsSliced};
ghost use Rattle.time_lanes.specs.Spans.{is_served};

use crate::told::{Work, again, new};
use agg_laws::{AggQueue, AggTree, Steps};
use agg_queue::{Daba, TwoStacks};
use aggregates::Bundle;
use fiba_arena::ArenaTree;
use pair_row::FlatTree;
use slice_store::SliceStore;
use std::alloc::Global;
use std::process::Abort;
use std::test::Fail;
use stream_base::{Change, Def, Defs, FINAL, Former, Func, Kept, KeyText, Kind, TIME_MAX};
use time_lanes::Lane;

// What comes to a window of a key.
#[derive(Clone, Copy)]
enum Step {
    // A tuple of a value at a time, under a watermark.
    Put(u64, i64, u64),
    // A move of the watermark.
    Water(u64, u64),
}

// One window of a key: the key's slices, the lane that follows them, what stood before the last
// tuple, and the changes.
#[derive(Drop)]
struct Window<Q: AggQueue<Bundle>, T: AggTree<Bundle>> {
    defs: Defs,
    store: SliceStore<Bundle, T>,
    lane: Lane<Bundle, Q>,
    key: KeyText,
    stood: Vec<Option<Former>>,
    changes: Vec<Change>,
    steps: Steps<Work>,
    ghost served: { is_served defs.windows 0 ≡ true },
    ghost sliced: { IsSliced defs.windows store },
}

impl<Q: AggQueue<Bundle>, T: AggTree<Bundle>> Window<Q, T> {
    // A window of key `a` with no tuple yet.
    fn new(alloc: Global, kind: Kind, func: Func, steps: Steps<Work>) -> Result<Window<Q, T>, Fail>
        requires { is_timed kind ≡ true }
    {
        let defs = defs_of(alloc, kind, func)?;
        let key = KeyText::from_bytes(b"a")?;
        Ok(Window {
            defs,
            store: SliceStore::new(alloc),
            lane: Lane::new(alloc),
            key,
            stood: Vec::new(alloc),
            changes: Vec::new(alloc),
            steps,
        })
    }

    // Takes the steps, one after another; each comes with how many changes were told by then.
    fn follow(&mut self, rt: &impl Abort, script: &[(Step, usize)]) -> Result<(), Fail> {
        for k in 0..script.len() {
            let (step, told) = script[k];
            self.take(rt, k as u64, step)?;
            assert_eq!(rt; self.changes.len(), told, "after step {k}");
        }
        Ok(())
    }

    fn take(&mut self, rt: &impl Abort, pos: u64, step: Step) -> Result<(), Fail> {
        match step {
            Step::Put(time, value, water) => {
                assert!(rt; time <= TIME_MAX);
                assert!(rt; is_water(water));
                self.put(pos, time, value, water)
            }
            Step::Water(old, new) => {
                assert!(rt; is_water(old));
                assert!(rt; is_water(new));
                assert!(rt; old <= new);
                self.move_water(old, new)
            }
        }
    }

    // One tuple more under a watermark. The lane hears of one that comes before it.
    fn put(&mut self, pos: u64, time: u64, value: i64, water: u64) -> Result<(), Fail>
        requires time { time ≤ TIME_MAX }
        requires water { IsWater water }
    {
        let count = self.lane.late_count(&self.defs, 0, time, water);
        self.stood.clear();
        self.stood.reserve(count as usize)?;
        self.changes.reserve(count as usize)?;
        self.store.reserve()?;
        self.lane.formers(
            &self.defs,
            0,
            &self.store,
            time,
            water,
            &mut self.stood,
            &mut self.steps,
        );
        let x = Kept {
            position: pos,
            time,
            value,
        };
        self.store.put(&self.defs, x, &mut self.steps);
        if time < water {
            self.lane.touched(time);
        }
        self.lane.late(
            &self.defs,
            0,
            &self.store,
            &self.key,
            time,
            value,
            water,
            &self.stood,
            &mut self.changes,
            &mut self.steps,
        );
        Ok(())
    }

    // A move of the watermark.
    fn move_water(&mut self, old: u64, new: u64) -> Result<(), Fail>
        requires old { IsWater old }
        requires new { IsWater new }
        requires order { old ≤ new }
    {
        let rows = self.lane.reserve(&self.defs, 0, &self.store, old, new)?;
        self.changes.reserve(rows as usize)?;
        self.lane.advance(
            &self.defs,
            0,
            &self.store,
            &self.key,
            old,
            new,
            &mut self.changes,
            &mut self.steps,
        );
        Ok(())
    }
}

fn is_water(water: u64) -> bool
    ensures { result ≡ true → IsWater water }
{
    water <= TIME_MAX || water == FINAL
}

fn defs_of(alloc: Global, kind: Kind, func: Func) -> Result<Defs, Fail>
    requires { is_timed kind ≡ true }
    ensures served { IfOk result (λ d. is_served d.windows 0 ≡ true) }
{
    let mut windows = Vec::new(alloc);
    windows.push(Def { kind, func })?;
    Ok(Defs::new(windows, 90, 0, 0)?)
}

// Intervals of 20 that start at each 10.
const TWO_DEEP: Kind = Kind::Sliding {
    length: 20,
    slide: 10,
};

// Tuples at 3 and 14 lie in [0, 10) and [10, 20). Each is told once, by the move that reaches its
// end, and the empty intervals behind them not at all.
fn tells_complete_intervals<Q: AggQueue<Bundle> + Drop>(
    rt: &impl Abort,
    alloc: Global,
    steps: Steps<Work>,
) -> Result<(), Fail> {
    let script = [
        (Step::Put(3, 1, 0), 0),
        (Step::Put(14, 2, 0), 0),
        (Step::Water(0, 10), 1),
        (Step::Water(10, 19), 1),
        (Step::Water(19, 20), 2),
        (Step::Water(20, 90), 2),
    ];
    let a = KeyText::from_bytes(b"a")?;
    let told = [new(&a, 0, 10, 1, 1), new(&a, 10, 20, 1, 2)];
    let tumbling = Kind::Tumbling { length: 10 };
    let mut window: Window<Q, FlatTree<Bundle>> = Window::new(alloc, tumbling, Func::Sum, steps)?;
    window.follow(rt, &script)?;
    assert_eq!(rt; window.changes.as_slice(), told.as_slice());
    Ok(())
}

#[test]
fn complete_intervals_are_told_over_two_stacks(rt: HostRuntime) -> Result<(), Fail> {
    tells_complete_intervals::<TwoStacks<Bundle>>(&rt, rt.alloc(), Steps::start(&rt))
}

#[test]
fn complete_intervals_are_told_over_daba(rt: HostRuntime) -> Result<(), Fail> {
    tells_complete_intervals::<Daba<Bundle>>(&rt, rt.alloc(), Steps::start(&rt))
}

// At a watermark of 20 the interval [0, 20) stands with the tuples at 5 and 15; [10, 30) doesn't yet.
// A tuple at 12 comes late. It makes an update of the first, with the 2 tuples and the 1 that it
// showed; and it is the first of the second, where the lane had taken up the slice of 15 already.
fn refreshes_what_a_late_tuple_touched<Q: AggQueue<Bundle> + Drop>(
    rt: &impl Abort,
    alloc: Global,
    steps: Steps<Work>,
) -> Result<(), Fail> {
    let script = [
        (Step::Put(5, 1, 0), 0),
        (Step::Put(15, 2, 0), 0),
        (Step::Water(0, 20), 1),
        (Step::Put(12, 4, 20), 2),
        (Step::Water(20, 30), 3),
        (Step::Water(30, FINAL), 3),
    ];
    let a = KeyText::from_bytes(b"a")?;
    let told = [
        new(&a, 0, 20, 2, 1),
        again(&a, 0, 20, 3, 1, 1),
        new(&a, 10, 30, 2, 4),
    ];
    let mut window: Window<Q, ArenaTree<Bundle>> = Window::new(
        alloc,
        TWO_DEEP,
        Func::First,
        steps,
    )?;
    window.follow(rt, &script)?;
    assert_eq!(rt; window.changes.as_slice(), told.as_slice());
    Ok(())
}

#[test]
fn a_touched_lane_is_refreshed_over_two_stacks(rt: HostRuntime) -> Result<(), Fail> {
    refreshes_what_a_late_tuple_touched::<TwoStacks<Bundle>>(&rt, rt.alloc(), Steps::start(&rt))
}

#[test]
fn a_touched_lane_is_refreshed_over_daba(rt: HostRuntime) -> Result<(), Fail> {
    refreshes_what_a_late_tuple_touched::<Daba<Bundle>>(&rt, rt.alloc(), Steps::start(&rt))
}

// A tuple at 15 comes late, where [10, 30) stands with the tuple at 25 and [0, 20) held none. It is
// in both, by their starts: the one is new, and the other showed 1 before. A tuple at 60 lies in
// [50, 70) and [60, 80), which the final watermark completes together.
#[test]
fn a_late_tuple_alone_in_an_interval_is_new(rt: HostRuntime) -> Result<(), Fail> {
    let script = [
        (Step::Put(25, 1, 0), 0),
        (Step::Water(0, 50), 2),
        (Step::Put(15, 4, 50), 4),
        (Step::Put(60, 8, 50), 4),
        (Step::Water(50, FINAL), 6),
    ];
    let a = KeyText::from_bytes(b"a")?;
    let told = [
        new(&a, 10, 30, 1, 1),
        new(&a, 20, 40, 1, 1),
        new(&a, 0, 20, 1, 4),
        again(&a, 10, 30, 2, 5, 1),
        new(&a, 50, 70, 1, 8),
        new(&a, 60, 80, 1, 8),
    ];
    let mut window: Window<Daba<Bundle>, FlatTree<Bundle>> = Window::new(
        rt.alloc(),
        TWO_DEEP,
        Func::Sum,
        Steps::start(&rt),
    )?;
    window.follow(&rt, &script)?;
    assert_eq!(rt; window.changes.as_slice(), told.as_slice());
    Ok(())
}

// Of the two intervals that hold 15, [0, 20) and [10, 30), those count that end at or before the
// watermark; 5 lies in [0, 20) alone, and [20, 40) is the first that holds 30. The last one that
// holds 15 ends at 30.
#[test]
fn late_tuples_count_the_complete_intervals_that_hold_them(rt: HostRuntime) -> Result<(), Fail> {
    let steps: Steps<Work> = Steps::start(&rt);
    let window: Window<Daba<Bundle>, FlatTree<Bundle>> = Window::new(
        rt.alloc(),
        TWO_DEEP,
        Func::Sum,
        steps,
    )?;
    for (time, water, count) in [
        (15, 0, 0),
        (15, 19, 0),
        (15, 20, 1),
        (15, 29, 1),
        (15, 30, 2),
        (15, FINAL, 2),
        (5, FINAL, 1),
        (30, 40, 1),
    ] {
        assert!(rt; time <= TIME_MAX);
        assert!(rt; is_water(water));
        let found = window.lane.late_count(&window.defs, 0, time, water);
        assert_eq!(rt; found, count, "{time} at {water}");
    }
    assert_eq!(rt; window.lane.last_end_holding(&window.defs, 0, 15), 30);
    Ok(())
}

// Intervals of one unit of time, of which 10^15 + 1 lie between the ends of time: the move tells the
// two that hold a tuple, and takes 10 steps at most for each of their slices and 1 for each row.
#[test]
fn a_jump_over_empty_intervals_costs_its_rows(rt: HostRuntime) -> Result<(), Fail> {
    let script = [(Step::Put(0, 7, 0), 0), (Step::Put(TIME_MAX, 7, 0), 0)];
    let jump = [(Step::Water(0, FINAL), 2)];
    let a = KeyText::from_bytes(b"a")?;
    let told = [new(&a, 0, 1, 1, 1), new(&a, TIME_MAX, TIME_MAX + 1, 1, 1)];
    let shortest = Kind::Tumbling { length: 1 };
    let mut window: Window<Daba<Bundle>, FlatTree<Bundle>> = Window::new(
        rt.alloc(),
        shortest,
        Func::Count,
        Steps::start(&rt),
    )?;
    window.follow(&rt, &script)?;
    let before = window.steps.count();
    window.follow(&rt, &jump)?;
    assert_eq!(rt; window.changes.as_slice(), told.as_slice());
    assert!(rt; window.steps.count().abs_diff(before) <= 22);
    Ok(())
}
