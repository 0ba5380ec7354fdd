//! Each kind of window by both engines, and all kinds at once.
//!
//! Of the 2,000 entries about 1,400 are tuples and 200 marks, of three keys; event time runs over
//! 6,000 units. So a key has a tuple about each 13 units, and a mark each 90. The floors below are
//! well under what follows from that for each kind.

ghost use Rattle.std.specs.Prelude.{◌≤◌};

use crate::in_step::{Seen, compared, compared_long};
use std::alloc::Global;
use std::process::Abort;
use std::test::Fail;
use std::thread::Threads;
use stream_base::{Def, Defs, Func, Kind};

// A function of which the order of values makes a difference, and one of which it makes none: where all
// are so, a key keeps less of each slice.
const FUNCS: [Func; 2] = [Func::Trace, Func::Min];

// Two windows of this kind, or of two such kinds, under functions that differ in what they keep.
fn two(alloc: Global, first: Kind, second: Kind, func: Func) -> Result<Defs, Fail> {
    let windows = vec![in alloc;
        Def { kind: first, func },
        Def {
            kind: second,
            func: Func::Mean
        },
    ]?;
    Ok(Defs::new(windows, 25, 0, 0)?)
}

// More than so many changes of rows were compared; some entries came too late, some changed what
// stood already, and source 1 spoke behind its end.
fn assert_seen(rt: &impl Abort, seen: Seen, changes: u64) {
    assert!(rt;
        seen.changes.saturating_sub(seen.dropped) > changes,
        "{seen:?}"
    );
    assert!(rt; seen.revised > 20, "{seen:?}");
    assert!(rt; seen.dropped > 20, "{seen:?}");
    assert!(rt; seen.refused > 10, "{seen:?}");
}

// Each key has 600 intervals of 10, and a tuple in about half of them.
#[test]
fn tumbling_windows_are_the_same_by_lists_and_by_slices(rt: HostRuntime) -> Result<(), Fail> {
    let alloc = rt.alloc();
    let tens = Kind::Tumbling { length: 10 };
    let sevens = Kind::Tumbling { length: 7 };
    for func in FUNCS {
        let defs = two(alloc, tens, sevens, func)?;
        let seen = compared(&rt, alloc, defs, 1)?;
        assert_seen(&rt, seen, 1_000);
        assert!(rt; seen.slices > 1_000, "{seen:?}");
    }
    Ok(())
}

// Each key has 600 spans of 30, and a tuple in most of them.
#[test]
fn sliding_windows_are_the_same_by_lists_and_by_slices(rt: HostRuntime) -> Result<(), Fail> {
    let alloc = rt.alloc();
    let thirties = Kind::Sliding {
        length: 30,
        slide: 10,
    };
    let tens = Kind::Sliding {
        length: 10,
        slide: 4,
    };
    for func in FUNCS {
        let defs = two(alloc, thirties, tens, func)?;
        let seen = compared(&rt, alloc, defs, 2)?;
        assert_seen(&rt, seen, 1_500);
        assert!(rt; seen.slices > 1_000, "{seen:?}");
    }
    Ok(())
}

// About a third of a key's 460 tuples have no neighbour within 12 behind them.
#[test]
fn sessions_are_the_same_by_lists_and_by_slices(rt: HostRuntime) -> Result<(), Fail> {
    let alloc = rt.alloc();
    let short = Kind::Session { gap: 12 };
    let long = Kind::Session { gap: 30 };
    for func in FUNCS {
        let defs = two(alloc, short, long, func)?;
        let seen = compared(&rt, alloc, defs, 3)?;
        assert_seen(&rt, seen, 200);
        assert!(rt; seen.slices > 1_000, "{seen:?}");
    }
    Ok(())
}

// Each key has about 60 spans between marks, with some 7 tuples each, in each of the two windows.
#[test]
fn marks_windows_are_the_same_by_lists_and_by_slices(rt: HostRuntime) -> Result<(), Fail> {
    let alloc = rt.alloc();
    for func in FUNCS {
        let defs = two(alloc, Kind::Marks, Kind::Marks, func)?;
        let seen = compared(&rt, alloc, defs, 4)?;
        assert_seen(&rt, seen, 150);
        assert!(rt; seen.slices > 1_000, "{seen:?}");
    }
    Ok(())
}

// Each key's 460 tuples make over 100 runs of 4, and a late tuple shifts all that lie behind
// it. Such windows keep no tuple unsettled, so alone they have no slices.
#[test]
fn events_windows_are_the_same_by_lists_and_by_slices(rt: HostRuntime) -> Result<(), Fail> {
    let alloc = rt.alloc();
    let fours = Kind::Events { count: 4 };
    let elevens = Kind::Events { count: 11 };
    for func in FUNCS {
        let defs = two(alloc, fours, elevens, func)?;
        let seen = compared(&rt, alloc, defs, 5)?;
        assert_seen(&rt, seen, 200);
        assert_eq!(rt; seen.slices, 0);
    }
    Ok(())
}

// The functions of a window of each kind, of which the order of values makes a difference to most, or to none.
const ORDERED: [Func; 5] = [Func::Rises, Func::Max, Func::Trace, Func::Last, Func::First];

const FREE: [Func; 5] = [Func::Sum, Func::Max, Func::Mean, Func::Min, Func::Count];

// A window of each kind, over times that lie so many times as far apart.
fn all_kinds(alloc: Global, far: u64, funcs: [Func; 5]) -> Result<Defs, Fail>
    requires some { 1 ≤ far }
    requires few { far ≤ 200 }
{
    let windows = vec![in alloc;
        Def {
            kind: Kind::Tumbling { length: 10 * far },
            func: funcs[0]
        },
        Def {
            kind: Kind::Sliding {
                length: 30 * far,
                slide: 10 * far
            },
            func: funcs[1]
        },
        Def {
            kind: Kind::Session { gap: 12 * far },
            func: funcs[2]
        },
        Def {
            kind: Kind::Marks,
            func: funcs[3]
        },
        Def {
            kind: Kind::Events { count: 4 },
            func: funcs[4]
        },
    ]?;
    Ok(Defs::new(windows, 25 * far, 0, 0)?)
}

// The floors of the five kinds together; slices are cut at the bounds of all.
#[test]
fn all_kinds_at_once_are_the_same_by_lists_and_by_slices(rt: HostRuntime) -> Result<(), Fail> {
    let alloc = rt.alloc();
    for funcs in [ORDERED, FREE] {
        let seen = compared(&rt, alloc, all_kinds(alloc, 1, funcs)?, 6)?;
        assert_seen(&rt, seen, 2_000);
        assert!(rt; seen.slices > 1_000, "{seen:?}");
    }
    Ok(())
}

// 100,000 entries of 500 keys: a key has 140 tuples and 20 marks, a tuple about each 2,140 units.
fn compare_a_long_run<R: Abort + Threads>(
    rt: &R,
    alloc: Global,
    funcs: [Func; 5],
) -> Result<(), Fail> {
    let seen = compared_long(rt, alloc, all_kinds(alloc, 150, funcs)?, 7)?;
    assert_seen(rt, seen, 100_000);
    assert!(rt; seen.slices > 100_000, "{seen:?}");
    Ok(())
}

#[test]
fn a_long_run_of_all_kinds_is_the_same_by_lists_and_by_slices(rt: HostRuntime) -> Result<(), Fail> {
    compare_a_long_run(&rt, rt.alloc(), ORDERED)
}

#[test]
fn a_long_run_is_the_same_where_order_makes_no_difference(rt: HostRuntime) -> Result<(), Fail> {
    compare_a_long_run(&rt, rt.alloc(), FREE)
}
