//! How many slices a key has as its tuples settle, worked out by hand.
ghost use Rattle.std.specs.Prelude.{◌≡◌, OnOk};

use agg_laws::Steps;
use shard_core::Shard;
use std::alloc::Global;
use std::process::Abort;
use std::test::Fail;
use std::thread::Threads;
use stream_base::{Def, Defs, Entry, Func, KeyText, Kind, What};

// Keeps the counters of a test apart.
struct Work;

// Windows of these kinds, which are summed.
fn sums(alloc: Global, kinds: &[Kind], lateness: u64) -> Result<Defs, Fail> {
    let mut windows = Vec::new(alloc);
    for kind in kinds {
        windows.push(Def {
            kind: *kind,
            func: Func::Sum,
        })?;
    }
    Ok(Defs::new(windows, lateness, 0, 0)?)
}

// Under these windows the key has so many slices after each of these entries of the one source.
fn counts_slices<R: Abort + AllocGlobal + Threads>(
    rt: &R,
    kinds: &[Kind],
    lateness: u64,
    told: &[(What, u64)],
) -> Result<(), Fail> {
    let alloc = rt.alloc();
    let key = KeyText::from_bytes(b"a")?;
    let mut steps: Steps<Work> = Steps::start(rt);
    let mut shard = Shard::new(alloc, sums(alloc, kinds, lateness)?, 1)?;
    'entries: for (what, slices) in told {
        apply(rt, &mut shard, *what, &mut steps)?;
        assert_eq!(rt; shard.slice_count(&key), *slices, "after {what:?}");
    }
    Ok(())
}

// Applies an entry of the one source.
fn apply(
    rt: &impl Abort,
    shard: &mut Shard,
    what: What,
    steps: &mut Steps<Work>,
) -> Result<(), Fail>
    requires { shard.old.sources ≡ 1 }
    ensures { OnOk result (shard.new.sources ≡ 1) }
{
    let entry = Entry { source: 0, what };
    assert!(rt; entry.is_within_limits());
    shard.apply(&entry, steps)?;
    Ok(())
}

fn tuple(time: u64) -> Result<What, Fail> {
    let key = KeyText::from_bytes(b"a")?;
    Ok(What::Tuple {
        key,
        time,
        value: 1,
    })
}

fn water(time: u64) -> What {
    What::Water { time }
}

const TENS: Kind = Kind::Tumbling { length: 10 };

#[test]
fn a_slice_settles_once_the_lateness_is_over(rt: HostRuntime) -> Result<(), Fail> {
    let told = [(tuple(1)?, 1), (water(10), 1), (water(15), 0)];
    counts_slices(&rt, &[TENS], 5, &told)
}

#[test]
fn a_slice_settles_with_the_last_interval_that_slides_over_it(rt: HostRuntime) -> Result<(), Fail> {
    let sliding = Kind::Sliding {
        length: 20,
        slide: 10,
    };
    let told = [
        (tuple(5)?, 1),
        (tuple(15)?, 2),
        (water(20), 1),
        (water(30), 0),
    ];
    counts_slices(&rt, &[sliding], 0, &told)
}

#[test]
fn windows_that_count_events_have_no_slices(rt: HostRuntime) -> Result<(), Fail> {
    counts_slices(&rt, &[Kind::Events { count: 2 }], 0, &[(tuple(5)?, 0)])
}

#[test]
fn a_slice_settles_with_the_last_of_its_windows(rt: HostRuntime) -> Result<(), Fail> {
    let told = [(tuple(8)?, 1), (water(10), 1), (water(13), 0)];
    counts_slices(&rt, &[TENS, Kind::Session { gap: 5 }], 0, &told)
}

#[test]
fn a_mark_at_the_watermark_settles_what_lies_before_it(rt: HostRuntime) -> Result<(), Fail> {
    let key = KeyText::from_bytes(b"a")?;
    let told = [
        (tuple(2)?, 1),
        (water(10), 1),
        (What::Mark { key, time: 10 }, 0),
    ];
    counts_slices(&rt, &[Kind::Marks], 0, &told)
}
