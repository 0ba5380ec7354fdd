ghost use Rattle.std.specs.Prelude.{◌≡◌, ◌≤◌, ◌<◌, IfOk, OnOk};

use agg_laws::Steps;
use shard_core::{Applied, ApplyFault, Shard};
use std::alloc::Global;
use std::process::Abort;
use std::test::Fail;
use stream_base::{Change, Def, Defs, Entry, Func, KeyText, Kind, Row, Shown, What};

// Keeps the counters of a test apart.
struct Work;

// What a source says, and the one change that it causes, if it causes any.
type Step = (u16, What, Option<Change>);

// A shard with a tumbling window of length 10 under this function.
fn empty_shard(alloc: Global, func: Func, sources: u16) -> Result<Shard, Fail>
    requires some { 1 ≤ sources }
    requires few { sources ≤ 16 }
    ensures { IfOk result (λ shard. shard.sources ≡ sources) }
{
    let tumbling = Def {
        kind: Kind::Tumbling { length: 10 },
        func,
    };
    let defs = Defs::new(vec![in alloc; tumbling]?, 0, 0, 0)?;
    Ok(Shard::new(alloc, defs, sources)?)
}

fn put(
    rt: &impl Abort,
    shard: &mut Shard,
    source: u16,
    what: What,
    steps: &mut Steps<Work>,
) -> Result<Applied, Fail>
    requires { source < shard.old.sources }
    ensures { OnOk result (shard.new.sources ≡ shard.old.sources) }
{
    let entry = Entry { source, what };
    assert!(rt; entry.is_within_limits());
    Ok(shard.apply(&entry, steps)?)
}

// Takes the steps, one after another, from the first position on. At the end each change stands
// under its entry, and nothing under the others.
fn follow(
    rt: &impl Abort,
    shard: &mut Shard,
    sources: u16,
    script: &[Step],
    steps: &mut Steps<Work>,
) -> Result<(), Fail>
    requires { shard.old.sources ≡ sources }
    ensures { OnOk result (shard.new.sources ≡ sources) }
{
    for k in 0..script.len() {
        let (source, what, change) = script[k];
        assert!(rt; source < sources);
        let applied = put(rt, shard, source, what, steps)?;
        assert_eq!(rt; applied.position, k as u64);
        assert_eq!(rt; applied.changes, change.is_some() as u64, "under {k}");
    }
    for k in 0..script.len() {
        stands(rt, shard, k as u64, script[k].2);
    }
    Ok(())
}

// Under a position stands this change alone, or nothing.
fn stands(rt: &impl Abort, shard: &Shard, position: u64, change: Option<Change>) {
    assert!(rt; position < shard.journal_len());
    let found = shard.changes_at(position);
    match change {
        Some(change) => {
            assert_eq!(rt; found.len(), 1, "under {position}");
            assert_eq!(rt; found.get(0), change, "under {position}");
        }
        None => assert_eq!(rt; found.len(), 0, "under {position}"),
    }
}

// A new shard of so many sources follows this script.
fn follows(
    rt: &impl Abort,
    alloc: Global,
    mut steps: Steps<Work>,
    func: Func,
    sources: u16,
    script: &[Step],
) -> Result<(), Fail> {
    assert!(rt; 1 <= sources);
    assert!(rt; sources <= 16);
    let mut shard = empty_shard(alloc, func, sources)?;
    follow(rt, &mut shard, sources, script, &mut steps)
}

fn tuple(key: KeyText, time: u64, value: i64) -> What {
    What::Tuple { key, time, value }
}

fn water(time: u64) -> What {
    What::Water { time }
}

// The row of one interval of window 0.
fn row(key: KeyText, low: u64, high: u64, number: u64, value: i128) -> Row {
    Row {
        window: 0,
        key,
        low,
        high,
        number,
        shown: Shown::Whole(value),
    }
}

// That row comes to stand.
fn emits(key: KeyText, low: u64, high: u64, number: u64, value: i128) -> Option<Change> {
    Some(Change::New(row(key, low, high, number, value)))
}

#[test]
fn a_watermark_emits_the_interval_that_it_passes(rt: HostRuntime) -> Result<(), Fail> {
    let a = KeyText::from_bytes(b"a")?;
    let script = [
        (0, tuple(a, 1, 5), None),
        (0, tuple(a, 4, 7), None),
        (0, water(10), emits(a, 0, 10, 2, 12)),
        (0, What::End, None),
    ];
    let mut steps: Steps<Work> = Steps::start(&rt);
    let mut shard = empty_shard(rt.alloc(), Func::Sum, 1)?;
    follow(&rt, &mut shard, 1, &script, &mut steps)?;
    let standing = shard.standing(&mut steps)?;
    let rows = [row(a, 0, 10, 2, 12)];
    assert_eq!(rt; standing.as_slice(), rows.as_slice());
    Ok(())
}

#[test]
fn a_journal_has_its_entries_in_their_order(rt: HostRuntime) -> Result<(), Fail> {
    let a = KeyText::from_bytes(b"a")?;
    let script = [(0, tuple(a, 1, 5), None), (0, tuple(a, 4, 7), None)];
    let mut steps: Steps<Work> = Steps::start(&rt);
    let mut shard = empty_shard(rt.alloc(), Func::Sum, 1)?;
    follow(&rt, &mut shard, 1, &script, &mut steps)?;
    assert_eq!(rt; shard.journal_len(), 2);
    let second = shard.entry_at(1);
    assert_eq!(rt; second.what, tuple(a, 4, 7));
    Ok(())
}

#[test]
fn tuples_out_of_order_fall_into_their_own_intervals(rt: HostRuntime) -> Result<(), Fail> {
    let a = KeyText::from_bytes(b"a")?;
    let script = [
        (0, tuple(a, 10, 1), None),
        (0, tuple(a, 9, 2), None),
        (0, water(10), emits(a, 0, 10, 1, 2)),
        (0, What::End, emits(a, 10, 20, 1, 1)),
    ];
    follows(&rt, rt.alloc(), Steps::start(&rt), Func::Sum, 1, &script)
}

// The hash of 1 and then 3 is 1 * 1099511628211 + 3.
#[test]
fn values_are_folded_in_the_order_of_their_times(rt: HostRuntime) -> Result<(), Fail> {
    let a = KeyText::from_bytes(b"a")?;
    let script = [
        (0, tuple(a, 5, 3), None),
        (0, tuple(a, 2, 1), None),
        (0, What::End, emits(a, 0, 10, 2, 1_099_511_628_214)),
    ];
    follows(&rt, rt.alloc(), Steps::start(&rt), Func::Trace, 1, &script)
}

#[test]
fn a_tuple_behind_the_watermark_is_dropped(rt: HostRuntime) -> Result<(), Fail> {
    let a = KeyText::from_bytes(b"a")?;
    let script = [
        (0, water(10), None),
        (0, tuple(a, 9, 7), Some(Change::Dropped)),
        (0, tuple(a, 10, -2), None),
        (0, What::End, emits(a, 10, 20, 1, -2)),
    ];
    follows(&rt, rt.alloc(), Steps::start(&rt), Func::Sum, 1, &script)
}

#[test]
fn the_least_watermark_of_the_sources_counts(rt: HostRuntime) -> Result<(), Fail> {
    let a = KeyText::from_bytes(b"a")?;
    let script = [
        (0, tuple(a, 5, 1), None),
        (0, water(20), None),
        (0, What::End, None),
        (1, water(10), emits(a, 0, 10, 1, 1)),
    ];
    follows(&rt, rt.alloc(), Steps::start(&rt), Func::Sum, 2, &script)
}

// Source 1 holds the watermark back until it is idle, and wakes with waters of its own without
// lowering it. While both are idle it stays where it is.
#[test]
fn an_idle_source_holds_nobody_back(rt: HostRuntime) -> Result<(), Fail> {
    let a = KeyText::from_bytes(b"a")?;
    let script = [
        (0, tuple(a, 5, 1), None),
        (0, water(20), None),
        (1, What::Idle, emits(a, 0, 10, 1, 1)),
        (1, water(3), None),
        (1, tuple(a, 15, 2), Some(Change::Dropped)),
        (1, tuple(a, 25, 4), None),
        (1, What::Idle, None),
        (0, What::Idle, None),
        (0, water(30), emits(a, 20, 30, 1, 4)),
        (0, What::End, None),
        (1, What::End, None),
    ];
    follows(&rt, rt.alloc(), Steps::start(&rt), Func::Sum, 2, &script)
}

// The last entry of a source was its end.
fn says_no_more(rt: &impl Abort, shard: &mut Shard, steps: &mut Steps<Work>)
    requires { 1 ≤ shard.old.sources }
{
    let entries = shard.journal_len();
    let entry = Entry {
        source: 0,
        what: water(30),
    };
    assert!(rt; entry.is_within_limits());
    assert_eq!(rt; shard.apply(&entry, steps), Err(ApplyFault::Ended));
    assert_eq!(rt; shard.journal_len(), entries);
}

#[test]
fn an_entry_behind_the_end_of_its_source_changes_nothing(rt: HostRuntime) -> Result<(), Fail> {
    let a = KeyText::from_bytes(b"a")?;
    let script = [
        (0, tuple(a, 5, 1), None),
        (0, water(9), None),
        (0, What::End, emits(a, 0, 10, 1, 1)),
    ];
    let mut steps: Steps<Work> = Steps::start(&rt);
    let mut shard = empty_shard(rt.alloc(), Func::Sum, 1)?;
    follow(&rt, &mut shard, 1, &script, &mut steps)?;
    says_no_more(&rt, &mut shard, &mut steps);
    stands(&rt, &shard, 2, emits(a, 0, 10, 1, 1));
    Ok(())
}

#[test]
fn a_source_that_only_ended_can_say_no_more(rt: HostRuntime) -> Result<(), Fail> {
    let mut steps: Steps<Work> = Steps::start(&rt);
    let mut shard = empty_shard(rt.alloc(), Func::Sum, 1)?;
    put(&rt, &mut shard, 0, What::End, &mut steps)?;
    says_no_more(&rt, &mut shard, &mut steps);
    Ok(())
}

// A tuple is settled once the watermark reaches the end of its interval.
#[test]
fn a_key_has_as_many_slices_as_are_not_settled(rt: HostRuntime) -> Result<(), Fail> {
    let a = KeyText::from_bytes(b"a")?;
    let b = KeyText::from_bytes(b"b")?;
    let script = [
        (tuple(a, 1, 5), 1),
        (tuple(a, 12, 7), 2),
        (tuple(a, 4, 2), 2),
        (What::Mark { key: a, time: 4 }, 3),
        (water(9), 3),
        (water(10), 1),
        (What::End, 0),
    ];
    let mut steps: Steps<Work> = Steps::start(&rt);
    let mut shard = empty_shard(rt.alloc(), Func::Sum, 1)?;
    keeps_slices(&rt, &mut shard, &a, &script, &mut steps)?;
    assert_eq!(rt; shard.slice_count(&b), 0);
    Ok(())
}

// Takes what source 0 says; each comes with how many slices the key has then.
fn keeps_slices(
    rt: &impl Abort,
    shard: &mut Shard,
    key: &KeyText,
    script: &[(What, u64)],
    steps: &mut Steps<Work>,
) -> Result<(), Fail>
    requires { shard.old.sources ≡ 1 }
{
    for k in 0..script.len() {
        let (what, slices) = script[k];
        put(rt, shard, 0, what, steps)?;
        assert_eq!(rt; shard.slice_count(key), slices, "after entry {k}");
    }
    Ok(())
}
