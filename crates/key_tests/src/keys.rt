//! The plain engine, by its trait.
ghost use Rattle.std.specs.Prelude.{◌≡◌, ◌≤◌, ◌<◌, ◌+◌, ℕ, List, IfOk, OnOk};
ghost use Rattle.stream_base.specs.declared.kept.Kept.{Kept};
ghost use Rattle.stream_base.specs.declared.limits.TheConstants.{JOURNAL_MAX, TIME_MAX};

use agg_laws::Steps;
use key_windows::{AnyKey, KeyWindows};
use plain_keys::PlainKey;
use std::alloc::Global;
use std::test::Fail;
use stream_base::{
    Change, Def, Defs, FINAL, Former, Func, Kept, KeyText, Kind, NoMemory, Row, Shown,
};

struct Work;

// A sum over intervals of 10, a count over sessions with a gap of 5, the first of each two tuples, and
// a sum between marks; the lateness is 10.
fn four_windows(alloc: Global) -> Result<Defs, Fail>
    ensures { IfOk result (λ d. d.lateness ≡ 10) }
{
    let windows = vec![in alloc;
        Def {
            kind: Kind::Tumbling { length: 10 },
            func: Func::Sum
        },
        Def {
            kind: Kind::Session { gap: 5 },
            func: Func::Count
        },
        Def {
            kind: Kind::Events { count: 2 },
            func: Func::First
        },
        Def {
            kind: Kind::Marks,
            func: Func::Sum
        },
    ]?;
    Ok(Defs::new(windows, 10, 0, 0)?)
}

// A state without a tuple or mark, under a watermark.
fn fresh<K: AnyKey>(alloc: Global, defs: &Defs, key: KeyText, water: u64) -> Result<K, NoMemory>
    ensures first { IfOk result (λ state. K.next_position state ≡ 0) }
    ensures stands { IfOk result (λ state. (kept : List Kept) × (marks : List ℕ)
        × K.fits defs.now kept marks water state) }
{
    K::fresh(alloc, defs, key)
}

// Room is made for a tuple, and it is put. Times of 32 bits are within the limit here and below.
fn put<K: AnyKey>(
    alloc: Global,
    state: &mut K,
    defs: &Defs,
    x: Kept,
    water: u32,
    steps: &mut Steps<Work>,
) -> Result<Vec<Change>, NoMemory>
    requires stands { (kept : List Kept) × (marks : List ℕ)
        × K.fits defs.now kept marks water state.old }
    requires time { x.time ≤ TIME_MAX }
    requires position { K.next_position state.old ≤ x.position }
    requires few { x.position < JOURNAL_MAX }
    requires accepted { water ≤ x.time + (defs.now).lateness }
    ensures next { OnOk result (K.next_position state.new ≡ x.position + 1) }
    ensures stands { OnOk result ((kept : List Kept) × (marks : List ℕ)
        × K.fits defs.now kept marks water state.new) }
{
    let water = water as u64;
    let room = state.reserve_put(defs, x.time, water)?;
    let mut out = Vec::with_capacity(alloc, room as usize)?;
    state.put(defs, x, water, &mut out, steps);
    Ok(out)
}

// Room is made for a mark, and it is taken in.
fn mark<K: AnyKey>(
    alloc: Global,
    state: &mut K,
    defs: &Defs,
    time: u32,
    water: u32,
    steps: &mut Steps<Work>,
) -> Result<Vec<Change>, NoMemory>
    requires stands { (kept : List Kept) × (marks : List ℕ)
        × K.fits defs.now kept marks water state.old }
    requires accepted { water ≤ time + (defs.now).lateness }
    ensures next { OnOk result (K.next_position state.new ≡ K.next_position state.old) }
    ensures stands { OnOk result ((kept : List Kept) × (marks : List ℕ)
        × K.fits defs.now kept marks water state.new) }
{
    let (time, water) = (time as u64, water as u64);
    let room = state.reserve_mark(defs, time, water)?;
    let mut out = Vec::with_capacity(alloc, room as usize)?;
    state.mark(defs, time, water, &mut out, steps);
    Ok(out)
}

// Room is made for a move of the watermark, and it is taken in.
fn advance<K: AnyKey>(
    alloc: Global,
    state: &mut K,
    defs: &Defs,
    old: u32,
    new: u32,
    steps: &mut Steps<Work>,
) -> Result<Vec<Change>, NoMemory>
    requires stands { (kept : List Kept) × (marks : List ℕ)
        × K.fits defs.now kept marks old state.old }
    requires rises { old ≤ new }
    ensures next { OnOk result (K.next_position state.new ≡ K.next_position state.old) }
    ensures stands { OnOk result ((kept : List Kept) × (marks : List ℕ)
        × K.fits defs.now kept marks new state.new) }
{
    let (old, new) = (old as u64, new as u64);
    let room = state.reserve_water(defs, old, new)?;
    let mut out = Vec::with_capacity(alloc, room as usize)?;
    state.water(defs, old, new, &mut out, steps);
    Ok(out)
}

fn due<K: AnyKey>(state: &K, defs: &Defs, water: u32) -> u64
    requires { (kept : List Kept) × (marks : List ℕ)
        × K.fits defs.now kept marks water state.now }
{
    state.next_due(defs, water as u64)
}

// The slices under a watermark of a state that stands under this one or an earlier one.
fn slices<K: AnyKey>(state: &K, defs: &Defs, old: u32, water: u32) -> u64
    requires stands { (kept : List Kept) × (marks : List ℕ)
        × K.fits defs.now kept marks old state.now }
    requires rises { old ≤ water }
{
    state.slice_count(defs, water as u64)
}

fn kept(position: u64, time: u64, value: i64) -> Kept
    ensures position { result.position ≡ position }
    ensures time { result.time ≡ time }
{
    Kept {
        position,
        time,
        value,
    }
}

fn row(window: u32, key: KeyText, low: u64, high: u64, number: u64, shown: i128) -> Row {
    Row {
        window,
        key,
        low,
        high,
        number,
        shown: Shown::Whole(shown),
    }
}

fn former(number: u64, shown: i128) -> Former {
    Former {
        number,
        shown: Shown::Whole(shown),
    }
}

#[test]
fn a_late_tuple_updates_and_a_late_mark_parts(rt: HostRuntime) -> Result<(), Fail> {
    let alloc = rt.alloc();
    let mut steps: Steps<Work> = Steps::start(&rt);
    let key = KeyText::from_bytes(b"a")?;
    let defs = four_windows(alloc)?;
    let mut state = fresh::<PlainKey>(alloc, &defs, key, 0)?;

    let none = put(alloc, &mut state, &defs, kept(0, 1, 5), 0, &mut steps)?;
    assert!(rt; none.is_empty());
    let none = put(alloc, &mut state, &defs, kept(1, 4, 7), 0, &mut steps)?;
    assert!(rt; none.is_empty());
    assert_eq!(rt; due(&state, &defs, 0), 4);

    let moved = advance(alloc, &mut state, &defs, 0, 10, &mut steps)?;
    let wanted = [
        Change::New(row(0, key, 0, 10, 2, 12)),
        Change::New(row(1, key, 1, 9, 2, 2)),
        Change::New(row(2, key, 0, 2, 2, 5)),
    ];
    assert_eq!(rt; moved.as_slice(), wanted.as_slice());

    let late = put(alloc, &mut state, &defs, kept(2, 3, 100), 10, &mut steps)?;
    let wanted = [
        Change::Again {
            row: row(0, key, 0, 10, 3, 112),
            former: former(2, 12),
        },
        Change::Again {
            row: row(1, key, 1, 9, 3, 3),
            former: former(2, 2),
        },
        Change::Again {
            row: row(2, key, 0, 2, 2, 5),
            former: former(2, 5),
        },
    ];
    assert_eq!(rt; late.as_slice(), wanted.as_slice());

    let parted = mark(alloc, &mut state, &defs, 4, 10, &mut steps)?;
    assert_eq!(rt;
        parted.as_slice(),
        [Change::New(row(3, key, 0, 4, 2, 105))].as_slice()
    );
    let parted = mark(alloc, &mut state, &defs, 2, 10, &mut steps)?;
    let wanted = [
        Change::Gone(row(3, key, 0, 4, 2, 105)),
        Change::New(row(3, key, 0, 2, 1, 5)),
        Change::New(row(3, key, 2, 4, 1, 100)),
    ];
    assert_eq!(rt; parted.as_slice(), wanted.as_slice());
    let again = mark(alloc, &mut state, &defs, 2, 10, &mut steps)?;
    assert!(rt; again.is_empty());
    assert_eq!(rt; due(&state, &defs, 10), FINAL);

    let mut rows = Vec::new(alloc);
    state.append_rows(&defs, 10, &mut rows, &mut steps)?;
    let wanted = [
        row(0, key, 0, 10, 3, 112),
        row(1, key, 1, 9, 3, 3),
        row(2, key, 0, 2, 2, 5),
        row(3, key, 0, 2, 1, 5),
        row(3, key, 2, 4, 1, 100),
    ];
    assert_eq!(rt; rows.as_slice(), wanted.as_slice());
    Ok(())
}

// A sum over intervals of 10, and a count over sessions with a gap of 4; the lateness is 3.
fn two_windows(alloc: Global) -> Result<Defs, Fail>
    ensures { IfOk result (λ d. d.lateness ≡ 3) }
{
    let windows = vec![in alloc;
        Def {
            kind: Kind::Tumbling { length: 10 },
            func: Func::Sum
        },
        Def {
            kind: Kind::Session { gap: 4 },
            func: Func::Count
        },
    ]?;
    Ok(Defs::new(windows, 3, 0, 0)?)
}

#[test]
fn slices_are_cut_at_gaps_starts_and_marks_and_counted_until_they_settle(
    rt: HostRuntime,
) -> Result<(), Fail> {
    let alloc = rt.alloc();
    let mut steps: Steps<Work> = Steps::start(&rt);
    let defs = two_windows(alloc)?;
    let key = KeyText::from_bytes(b"a")?;
    let mut state = fresh::<PlainKey>(alloc, &defs, key, 0)?;
    assert_eq!(rt; slices(&state, &defs, 0, 0), 0);

    // The tuple at 5 joins two slices. A mark parts them between 2 and 5, and so would one at 5.
    put(alloc, &mut state, &defs, kept(0, 1, 0), 0, &mut steps)?;
    put(alloc, &mut state, &defs, kept(1, 2, 0), 0, &mut steps)?;
    put(alloc, &mut state, &defs, kept(2, 8, 0), 0, &mut steps)?;
    assert_eq!(rt; slices(&state, &defs, 0, 0), 2);
    put(alloc, &mut state, &defs, kept(3, 5, 0), 0, &mut steps)?;
    assert_eq!(rt; slices(&state, &defs, 0, 0), 1);
    mark(alloc, &mut state, &defs, 4, 0, &mut steps)?;
    assert_eq!(rt; slices(&state, &defs, 0, 0), 2);
    mark(alloc, &mut state, &defs, 5, 0, &mut steps)?;
    assert_eq!(rt; slices(&state, &defs, 0, 0), 2);

    // An interval begins at 10, and the session ends at 15.
    put(alloc, &mut state, &defs, kept(4, 11, 0), 0, &mut steps)?;
    assert_eq!(rt; slices(&state, &defs, 0, 0), 3);
    put(alloc, &mut state, &defs, kept(5, 30, 0), 0, &mut steps)?;
    assert_eq!(rt; slices(&state, &defs, 0, 17), 4);
    assert_eq!(rt; slices(&state, &defs, 0, 18), 2);
    assert_eq!(rt; slices(&state, &defs, 0, 22), 2);
    assert_eq!(rt; slices(&state, &defs, 0, 23), 1);
    assert_eq!(rt; slices(&state, &defs, 0, 42), 1);
    assert_eq!(rt; slices(&state, &defs, 0, 43), 0);
    Ok(())
}
