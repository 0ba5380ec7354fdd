//! The feeds of the generated input, through their public calls.
use crate::drained;
use crate::sources::{entry_shown, is_sent};
use final_rows::sort_rows;
use source_feed::{MADE_DISORDER, MADE_EVERY, MADE_LATENESS, MADE_ROWS_MAX, MadeFeed, made_defs};
use std::alloc::{AllocError, Global};
use std::process::Abort;
use std::test::Fail;
use stream_base::{Def, Entry, FINAL, Func, KeyText, Kind, Row, Shown};

// A seed, how many rows in all, how many sources and which of them, and all its entries.
const SOURCES: [(u64, u64, u16, u16, &str); 5] = [
    (0, 1, 1, 0, "t 15 742 k25; e; "),
    (0, 4, 2, 0, "t 15 742 k25; t 33 -481 k70; e; "),
    (0, 4, 2, 1, "t 24 -45 k64; t 52 416 k94; e; "),
    (0, 1, 2, 1, "e; "),
    (
        7,
        4,
        1,
        0,
        "t 14 -253 k23; t 31 -650 k30; t 33 739 k13; t 49 123 k74; e; ",
    ),
];

fn push_entries(alloc: Global, text: &mut String, entries: &[Entry]) -> Result<(), AllocError> {
    for entry in entries {
        text.push_str(entry_shown(alloc, entry)?.as_str())?;
    }
    Ok(())
}

// A generated source has these entries.
fn gives<R: AllocGlobal + Abort>(
    rt: &R,
    seed: u64,
    rows: u64,
    sources: u16,
    index: u16,
    want: &str,
) -> Result<(), Fail> {
    assert!(rt; 1 <= rows && rows <= MADE_ROWS_MAX);
    assert!(rt; 1 <= sources && sources <= 16 && index < sources);
    let alloc = rt.alloc();
    let Ok(entries) = drained::made_entries_of(alloc, seed, rows, sources, index) else {
        panic!(rt; "no entries");
    };
    let mut text = String::new(alloc);
    push_entries(alloc, &mut text, &entries)?;
    assert_eq!(rt; text.as_str(), want);
    Ok(())
}

#[test]
fn gives_each_source_its_part_of_the_generated_input(rt: HostRuntime) -> Result<(), Fail> {
    for (seed, rows, sources, index, want) in &SOURCES {
        gives(&rt, *seed, *rows, *sources, *index, want)?;
    }
    Ok(())
}

const WINDOWS: [Def; 5] = [
    Def {
        kind: Kind::Tumbling { length: 64 },
        func: Func::Sum,
    },
    Def {
        kind: Kind::Sliding {
            length: 128,
            slide: 32,
        },
        func: Func::Trace,
    },
    Def {
        kind: Kind::Session { gap: 40 },
        func: Func::Count,
    },
    Def {
        kind: Kind::Marks,
        func: Func::First,
    },
    Def {
        kind: Kind::Events { count: 10 },
        func: Func::Last,
    },
];

#[test]
fn has_one_window_of_each_kind(rt: HostRuntime) -> Result<(), Fail> {
    let defs = made_defs(rt.alloc())?;
    let numbers = (defs.lateness(), defs.every(), defs.disorder());
    assert_eq!(rt; numbers, (128, 50, 32));
    assert_eq!(rt; numbers, (MADE_LATENESS, MADE_EVERY, MADE_DISORDER));
    assert_eq!(rt; defs.windows(), WINDOWS.as_slice());
    Ok(())
}

#[test]
fn feeds_of_generated_sources_go_to_other_threads() {
    is_sent(&MadeFeed::new(7, 1_000_000, 16, 15));
}

fn row(window: u32, key: KeyText, low: u64, high: u64) -> Row {
    Row {
        window,
        key,
        low,
        high,
        number: 1,
        shown: Shown::Whole(0),
    }
}

#[test]
fn final_rows_go_by_key_window_start_and_end(rt: HostRuntime) -> Result<(), Fail> {
    let first = KeyText::from_bytes(b"k1")?;
    let second = KeyText::from_bytes(b"k10")?;
    let third = KeyText::from_bytes(b"k2")?;
    let mut rows = [
        row(0, third, 0, 64),
        row(3, second, 0, FINAL),
        row(1, first, 32, 160),
        row(3, second, 0, 901),
        row(1, first, 0, 128),
        row(0, second, 640, 704),
        row(4, first, 0, 10),
    ];
    sort_rows(&mut rows);
    let want = [
        row(1, first, 0, 128),
        row(1, first, 32, 160),
        row(4, first, 0, 10),
        row(0, second, 640, 704),
        row(3, second, 0, 901),
        row(3, second, 0, FINAL),
        row(0, third, 0, 64),
    ];
    assert_eq!(rt; rows, want);
    Ok(())
}
