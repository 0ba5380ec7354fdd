ghost use Rattle.std.specs.Prelude.{◌≡◌, ◌≤◌, ◌++◌, All, IfOk, OnOk, length, map};
ghost use Rattle.live_board.specs.Watched.{AreEntriesOf, MayWatch};

use live_board::{Tally, Watched, watch_entries};
use outside::Gate;
use std::alloc::Global;
use std::process::Abort;
use std::sync::Wait;
use std::sync::atomic::{AtomicU64, Ordering};
use std::test::Fail;
use std::thread::Threads;
use stream_base::{Def, Defs, Entry, Func, KeyText, Kind, What};

const LOOKS: u64 = 50_000_000;

// How often the writer, and each of two readers, passed; and how often a hold was left by the limit
// of looks.
#[derive(Drop)]
struct Passes {
    of_writer: AtomicU64,
    of_first: AtomicU64,
    of_second: AtomicU64,
    left: AtomicU64,
}

impl Passes {
    fn new() -> Passes {
        Passes {
            of_writer: AtomicU64::new(0),
            of_first: AtomicU64::new(0),
            of_second: AtomicU64::new(0),
            left: AtomicU64::new(0),
        }
    }

    // Looks until the counter shows so many.
    fn hold(&self, counter: &AtomicU64, wanted: u64) {
        for _ in 0..LOOKS {
            if many(counter) >= wanted {
                return;
            }
        }
        count(&self.left);
    }
}

fn many(counter: &AtomicU64) -> u64 {
    counter.load(Ordering::SeqCst)
}

// One pass more; answers how many there were.
fn count(counter: &AtomicU64) -> u64 {
    counter.fetch_add(1, Ordering::SeqCst)
}

// Counts who passes.
#[derive(Drop)]
struct Counts {
    passes: Passes,
}

impl Gate for Counts {
    fn pass(&self, number: u16) {
        let passes = &self.passes;
        match number {
            0 => count(&passes.of_writer),
            1 => count(&passes.of_first),
            2 => count(&passes.of_second),
            _ => count(&passes.left),
        };
    }
}

// Holds the writer before its second publication until the reader has come to its first read, the
// reader before its second read until then, and the writer before its third until all three reads
// were begun.
#[derive(Drop)]
struct TakesTurns {
    passes: Passes,
}

impl Gate for TakesTurns {
    fn pass(&self, number: u16) {
        let passes = &self.passes;
        match number {
            0 => match count(&passes.of_writer) {
                1 => passes.hold(&passes.of_first, 1),
                2 => passes.hold(&passes.of_first, 3),
                _ => {}
            },
            1 => {
                if count(&passes.of_first) == 1 {
                    passes.hold(&passes.of_writer, 2);
                }
            }
            _ => {
                count(&passes.left);
            }
        }
    }
}

// The sums of tumbling windows of these lengths.
fn sums_of(alloc: Global, lengths: [u64; 2]) -> Result<Defs, Fail> {
    let [first, second] = lengths;
    let windows = vec![in alloc; sum_over(first), sum_over(second)]?;
    Ok(Defs::new(windows, 0, 0, 0)?)
}

fn sum_over(length: u64) -> Def {
    Def {
        kind: Kind::Tumbling { length },
        func: Func::Sum,
    }
}

// The entries of a source that says this, up to its end.
fn source_of(rt: &impl Abort, alloc: Global, source: u16, says: &[What]) -> Result<Vec<Entry>, Fail>
    ensures { IfOk result (λ entries. AreEntriesOf source entries.items) }
{
    let mut entries = Vec::new(alloc);
    'says: for what in says {
        let entry = Entry {
            source,
            what: *what,
        };
        assert!(rt; entry.is_within_limits());
        match entry.what {
            What::End => return Err(Fail::from("an end before the end")),
            _ => entries.push(entry)?,
        }
    }
    let end = Entry {
        source,
        what: What::End,
    };
    assert!(rt; end.is_within_limits());
    entries.push(end)?;
    Ok(entries)
}

fn tuple(time: u64, value: i64) -> Result<What, Fail> {
    Ok(What::Tuple {
        key: KeyText::from_bytes(b"a")?,
        time,
        value,
    })
}

// Two sources of two entries and three, by two readers.
fn watch_two<G: Gate, R: Abort + AllocGlobal + Threads + Wait + Sync>(
    rt: &R,
    gate: &G,
) -> Result<Watched, Fail> {
    let alloc = rt.alloc();
    let defs = sums_of(alloc, [10, 2])?;
    let first = source_of(rt, alloc, 0, &[tuple(1, 5)?, What::Water { time: 10 }])?;
    let second = source_of(rt, alloc, 1, &[tuple(2, 6)?])?;
    let sources = vec![in alloc; first, second]?;
    Ok(watch_entries(rt, alloc, &defs, &sources, 2, 3, gate)?)
}

// One source of four entries, by one reader.
fn watch_one<G: Gate, R: Abort + AllocGlobal + Threads + Wait + Sync>(
    rt: &R,
    gate: &G,
) -> Result<Watched, Fail> {
    let alloc = rt.alloc();
    let defs = sums_of(alloc, [10, 2])?;
    let says = [tuple(1, 5)?, tuple(4, 7)?, What::Water { time: 10 }];
    let source = source_of(rt, alloc, 0, &says)?;
    let sources = vec![in alloc; source]?;
    Ok(watch_entries(rt, alloc, &defs, &sources, 1, 3, gate)?)
}

// Each reader has so many reads, of which the last is this one.
fn end_with(rt: &impl Abort, lists: &[Vec<Tally>], last: Tally) {
    for list in lists {
        assert_eq!(rt; list.len(), 4);
        assert_eq!(rt; list.last().copied(), Some(last));
    }
}

// A tally of so many entries, with so many rows of the first window and of the second.
fn tally_of(entries: u64, first: u64, second: u64) -> Tally {
    let mut counts = [0; 32];
    counts[0] = first;
    counts[1] = second;
    Tally { entries, counts }
}

#[test]
fn the_last_reads_count_the_rows_of_all_entries(rt: HostRuntime) -> Result<(), Fail> {
    let gate = Counts {
        passes: Passes::new(),
    };
    let watched = watch_two(&rt, &gate)?;
    assert_eq!(rt; watched.shard.journal_len(), 5);
    assert_eq!(rt; watched.reads.len(), 2);
    end_with(&rt, &watched.reads, tally_of(5, 1, 2));
    assert_eq!(rt; many(&gate.passes.of_writer), 5);
    assert_eq!(rt; many(&gate.passes.of_first), 3);
    assert_eq!(rt; many(&gate.passes.of_second), 3);
    assert_eq!(rt; many(&gate.passes.left), 0);
    Ok(())
}

// Were the writer and the reader run one after the other, a hold would be left by its limit. Were
// the reader only given the last board, or the first, its second read would count too many entries,
// or none.
#[test]
fn a_reader_reads_beside_the_writer(rt: HostRuntime) -> Result<(), Fail> {
    let gate = TakesTurns {
        passes: Passes::new(),
    };
    let watched = watch_one(&rt, &gate)?;
    assert_eq!(rt; watched.reads.len(), 1);
    end_with(&rt, &watched.reads, tally_of(4, 1, 2));
    for list in &watched.reads {
        for (i, read) in list.iter().enumerate() {
            assert!(rt; i > 1 || read.entries <= 2);
            assert!(rt; i != 1 || read.entries >= 1);
        }
    }
    assert_eq!(rt; many(&gate.passes.left), 0);
    Ok(())
}
