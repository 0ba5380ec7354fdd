use crate::runs::{DEFS, file, sink_of, words_of};
use outside::{Gate, MemFile, MemFiles};
use scotty_run::{Status, scotty};
use std::process::Abort;
use std::sync::Wait;
use std::sync::atomic::{AtomicU64, Ordering};
use std::test::Fail;
use std::thread::Threads;

const LOOKS: u64 = 50_000_000;

const FEW_LOOKS: u64 = 5_000_000;

// How often each of these has passed: source 0 and 1 before an offer, and within a turn of shard 0
// and 1; and how often something went wrong: a hold that was left by the limit of looks, a turn that
// came too early, a number that nobody has.
#[derive(Drop)]
pub struct Passes {
    pub of_first: AtomicU64,
    pub of_second: AtomicU64,
    at_first: AtomicU64,
    at_second: AtomicU64,
    pub left: AtomicU64,
}

impl Passes {
    pub fn new() -> Passes {
        Passes {
            of_first: AtomicU64::new(0),
            of_second: AtomicU64::new(0),
            at_first: AtomicU64::new(0),
            at_second: AtomicU64::new(0),
            left: AtomicU64::new(0),
        }
    }

    // Looks until the counter shows so many.
    pub fn hold(&self, counter: &AtomicU64, wanted: u64) {
        for _ in 0..LOOKS {
            if counter.load(Ordering::SeqCst) >= wanted {
                return;
            }
        }
        self.left.fetch_add(1, Ordering::SeqCst);
    }

    // How many turns have begun.
    fn turns(&self) -> u64 {
        many(&self.at_first).saturating_add(many(&self.at_second))
    }

    // A source passes, and is counted as it leaves. The first time it lingers until a turn begins, so
    // that one whose source passes behind it finds it uncounted.
    fn count_offer(&self, counter: &AtomicU64) {
        if many(counter) == 0 {
            for _ in 0..FEW_LOOKS {
                if self.turns() > 0 {
                    break;
                }
            }
        }
        count(counter);
    }

    // A turn passes. For it, and for each that began before it, a source has passed by then. It is
    // counted last, so that a source that lingers until then isn't counted yet.
    fn count_turn(&self, counter: &AtomicU64) {
        let turns = self.turns().saturating_add(1);
        let offers = many(&self.of_first).saturating_add(many(&self.of_second));
        if offers < turns {
            count(&self.left);
        }
        count(counter);
    }
}

// How often it has passed.
pub fn many(counter: &AtomicU64) -> u64 {
    counter.load(Ordering::SeqCst)
}

// One more has passed; answers how many had before.
pub fn count(counter: &AtomicU64) -> u64 {
    counter.fetch_add(1, Ordering::SeqCst)
}

// Holds the first entry of source 0 until source 1 has come to its second.
#[derive(Drop)]
struct FirstWaits {
    passes: Passes,
}

impl Gate for FirstWaits {
    fn pass(&self, source: u16) {
        let passes = &self.passes;
        if source == 0 && count(&passes.of_first) == 0 {
            passes.hold(&passes.of_second, 2);
        }
        if source == 1 {
            count(&passes.of_second);
        }
    }
}

// Holds the first turns of two shards until each has begun, and the second entry of each source
// until a turn of its shard has begun.
#[derive(Drop)]
struct ShardsMeet {
    passes: Passes,
}

impl Gate for ShardsMeet {
    fn pass(&self, source: u16) {
        let passes = &self.passes;
        match source {
            0 => {
                if count(&passes.of_first) == 1 {
                    passes.hold(&passes.at_first, 1);
                }
            }
            1 => {
                if count(&passes.of_second) == 1 {
                    passes.hold(&passes.at_second, 1);
                }
            }
            16 => {
                if count(&passes.at_first) == 0 {
                    passes.hold(&passes.at_second, 1);
                }
            }
            17 => {
                if count(&passes.at_second) == 0 {
                    passes.hold(&passes.at_first, 1);
                }
            }
            _ => {}
        }
    }
}

// Counts, and notes each turn that has begun before its entry's source has passed.
#[derive(Drop)]
struct Counts {
    passes: Passes,
}

impl Gate for Counts {
    fn pass(&self, source: u16) {
        let passes = &self.passes;
        match source {
            0 => passes.count_offer(&passes.of_first),
            1 => passes.count_offer(&passes.of_second),
            16 => passes.count_turn(&passes.at_first),
            17 => passes.count_turn(&passes.at_second),
            _ => {
                count(&passes.left);
            }
        }
    }
}

// A run of two sources, with these records, into so many shards ends well behind this gate.
fn ends_well<G: Gate, R: Abort + AllocGlobal + Threads + Wait + Sync>(
    rt: &R,
    shards: &str,
    way: &str,
    sources: [&str; 2],
    gate: &G,
) -> Result<(), Fail> {
    let alloc = rt.alloc();
    let files: [MemFile; 3] = [
        file(alloc, "d", DEFS.as_bytes(), Vec::new(alloc))?,
        file(alloc, "s0", sources[0].as_bytes(), Vec::new(alloc))?,
        file(alloc, "s1", sources[1].as_bytes(), Vec::new(alloc))?,
    ];
    let words = words_of(alloc, &["run", "d", shards, way, "s0", "s1"])?;
    let mut sink = sink_of(alloc, 60_000)?;
    let mut files = MemFiles::new(&files, 8);
    let ended = scotty(alloc, rt, &words, &mut files, &mut sink, gate);
    assert_eq!(rt; ended, Status::Done);
    Ok(())
}

// Were the sources read one after the other, the hold would be left by its limit.
fn reads_side_by_side<R: Abort + AllocGlobal + Threads + Wait + Sync>(
    rt: &R,
    way: &str,
) -> Result<(), Fail> {
    let gate = FirstWaits {
        passes: Passes::new(),
    };
    let rows = "t,1,5,a\nw,10\n";
    ends_well(rt, "1", way, [rows, rows], &gate)?;
    assert_eq!(rt; gate.passes.left.load(Ordering::SeqCst), 0);
    Ok(())
}

#[test]
fn sources_are_read_side_by_side(rt: HostRuntime) -> Result<(), Fail> {
    reads_side_by_side(&rt, "turns")
}

#[test]
fn sources_are_read_side_by_side_by_mail(rt: HostRuntime) -> Result<(), Fail> {
    reads_side_by_side(&rt, "mail")
}

// Were there one lock round both shards, or were all entries read before one is applied, a hold
// would be left by its limit.
fn applies_while_reading<R: Abort + AllocGlobal + Threads + Wait + Sync>(
    rt: &R,
    way: &str,
) -> Result<(), Fail> {
    let gate = ShardsMeet {
        passes: Passes::new(),
    };
    ends_well(rt, "2", way, ["t,1,5,b\n", "t,1,5,a\n"], &gate)?;
    assert_eq!(rt; gate.passes.left.load(Ordering::SeqCst), 0);
    Ok(())
}

#[test]
fn entries_are_applied_to_two_shards_while_sources_are_read(rt: HostRuntime) -> Result<(), Fail> {
    applies_while_reading(&rt, "turns")
}

#[test]
fn mail_is_applied_to_two_shards_while_sources_are_read(rt: HostRuntime) -> Result<(), Fail> {
    applies_while_reading(&rt, "mail")
}

// The tuple of each source goes to the second shard, and its water and its end to both.
fn passes_once_an_offer_and_once_a_turn<R: Abort + AllocGlobal + Threads + Wait + Sync>(
    rt: &R,
    way: &str,
) -> Result<(), Fail> {
    let gate = Counts {
        passes: Passes::new(),
    };
    let rows = "t,1,5,a\nw,10\n";
    ends_well(rt, "2", way, [rows, rows], &gate)?;
    assert_eq!(rt; many(&gate.passes.of_first), 5);
    assert_eq!(rt; many(&gate.passes.of_second), 5);
    assert_eq!(rt; many(&gate.passes.at_first), 4);
    assert_eq!(rt; many(&gate.passes.at_second), 6);
    assert_eq!(rt; many(&gate.passes.left), 0);
    Ok(())
}

#[test]
fn the_gate_is_passed_before_each_offer_and_in_each_turn(rt: HostRuntime) -> Result<(), Fail> {
    passes_once_an_offer_and_once_a_turn(&rt, "turns")
}

#[test]
fn the_gate_is_passed_before_each_letter_and_each_entry_of_it(rt: HostRuntime) -> Result<(), Fail> {
    passes_once_an_offer_and_once_a_turn(&rt, "mail")
}
