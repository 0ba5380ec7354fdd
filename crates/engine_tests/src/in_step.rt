//! Both engines under the same entries, compared at each.

ghost use Rattle.std.specs.Prelude.{◌≡◌, ◌≤◌, ◌<◌, length, true, IfOk, OnOk};
ghost use Rattle.stream_base.specs.Model.Journals.{is_entry_within};

use crate::entries::{Course, Draws, entry};
use agg_laws::Steps;
use plain_keys::PlainKey;
use shard_core::{Applied, ApplyFault, KeyedShard, Shard};
use std::alloc::Global;
use std::process::Abort;
use std::test::Fail;
use std::thread::Threads;
use stream_base::{Change, Defs, Entry, KeyText};

// Keeps the counters of a test apart.
struct Work;

// A shard whose keys fold their lists anew.
type PlainShard = KeyedShard<PlainKey>;

// What both shards said, in numbers.
#[derive(Clone, Copy, Debug)]
pub struct Seen {
    pub changes: u64,
    // Retractions and updates.
    pub revised: u64,
    pub dropped: u64,
    pub refused: u64,
    // The slices of all keys, behind each entry anew.
    pub slices: u64,
}

impl Seen {
    fn nothing() -> Seen {
        Seen {
            changes: 0,
            revised: 0,
            dropped: 0,
            refused: 0,
            slices: 0,
        }
    }

    fn note(&mut self, change: &Change) {
        match change {
            Change::Gone(_) | Change::Again { .. } => {
                self.revised = self.revised.saturating_add(1)
            }
            Change::New(_) => {}
            Change::Dropped => self.dropped = self.dropped.saturating_add(1),
        }
        self.changes = self.changes.saturating_add(1);
    }
}

// A course of three keys.
const SHORT: Course = Course {
    entries: 2_000,
    spread: 1,
};

// A course of 500 keys: the tuples of each lie as far apart, beside their jitter, as in the short
// one.
const LONG: Course = Course {
    entries: 100_000,
    spread: 50,
};

// What two shards say of the entries of a short course.
pub fn compared<R: Abort + Threads>(
    rt: &R,
    alloc: Global,
    defs: Defs,
    seed: u64,
) -> Result<Seen, Fail> {
    compared_over(rt, alloc, defs, SHORT, 3, seed)
}

// What they say of those of a long one.
pub fn compared_long<R: Abort + Threads>(
    rt: &R,
    alloc: Global,
    defs: Defs,
    seed: u64,
) -> Result<Seen, Fail> {
    compared_over(rt, alloc, defs, LONG, 500, seed)
}

// What two shards of two sources, with an empty journal, say of the entries of a course, of so many
// keys.
fn compared_over<R: Abort + Threads>(
    rt: &R,
    alloc: Global,
    defs: Defs,
    course: Course,
    keys: u64,
    seed: u64,
) -> Result<Seen, Fail>
    requires entries { course.entries ≤ 100000 }
    requires spread { course.spread ≤ 100 }
    requires wide { 1 ≤ course.spread }
    requires some { 3 ≤ keys }
    requires few { keys ≤ 676 }
{
    let mut steps: Steps<Work> = Steps::start(rt);
    let keys = keys_of(alloc, keys)?;
    let mut plain: PlainShard = KeyedShard::new(alloc, defs.copy(alloc)?, 2)?;
    let mut sliced = Shard::new(alloc, defs, 2)?;
    apply_all(rt, &mut plain, &mut sliced, course, &keys, seed, &mut steps)
}

// So many keys of two letters.
fn keys_of(alloc: Global, count: u64) -> Result<Vec<KeyText>, Fail>
    requires { count ≤ 676 }
    ensures { IfOk result (λ keys. length keys.items ≡ count) }
{
    let mut keys = Vec::new(alloc);
    for number in 0..count {
        let letters = [b'a' + (number / 26) as u8, b'a' + (number % 26) as u8];
        keys.push(KeyText::from_bytes(&letters)?)?;
    }
    Ok(keys)
}

// All entries of a course are applied to both, in step.
fn apply_all(
    rt: &impl Abort,
    plain: &mut PlainShard,
    sliced: &mut Shard,
    course: Course,
    keys: &[KeyText],
    seed: u64,
    steps: &mut Steps<Work>,
) -> Result<Seen, Fail>
    requires plain { plain.old.sources ≡ 2 }
    requires sliced { sliced.old.sources ≡ 2 }
    requires entries { course.entries ≤ 100000 }
    requires spread { course.spread ≤ 100 }
    requires wide { 1 ≤ course.spread }
    requires keys { 3 ≤ length keys.now }
{
    let mut draws = Draws { seed };
    let mut seen = Seen::nothing();
    'entries: for number in 0..course.entries {
        let entry = entry(number, course, &mut draws, keys);
        step(rt, plain, sliced, &entry, steps, &mut seen)?;
        compare_slices(rt, plain, sliced, keys, number, &mut seen);
    }
    assert_eq!(rt; plain.journal_len(), sliced.journal_len());
    assert_eq!(rt;
        plain.journal_len().saturating_add(seen.refused),
        course.entries
    );
    Ok(seen)
}

// One entry is applied to both, and both answer the same, with the same changes.
fn step(
    rt: &impl Abort,
    plain: &mut PlainShard,
    sliced: &mut Shard,
    entry: &Entry,
    steps: &mut Steps<Work>,
    seen: &mut Seen,
) -> Result<(), Fail>
    requires source { entry.now.source < 2 }
    requires within { is_entry_within entry.now ≡ true }
    requires plain { plain.old.sources ≡ 2 }
    requires sliced { sliced.old.sources ≡ 2 }
    ensures plain { OnOk result (plain.new.sources ≡ 2) }
    ensures sliced { OnOk result (sliced.new.sources ≡ 2) }
{
    let position = plain.journal_len();
    let by_lists = plain.apply(entry, steps);
    let by_slices = sliced.apply(entry, steps);
    assert_eq!(rt;
        by_lists,
        by_slices,
        "for the entry behind {position} others"
    );
    match by_lists {
        Ok(applied) => compare_changes(rt, plain, sliced, applied, seen),
        Err(ApplyFault::Ended) => seen.refused = seen.refused.saturating_add(1),
        Err(fault) => return Err(fault.into()),
    }
    Ok(())
}

// Both have the same changes under the entry that was applied last.
fn compare_changes(
    rt: &impl Abort,
    plain: &PlainShard,
    sliced: &Shard,
    applied: Applied,
    seen: &mut Seen,
) {
    let position = applied.position;
    assert!(rt; position < plain.journal_len());
    assert!(rt; position < sliced.journal_len());
    let by_lists = plain.changes_at(position);
    let by_slices = sliced.changes_at(position);
    assert_eq!(rt; by_lists.len() as u64, applied.changes, "under {position}");
    assert_eq!(rt; by_lists.len(), by_slices.len(), "under {position}");
    for at in 0..by_lists.len() {
        let change = by_lists.get(at);
        assert_eq!(rt; change, by_slices.get(at), "under {position}");
        seen.note(&change);
    }
}

// Three keys have as many slices in both, each of them where there are no more.
fn compare_slices(
    rt: &impl Abort,
    plain: &PlainShard,
    sliced: &Shard,
    keys: &[KeyText],
    number: u64,
    seen: &mut Seen,
)
    requires number { number < 100000 }
    requires keys { 3 ≤ length keys.now }
{
    for step in 0..3 {
        let key = &keys[(number + step) as usize % keys.len()];
        let slices = plain.slice_count(key);
        assert_eq!(rt; slices, sliced.slice_count(key), "after entry {number}");
        seen.slices = seen.slices.saturating_add(slices);
    }
}
