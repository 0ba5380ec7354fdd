ghost use Rattle.std.specs.Prelude.{◌≡◌, ◌≤◌, ◌++◌, ◌∷◌, List, [], OnOk, All, true};
ghost use Rattle.stream_base.specs.declared.entry.Entry.{Entry};
ghost use Rattle.stream_base.specs.declared.limits.TheConstants.{TIME_MAX};
ghost use Rattle.std.specs.BTreeSet.{insert_key};
ghost use Rattle.std.specs.List.{flat_map};
ghost use Rattle.stream_base.specs.Limits.{Definitions};
ghost use Rattle.stream_base.specs.Model.Changes.{changes_after};
ghost use Rattle.stream_base.specs.Model.Watermark.{water_of};
ghost use Rattle.stream_base.specs.Model.What.{is_late, is_what_within};
ghost use Rattle.report_check.specs.Readable.{IsReadable};
ghost use Rattle.report_check.specs.Ledgers.{IsLedger, IsReadyFor, StandsBefore, StandsBehind, by_key, changes_in, keys_in, nothing_of};

use crate::key_lists::KeyLists;
use crate::step::Step;
use crate::waters::{least_water, water_behind};
use agg_laws::Steps;
use std::alloc::Global;
use std::cmp::Ordering;
use stream_base::{Change, Defs, Entry, KeyText, NoMemory, What};

/// What is known after a journal of so many sources: its watermark, and of each key the plain lists
/// of its tuples and marks, by the bytes of the keys.
#[derive(Drop)]
pub struct Ledger {
    pub alloc: Global,
    pub sources: u16,
    pub water: u64,
    pub keys: Vec<KeyLists>,
}

impl Ledger {
    /// No entry yet.
    pub fn new(alloc: Global, sources: u16) -> Ledger
        ensures { (d : Definitions) → IsLedger d sources [] result }
    {
        Ledger {
            alloc,
            sources,
            water: least_water(sources, &[]),
            keys: Vec::new(alloc),
        }
    }

    /// Goes on by the entry behind the journal, and appends the changes that it causes. `upto` is the
    /// journal with it.
    pub fn take_in<L>(
        &mut self,
        defs: &Defs,
        past: &[Entry],
        entry: &Entry,
        upto: &[Entry],
        out: &mut Vec<Change>,
        steps: &mut Steps<L>,
    ) -> Result<(), NoMemory>
        requires past { IsLedger defs.now self.old.sources past.now self.old }
        requires upto { upto.now ≡ past.now ++ entry.now ∷ [] }
        requires readable { IsReadable upto.now }
        ensures ledger { OnOk result (IsLedger defs.now self.old.sources upto.now self.new) }
        ensures changes { OnOk result (out.new.items
            ≡ out.old.items ++ changes_after defs.now self.old.sources past.now entry.now) }
    {
        self.add(defs, past, entry)?;
        if is_late(defs.lateness(), self.water, &entry.what) {
            out.push(Change::Dropped)?;
            return Ok(());
        }
        let new = water_by(self.water, self.sources, &entry.what, upto);
        let step = Step {
            defs,
            sources: self.sources,
            past,
            entry,
            old: self.water,
            new,
        };
        follow(self.alloc, &mut self.keys, &step, out, steps)?;
        self.water = new;
        Ok(())
    }

    // Takes in the key of an entry, where it has one that is new.
    fn add(&mut self, defs: &Defs, past: &[Entry], entry: &Entry) -> Result<(), NoMemory>
        requires { IsLedger defs.now self.old.sources past.now self.old }
        ensures sources { OnOk result (self.new.sources ≡ self.old.sources) }
        ensures ready { OnOk result
            (IsReadyFor defs.now self.old.sources past.now entry.now self.new) }
    {
        let _lateness = defs.lateness();
        let _count = past.len();
        match entry.what {
            What::Tuple { key, .. } => add_key(self.alloc, key, &mut self.keys)?,
            What::Mark { key, .. } => add_key(self.alloc, key, &mut self.keys)?,
            What::Water { .. } | What::Idle | What::End => {}
        }
        Ok(())
    }
}

// Takes in a key where it isn't there yet.
fn add_key(alloc: Global, key: KeyText, keys: &mut Vec<KeyLists>) -> Result<(), NoMemory>
    ensures { OnOk result (keys.new.items ≡ insert_key by_key keys.old.items (nothing_of key)) }
{
    for place in 0..keys.len() {
        match key.cmp(keys[place].key()) {
            Ordering::Less => {
                keys.insert(place, KeyLists::new(alloc, key))?;
                return Ok(());
            }
            Ordering::Equal => return Ok(()),
            Ordering::Greater => {}
        }
    }
    keys.push(KeyLists::new(alloc, key))?;
    Ok(())
}

// Goes on by an entry that isn't late, key by key.
fn follow<L>(
    alloc: Global,
    keys: &mut Vec<KeyLists>,
    step: &Step,
    out: &mut Vec<Change>,
    steps: &mut Steps<L>,
) -> Result<(), NoMemory>
    requires { All (StandsBefore step.now) keys.old.items }
    ensures keys { OnOk result (keys_in keys.new.items ≡ keys_in keys.old.items) }
    ensures behind { OnOk result (All (StandsBehind step.now) keys.new.items) }
    ensures changes { OnOk result (out.new.items
        ≡ out.old.items ++ flat_map (changes_in step.now) (keys_in keys.old.items)) }
{
    for place in 0..keys.len() {
        keys[place].follow(alloc, step, out, steps)?;
    }
    Ok(())
}

// Whether a tuple or mark is late.
fn is_late(lateness: u64, water: u64, what: &What) -> bool
    requires lateness { lateness ≤ TIME_MAX }
    requires within { is_what_within what.now ≡ true }
    ensures { result ≡ is_late lateness water what.now }
{
    match what {
        What::Tuple { time, .. } | What::Mark { time, .. } => *time + lateness < water,
        What::Water { .. } | What::Idle | What::End => false,
    }
}

// The watermark behind an entry: a tuple or mark leaves it.
fn water_by(water: u64, sources: u16, what: &What, upto: &[Entry]) -> u64
    ensures { (before : List Entry) (e : Entry) → upto.now ≡ before ++ e ∷ [] → e.what ≡ what.now
        → water ≡ water_of sources before → result ≡ water_of sources upto.now }
{
    match what {
        What::Tuple { .. } | What::Mark { .. } => water,
        What::Water { .. } | What::Idle | What::End => water_behind(water, sources, upto),
    }
}
