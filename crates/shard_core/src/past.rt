ghost use Rattle.std.specs.Prelude.{◌≡◌, ◌≤◌, ◌<◌, ◌++◌, ◌∷◌, [], true, IfOk, OnOk, Some, length, slice_get};
ghost use Rattle.stream_base.specs.Limits.{AreWithinLimits};
ghost use Rattle.stream_base.specs.declared.entry.Entry.{Entry};
ghost use Rattle.stream_base.specs.Model.Journals.{is_entry_within};
ghost use Rattle.stream_base.specs.Model.Moments.{IsWater};
ghost use Rattle.stream_base.specs.Model.Watermark.{has_ended, water_of};
ghost use Rattle.stream_base.specs.Model.What.{is_late};
ghost use Rattle.watermark_table.specs.Watched.{CanTake, IsSameTable};
ghost use Rattle.shard_core.specs.Recorded.{FollowsEntry, IsSameShard, water_behind};
ghost use Rattle.shard_core.specs.Shard.{AreSources, IsJournal, IsKnown, IsNext};

use compact_log::Entries;
use std::alloc::Global;
use std::marker::Model;
use stream_base::{Defs, Entry, FINAL, NoMemory, What};
use watermark_table::{Verdict, Waters};

// The entries so far and the watermarks of their sources, under the definitions.
#[derive(Drop)]
pub struct Past {
    defs: Defs,
    sources: u16,
    waters: Waters,
    journal: Entries,
}

impl Model for Past {
    ghost use Rattle.shard_core.specs.Recorded.{Recorded};

    ghost Value = { Recorded };

    ghost use Rattle.shard_core.specs.Past.{recorded, IsPast};

    ghost view = { recorded };

    ghost invariant = { IsPast };
}

impl Past {
    // No entry yet.
    pub fn new(alloc: Global, defs: Defs, sources: u16) -> Result<Past, NoMemory>
        requires { AreSources sources }
        ensures defs { IfOk result (λ past. past.defs ≡ defs) }
        ensures sources { IfOk result (λ past. past.sources ≡ sources) }
        ensures journal { IfOk result (λ past. past.journal ≡ []) }
        ensures limits { IfOk result (λ past. AreWithinLimits past.defs) }
    {
        let waters = Waters::new(alloc, sources, defs.lateness())?;
        Ok(Past {
            defs,
            sources,
            waters,
            journal: Entries::new(alloc),
        })
    }

    pub fn defs(&self) -> &Defs
        ensures value { result.now ≡ self.now.defs }
        ensures limits { AreWithinLimits self.now.defs }
    {
        &self.defs
    }

    // How many entries there are.
    pub fn len(&self) -> u64
        ensures value { result ≡ length self.now.journal }
        ensures journal { IsJournal self.now.sources self.now.journal }
    {
        self.journal.len() as u64
    }

    pub fn entry(&self, position: u64) -> Entry
        requires { position < length self.now.journal }
        ensures { slice_get self.now.journal position ≡ Some result }
    {
        self.journal.get(position as usize)
    }

    pub fn has_ended(&self, source: u16) -> bool
        requires { source < self.now.sources }
        ensures { result ≡ has_ended source self.now.journal }
    {
        self.waters.has_ended(source)
    }

    // The watermark.
    pub fn water(&self) -> u64
        ensures value { result ≡ water_of self.now.sources self.now.journal }
        ensures is_water { IsWater result }
        ensures limits { AreWithinLimits self.now.defs }
    {
        self.waters.water()
    }

    // Whether an entry that comes now is late.
    pub fn is_late(&self, entry: &Entry) -> bool
        requires { is_entry_within entry.now ≡ true }
        ensures { result ≡ is_late (self.now.defs).lateness (water_behind self.now)
            entry.now.what }
    {
        match entry.what {
            What::Tuple { time, .. } | What::Mark { time, .. } => {
                self.waters.verdict(time) == Verdict::Late
            }
            What::Water { .. } | What::Idle | What::End => false,
        }
    }

    // The watermark behind an entry that comes now.
    pub fn water_after(&self, entry: &Entry) -> u64
        requires { IsKnown self.now.sources entry.now }
        ensures value { result
            ≡ water_of self.now.sources (self.now.journal ++ entry.now ∷ []) }
        ensures is_water { IsWater result }
    {
        match entry.what {
            What::Tuple { .. } | What::Mark { .. } => self.waters.water(),
            What::Water { time } => self.waters.after(entry.source, time),
            What::Idle => self.waters.after_idle(entry.source),
            What::End => self.waters.after(entry.source, FINAL),
        }
    }

    // Makes room for an entry.
    pub fn reserve(&mut self) -> Result<(), NoMemory>
        ensures same { IsSameShard self.old self.new }
        ensures journal { self.new.journal ≡ self.old.journal }
        ensures room { OnOk result (1 ≤ self.new.spare) }
    {
        self.journal.reserve(1)?;
        Ok(())
    }

    // Takes in an entry, for which there is room. The place is that of its key, if it has one.
    pub fn push(&mut self, entry: &Entry, place: usize)
        requires next { IsNext self.old.sources self.old.journal entry.now }
        requires room { 1 ≤ self.old.spare }
        ensures same { IsSameShard self.old self.new }
        ensures journal { self.new.journal ≡ self.old.journal ++ entry.now ∷ [] }
    {
        note(&mut self.waters, entry.source, &entry.what);
        self.journal.push(entry, place);
    }
}

// Takes in what a source says of its progress.
fn note(waters: &mut Waters, source: u16, what: &What)
    requires { CanTake waters.old record { source = source; what = what.now } }
    ensures same { IsSameTable waters.old waters.new }
    ensures stands { FollowsEntry record { source = source; what = what.now }
        waters.old waters.new }
{
    match *what {
        What::Tuple { .. } | What::Mark { .. } => {}
        What::Water { time } => {
            let _water = waters.raise(source, time);
        }
        What::Idle => {
            let _water = waters.idle(source);
        }
        What::End => {
            let _water = waters.end(source);
        }
    }
}
