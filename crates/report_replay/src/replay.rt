//! Journals taken by a shard.
ghost use Rattle.std.specs.Prelude.{◌≡◌, IfOk, IfNone, IfSome, false, true};
ghost use Rattle.stream_base.specs.Model.Journals.{AreEntriesWithin, is_entry_within};
ghost use Rattle.shard_core.specs.Shard.{AreSources, IsJournal, IsNext, sharded_with};

use agg_laws::Steps;
use shard_core::{ApplyFault, Shard};
use std::alloc::Global;
use stream_base::{Defs, Entry, NoMemory};

/// The shard of so many sources that has taken a journal; none where it is no journal that a shard may
/// have.
pub fn replayed<L>(
    alloc: Global,
    defs: &Defs,
    sources: u16,
    journal: &[Entry],
    steps: &mut Steps<L>,
) -> Result<Option<Shard>, NoMemory>
    requires { AreEntriesWithin journal.now }
    ensures taken { IfOk result (λ found. IfSome found (λ shard. shard
        ≡ record { defs = defs.now; sources = sources; journal = journal.now })) }
    ensures refused { IfOk result (λ found. IfNone found
        (¬ (AreSources sources × IsJournal sources journal.now))) }
{
    if sources == 0 || sources > 16 {
        return Ok(None);
    }
    let mut shard = Shard::new(alloc, defs.copy(alloc)?, sources)?;
    for entry in journal {
        if !takes(&mut shard, sources, entry, steps)? {
            return Ok(None);
        }
    }
    Ok(Some(shard))
}

// Applies an entry to a shard of so many sources. Answers whether the shard took it.
fn takes<L>(
    shard: &mut Shard,
    sources: u16,
    entry: &Entry,
    steps: &mut Steps<L>,
) -> Result<bool, NoMemory>
    requires sources { shard.old.sources ≡ sources }
    requires within { is_entry_within entry.now ≡ true }
    ensures taken { IfOk result (λ yes. yes ≡ true → shard.new ≡ sharded_with shard.old entry.now) }
    ensures refused { IfOk result (λ yes. yes ≡ false
        → ¬ IsNext sources shard.old.journal entry.now) }
{
    if entry.source >= sources {
        return Ok(false);
    }
    match shard.apply(entry, steps) {
        Ok(_) => Ok(true),
        Err(ApplyFault::Ended | ApplyFault::Full) => Ok(false),
        Err(ApplyFault::NoMemory) => Err(NoMemory),
    }
}
