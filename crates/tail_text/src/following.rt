//! The changes for each position of a shard's journal.
ghost use Rattle.std.specs.Prelude.{◌≡◌, ◌≤◌, ◌<◌, List, length, All, IfOk, OnOk};
ghost use Rattle.stream_base.specs.declared.entry.Entry.{Entry};
ghost use Rattle.stream_base.specs.declared.limits.TheConstants.{TIME_MAX};
ghost use Rattle.shard_core.specs.Shard.{AreSources};
ghost use Rattle.tail_windows.specs.Following.{StandsFor, number_of_sources, time_in};
ghost use Rattle.tail_windows.specs.Walks.{IsTailDef};
ghost use Rattle.tail_text.specs.Following.{HasFollowed};
ghost use Rattle.tail_text.specs.Texts.{in_lists, tail_changes_in};

use agg_laws::Steps;
use shard_core::Shard;
use std::alloc::Global;
use stream_base::{Entry, NoMemory};
use tail_windows::{TailChange, TailDef, Tails};

/// The changes for each position of a shard's journal, under this lateness and as of so many sources.
/// The shard's own windows have no part in them.
pub fn tails_of<L>(
    alloc: Global,
    def: TailDef,
    sources: u16,
    lateness: u64,
    shard: &Shard,
    steps: &mut Steps<L>,
) -> Result<Vec<Vec<TailChange>>, NoMemory>
    requires def { IsTailDef def }
    requires sources { AreSources sources }
    requires lateness { lateness ≤ TIME_MAX }
    requires known { All (λ e. e.source < sources) shard.now.journal }
    ensures changes { IfOk result (λ tails. in_lists tails.items
        ≡ tail_changes_in def lateness sources shard.now.journal) }
    ensures many { IfOk result (λ tails. length tails.items ≡ length shard.now.journal) }
{
    let mut tails = Tails::new(alloc, def, sources, lateness)?;
    let mut lists = Vec::new(alloc);
    for position in 0..shard.journal_len() {
        let entry = shard.entry_at(position);
        follow(alloc, &entry, &mut tails, &mut lists, steps)?;
    }
    Ok(lists)
}

// Follows one entry more, and lists its changes behind those of the others.
fn follow<L>(
    alloc: Global,
    entry: &Entry,
    tails: &mut Tails,
    lists: &mut Vec<Vec<TailChange>>,
    steps: &mut Steps<L>,
) -> Result<(), NoMemory>
    requires source { (entry.now).source < number_of_sources tails.old }
    requires time { time_in (entry.now).what ≤ TIME_MAX }
    ensures { (journal : List Entry) → StandsFor tails.old journal
        → OnOk result (HasFollowed tails.old journal entry.now tails.new
        (in_lists lists.old.items) (in_lists lists.new.items)) }
{
    let mut changes = Vec::new(alloc);
    tails.apply(entry, &mut changes, steps)?;
    lists.push(changes)?;
    Ok(())
}
