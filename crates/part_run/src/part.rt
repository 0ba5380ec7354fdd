//! The part of a source for one shard.
ghost use Rattle.std.specs.Prelude.{◌≡◌, ◌≤◌, ◌∷◌, [], List, length, IfOk, IfErr};
ghost use Rattle.stream_base.specs.declared.entry.Entry.{Entry};
ghost use Rattle.part_laws.specs.Parts.{part_text};
ghost use Rattle.run_inputs.specs.Causes.{StopsAtSources};
ghost use Rattle.run_inputs.specs.Outside.{Ends, OpensInOrder, opens_of};
ghost use Rattle.run_inputs.specs.Reading.{AreDrained, AreFresh, AreSameFeeds, IsFirstTrouble};
ghost use Rattle.part_text.specs.Holding.{IsHeld};
ghost use Rattle.part_run.specs.Answer.{IsPartAnswer};
ghost use Rattle.part_run.specs.Parting.{HoldsPartOfFiles, HoldsPartUnder, StopsAtPart};

use crate::part_fault::PartFault;
use crate::printing::{print_fault, print_pieces};
use crate::words::PartWords;
use byte_pieces::Pieces;
use emission_text::Fault;
use outside::{Files, Sink, Source};
use part_text::part_of_feed;
use run_inputs::{Status, close_feeds, fault_of, open_sources, read_definitions};
use source_feed::FileFeed;
use std::alloc::Global;
use stream_base::Defs;

/// Writes the part of a source for a shard. It is held until the source was read to its end, so that
/// nothing of it is written where the source is refused or the part would be too long. What was read of
/// the source, and what was written of the part, is no longer held.
pub fn part<F: Files, K: Sink>(
    alloc: Global,
    command: &PartWords,
    files: &mut F,
    sink: &mut K,
) -> Status
    ensures answer { IsPartAnswer K.taken K.faults command.now
        (opens_of F.asked F.came files.old files.new) sink.old sink.new result }
    ensures files { OpensInOrder F.asked F.came F.told (command.now.defs ∷ command.now.sources)
        files.old files.new }
{
    match hold_part(alloc, command, files) {
        Ok(Some(pieces)) => print_pieces(pieces, sink),
        Ok(None) => print_fault(&PartFault::LongPart, sink),
        Err(fault) => print_fault(&PartFault::Run(fault), sink),
    }
}

// What is held of the part: nothing where its bytes are more than those of a source may be.
fn hold_part<F: Files>(
    alloc: Global,
    command: &PartWords,
    files: &mut F,
) -> Result<Option<Pieces>, Fault>
    ensures { Ends F.asked F.came F.told (command.now.defs ∷ command.now.sources)
        files.old files.new result (HoldsPartOfFiles command.now) (StopsAtPart command.now) }
{
    match read_definitions(alloc, files, command.defs) {
        Err(fault) => Err(fault),
        Ok(defs) => part_under(alloc, command, files, &defs),
    }
}

// The same, under definitions that are accepted.
fn part_under<F: Files>(
    alloc: Global,
    command: &PartWords,
    files: &mut F,
    defs: &Defs,
) -> Result<Option<Pieces>, Fault>
    ensures { Ends F.asked F.came F.told command.now.sources files.old files.new result
        (HoldsPartUnder defs.now command.now)
        (StopsAtSources command.now.sources 0 defs.now) }
{
    match open_sources(alloc, files, command.sources, defs) {
        Err(fault) => Err(fault),
        Ok(mut feeds) => {
            let part = part_of_first(alloc, &mut feeds, command.shards, command.shard);
            close_feeds(files, feeds);
            part
        }
    }
}

// What is held of the part of the source of the only feed.
fn part_of_first<S: Source>(
    alloc: Global,
    feeds: &mut Vec<FileFeed<S>>,
    shards: u16,
    shard: u16,
) -> Result<Option<Pieces>, Fault>
    requires some { 1 ≤ shards }
    requires one { length feeds.old.items ≡ 1 }
    requires fresh { AreFresh S.reads S.told feeds.old.items }
    ensures same { AreSameFeeds S.reads S.told feeds.old.items feeds.new.items }
    ensures drained { IfOk result (λ held. (entries : List Entry)
        × AreDrained S.reads S.told feeds.old.items feeds.new.items (entries ∷ [])
        × IsHeld (part_text shards shard entries) held) }
    ensures trouble { IfErr result
        (IsFirstTrouble S.reads S.told feeds.old.items feeds.new.items) }
{
    match part_of_feed(alloc, &mut feeds[0], shards, shard) {
        Ok(held) => Ok(held),
        Err(fault) => Err(fault_of(0, fault)),
    }
}
