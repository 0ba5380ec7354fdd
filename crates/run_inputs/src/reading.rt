//! Sources are read whole, one after another.
ghost use Rattle.std.specs.Prelude.{◌≡◌, ◌≤◌, length, IfOk, IfErr, IsErrOf, OnOk};
ghost use Rattle.outside.specs.Outside.{Rose};
ghost use Rattle.report_check.specs.Findings.{lists_of};
ghost use Rattle.live_board.specs.Watched.{AreEntriesOf};
ghost use Rattle.run_inputs.specs.Causes.{AreAllRead, StopsAtSources};
ghost use Rattle.run_inputs.specs.Outside.{EndsOver};
ghost use Rattle.run_inputs.specs.Reading.{AreDrained, AreEntries, AreEntriesFrom, AreFresh, AreSameFeeds, IsDrained, IsFirstTrouble, IsFresh, IsSameFeed, IsStuck, fault_of};

use crate::opening::{close_feeds, open_sources};
use emission_text::Fault;
use outside::{Files, Source};
use source_feed::{Feed, FeedFault, FileFeed};
use std::alloc::Global;
use stream_base::{Defs, Entry};

/// The entries of the sources of these names, in their order, under these definitions. All sources are
/// opened before one is read, and each that was opened is given back.
pub fn read_sources<F: Files>(
    alloc: Global,
    names: &[String],
    files: &mut F,
    defs: &Defs,
) -> Result<Vec<Vec<Entry>>, Fault>
    requires few { length names.now ≤ 16 }
    ensures read { EndsOver F.asked F.came F.told names.now files.old files.new result
        (λ named opens all. AreAllRead named defs.now opens (lists_of all.items))
        (λ named. StopsAtSources named 0 defs.now) }
    ensures entries { IfOk result (λ all. AreEntries (lists_of all.items)) }
{
    match open_sources(alloc, files, names, defs) {
        Err(fault) => Err(fault),
        Ok(mut feeds) => {
            let read = drain_all(alloc, &mut feeds);
            close_feeds(files, feeds);
            read
        }
    }
}

// The entries of all feeds, or the fault of the first that has one.
fn drain_all<S: Source>(
    alloc: Global,
    feeds: &mut Vec<FileFeed<S>>,
) -> Result<Vec<Vec<Entry>>, Fault>
    requires few { length feeds.old.items ≤ 16 }
    requires fresh { AreFresh S.reads S.told feeds.old.items }
    ensures same { AreSameFeeds S.reads S.told feeds.old.items feeds.new.items }
    ensures whole { IfOk result (λ all. length all.items ≡ length feeds.old.items) }
    ensures drained { IfOk result (λ all. AreDrained S.reads S.told
        feeds.old.items feeds.new.items (lists_of all.items)) }
    ensures entries { IfOk result (λ all. AreEntriesFrom feeds.old.items (lists_of all.items)) }
    ensures trouble { IfErr result
        (IsFirstTrouble S.reads S.told feeds.old.items feeds.new.items) }
{
    let mut all = Vec::new(alloc);
    for i in 0..feeds.len() {
        match drain(alloc, &mut feeds[i]) {
            Ok(entries) => {
                if all.push(entries).is_err() {
                    return Err(fault_of(i as u16, FeedFault::NoMemory));
                }
            }
            Err(fault) => return Err(fault_of(i as u16, fault)),
        }
    }
    Ok(all)
}

// All entries of a feed, up to its end.
fn drain<F: Feed>(alloc: Global, feed: &mut F) -> Result<Vec<Entry>, FeedFault>
    requires { IsFresh (F.state feed.old) }
    ensures same { IsSameFeed (F.state feed.old) (F.state feed.new) }
    ensures all { IfOk result (λ all. IsDrained (F.state feed.new) all.items) }
    ensures entries { IfOk result (λ all. AreEntriesOf (F.state feed.old).source all.items) }
    ensures quiet { OnOk result (F.faults feed.new ≡ F.faults feed.old) }
    ensures stuck { IfErr result (IsStuck (F.state feed.new)) }
    ensures read { IsErrOf result FeedFault.Read → Rose (F.faults feed.old) (F.faults feed.new) }
{
    let mut all = Vec::new(alloc);
    while let Some(entry) = feed.next()? {
        if all.push(entry).is_err() {
            return Err(FeedFault::NoMemory);
        }
    }
    Ok(all)
}

/// The fault of a run for that of the feed of this source.
pub fn fault_of(source: u16, fault: FeedFault) -> Fault
    ensures { result ≡ fault_of source fault }
{
    match fault {
        FeedFault::Read => Fault::Read {
            place: Some(source),
        },
        FeedFault::TooLong => Fault::FullSource { source },
        FeedFault::Row { number, why } => Fault::Row {
            source,
            number,
            why,
        },
        FeedFault::NoMemory => Fault::NoMemory,
    }
}
