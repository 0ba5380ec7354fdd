//! A live board over files: sources are read whole, and readers watch while their entries are applied.
ghost use Rattle.std.specs.Prelude.{◌∷◌, IfOk, IfErr};
ghost use Rattle.emission_text.specs.Sending.{Writes};
ghost use Rattle.live_board.specs.Watched.{MayWatch};
ghost use Rattle.report_check.specs.Findings.{lists_of};
ghost use Rattle.run_inputs.specs.Causes.{StopsAtSources};
ghost use Rattle.run_inputs.specs.Outside.{Ends};
ghost use Rattle.scotty_run.specs.Watching.{IsFullBoard, IsWatchedIn, IsWatchedOf, IsWatchedOfFiles, StopsAtWatch, watched_text};

use board_text::write_reads;
use command_words::WatchWords;
use emission_text::{Fault, SinkFault, write_form};
use live_board::{WatchFault, Watched, watch_entries};
use outside::{Files, Gate, Sink};
use report_lines::ReportForm;
use run_inputs::{read_definitions, read_sources};
use std::alloc::Global;
use std::slice;
use std::sync::Wait;
use std::thread::Threads;
use stream_base::{Defs, Entry};

/// What is watched of the sources that the words name, under the definitions that they name. The
/// definitions are read first, and then the sources, each to its end, before an entry is applied.
pub fn watch_files<F: Files, G: Gate, R: Threads + Wait + Sync>(
    alloc: Global,
    rt: &R,
    command: &WatchWords,
    files: &mut F,
    gate: &G,
) -> Result<Watched, Fault>
    ensures { Ends F.asked F.came F.told (command.now.defs ∷ command.now.sources)
        files.old files.new result
        (IsWatchedOfFiles command.now) (StopsAtWatch command.now) }
{
    match read_definitions(alloc, files, command.defs) {
        Err(fault) => Err(fault),
        Ok(defs) => watch_sources(alloc, rt, command, files, &defs, gate),
    }
}

// The same, behind definitions that are accepted.
fn watch_sources<F: Files, G: Gate, R: Threads + Wait + Sync>(
    alloc: Global,
    rt: &R,
    command: &WatchWords,
    files: &mut F,
    defs: &Defs,
    gate: &G,
) -> Result<Watched, Fault>
    ensures { Ends F.asked F.came F.told command.now.sources files.old files.new result
        (IsWatchedIn command.now defs.now)
        (StopsAtSources command.now.sources 1 defs.now) }
{
    match read_sources(alloc, command.sources, files, defs) {
        Err(fault) => Err(fault),
        Ok(sources) => {
            watch_read(
                alloc,
                rt,
                defs,
                &sources,
                command.readers,
                command.reads,
                gate,
            )
        }
    }
}

// The same, of sources that are read.
fn watch_read<G: Gate, R: Threads + Wait + Sync>(
    alloc: Global,
    rt: &R,
    defs: &Defs,
    sources: &[Vec<Entry>],
    readers: u16,
    reads: u32,
    gate: &G,
) -> Result<Watched, Fault>
    requires may { MayWatch readers reads (lists_of sources.now) }
    ensures watched { IfOk result (IsWatchedOf readers reads defs.now (lists_of sources.now)) }
    ensures full { IfErr result (IsFullBoard (lists_of sources.now)) }
{
    match watch_entries(rt, alloc, defs, sources, readers, reads, gate) {
        Ok(watched) => Ok(watched),
        Err(WatchFault::Full) => Err(Fault::FullShard { shard: 0 }),
        Err(WatchFault::NoMemory) => Err(Fault::NoMemory),
    }
}

/// The report of the journal is written, and then the lines of the reads.
pub fn write_watched<K: Sink>(watched: &Watched, sink: &mut K) -> Result<(), SinkFault>
    ensures { Writes K.taken K.faults (watched_text watched.now) sink.old sink.new result }
{
    write_form(ReportForm::One, slice::from_ref(&watched.shard), sink)?;
    let windows = watched.shard.defs().windows().len() as u32;
    write_reads(windows, &watched.reads, sink)
}
