//! The top call.
ghost use Rattle.std.specs.Prelude.{◌≡◌, ◌↔◌, ◌⊎◌, ◌∷◌, map, string_bytes};
ghost use Rattle.emission_text.specs.Report.{report_text};
ghost use Rattle.report_lines.specs.Forms.{form_of};
ghost use Rattle.emission_text.specs.Sending.{Appends, Fails};
ghost use Rattle.scotty_run.specs.Answer.{IsAnswer, IsCheckAnswer, IsMadeAnswer, IsTold, Says};
ghost use Rattle.run_inputs.specs.Causes.{AreShardsOfFiles, StopsAtFiles};
ghost use Rattle.command_words.specs.Commands.{IsCommand};
ghost use Rattle.command_words.specs.LastWords.{IsLast, IsLastOf, LastRun};
ghost use Rattle.run_inputs.specs.Outside.{Ends, OpensInOrder, opens_of};
ghost use Rattle.tail_text.specs.Texts.{AreAsLong, in_vectors};
ghost use Rattle.run_inputs.specs.Statuses.{status_of};
ghost use Rattle.scotty_run.specs.Tailing.{IsLastAnswer, tailed_text};
ghost use Rattle.scotty_run.specs.Watching.{IsWatchAnswer, watched_text};
ghost use Rattle.command_words.specs.Words.{Check, IsCheck, IsCheckOf, IsMadeOf, IsRun, IsRunOf, IsWatch, IsWatchOf, Made, Run, Watch};

use crate::gathering::gather_sources;
use crate::making::{make_rows, print_summary};
use crate::tailed::Tailed;
use crate::tailing::{tail_files, write_tailed};
use crate::watching::{watch_files, write_watched};
use command_words::{
    CheckWords, LastWords, MadeWords, RunWords, WatchWords, check_of, last_of, made_of, run_of,
    watch_of,
};
use emission_text::{Fault, write_fault, write_finding, write_form};
use live_board::Watched;
use outside::{Files, Gate, Sink};
use report_check::Finding;
use report_lines::ReportForm;
use run_inputs::{Status, find, read_definitions, status_of, status_of_finding};
use shard_core::Shard;
use std::alloc::Global;
use std::sync::Wait;
use std::thread::Threads;
use stream_base::NoMemory;

/// Runs the command that the words say, over any files and any sink. A run is answered with the report
/// of the bytes that its files gave, each to its end, or with the first fault in the order of causes:
/// with what these bytes are refused for, or with the very open or read that failed; in place of that
/// a write may have failed, or memory ran out. A made run is answered with the summary of its final
/// rows, with the same two exceptions. It is so in every schedule of the feeds. A check is answered
/// with the line of what is found of its report, by the bytes that the definitions, the report and the
/// sources gave, or as a run with a fault. A live board is answered with the report of one journal, in
/// which the entries of the sources stand in turn, and the lines of what its readers have read, or as
/// a run of one shard with a fault. A run of tails is answered with the report of journals with their
/// tails, or as a run with a fault. Other words are answered with a fault of their own.
///
/// A run and a live board open their definitions and then their sources, a check its definitions, its
/// report and its sources, a run of tails its sources: the first ones of these names, each once, in
/// this order, and nothing else. All of them behind a report or a finding, or where a source is in
/// trouble; and none behind one that can't be opened. Each opened source is given back.
pub fn scotty<F: Files, K: Sink, G: Gate, R: Threads + Wait + Sync>(
    alloc: Global,
    rt: &R,
    words: &[String],
    files: &mut F,
    sink: &mut K,
    gate: &G,
) -> Status
    ensures answer { (run : Run) → IsRunOf (map string_bytes words.now) run
        → IsAnswer K.taken K.faults run (opens_of F.asked F.came files.old files.new)
        sink.old sink.new result }
    ensures run_opens { (run : Run) → IsRunOf (map string_bytes words.now) run
        → OpensInOrder F.asked F.came F.told (run.defs ∷ run.sources) files.old files.new }
    ensures made { (m : Made) → IsMadeOf (map string_bytes words.now) m
        → IsMadeAnswer K.taken K.faults m sink.old sink.new result }
    ensures check { (c : Check) → IsCheckOf (map string_bytes words.now) c
        → IsCheckAnswer K.taken K.faults c (opens_of F.asked F.came files.old files.new)
        sink.old sink.new result }
    ensures check_opens { (c : Check) → IsCheckOf (map string_bytes words.now) c
        → OpensInOrder F.asked F.came F.told (c.defs ∷ c.report ∷ c.sources) files.old files.new }
    ensures watch { (w : Watch) → IsWatchOf (map string_bytes words.now) w
        → IsWatchAnswer K.taken K.faults w (opens_of F.asked F.came files.old files.new)
        sink.old sink.new result }
    ensures watch_opens { (w : Watch) → IsWatchOf (map string_bytes words.now) w
        → OpensInOrder F.asked F.came F.told (w.defs ∷ w.sources) files.old files.new }
    ensures tails { (l : LastRun) → IsLastOf (map string_bytes words.now) l
        → IsLastAnswer K.taken K.faults l (opens_of F.asked F.came files.old files.new)
        sink.old sink.new result }
    ensures tails_open { (l : LastRun) → IsLastOf (map string_bytes words.now) l
        → OpensInOrder F.asked F.came F.told l.sources files.old files.new }
    ensures usage { (result ≡ Status.Usage) ↔ ¬ (IsCommand (map string_bytes words.now)) }
    ensures usage_said { result ≡ Status.Usage
        → Says K.taken K.faults Fault.Usage sink.old sink.new }
    ensures unopened { ¬ (IsRun (map string_bytes words.now))
        → ¬ (IsCheck (map string_bytes words.now))
        → ¬ (IsWatch (map string_bytes words.now))
        → ¬ (IsLast (map string_bytes words.now)) → files.new ≡ files.old }
{
    if let Some(command) = run_of(words) {
        return run(alloc, rt, &command, files, sink, gate);
    }
    if let Some(command) = made_of(words) {
        return make(alloc, rt, &command, sink, gate);
    }
    if let Some(command) = check_of(words) {
        return check(alloc, rt, &command, files, sink);
    }
    if let Some(command) = watch_of(words) {
        return watch(alloc, rt, &command, files, sink, gate);
    }
    if let Some(command) = last_of(words) {
        return tail(alloc, rt, &command, files, sink, gate);
    }
    print_fault(&Fault::Usage, sink)
}

fn run<F: Files, K: Sink, G: Gate, R: Threads + Wait + Sync>(
    alloc: Global,
    rt: &R,
    command: &RunWords,
    files: &mut F,
    sink: &mut K,
    gate: &G,
) -> Status
    ensures answer { IsAnswer K.taken K.faults command.now
        (opens_of F.asked F.came files.old files.new) sink.old sink.new result }
    ensures files { OpensInOrder F.asked F.came F.told (command.now.defs ∷ command.now.sources)
        files.old files.new }
{
    match fill_shards(alloc, rt, command, files, gate) {
        Ok(shards) => print_report(command.form, &shards, sink),
        Err(fault) => print_fault(&fault, sink),
    }
}

// The report of the shards.
fn print_report<K: Sink>(form: ReportForm, shards: &[Shard], sink: &mut K) -> Status
    ensures either { (result ≡ Status.Done) ⊎ (result ≡ Status.WriteFault) }
    ensures done { result ≡ Status.Done → Appends K.taken K.faults
        (report_text (form_of form) shards.now) sink.old sink.new }
    ensures failed { result ≡ Status.WriteFault → Fails K.taken K.faults
        (report_text (form_of form) shards.now) sink.old sink.new }
{
    match write_form(form, shards, sink) {
        Ok(()) => Status::Done,
        Err(_) => Status::WriteFault,
    }
}

// A made run.
fn make<K: Sink, G: Gate, R: Threads + Wait + Sync>(
    alloc: Global,
    rt: &R,
    command: &MadeWords,
    sink: &mut K,
    gate: &G,
) -> Status
    ensures answer { IsMadeAnswer K.taken K.faults command.now sink.old sink.new result }
{
    match make_rows(alloc, rt, command, gate) {
        Ok(rows) => print_summary(command.rows, &rows, sink),
        Err(NoMemory) => print_fault(&Fault::NoMemory, sink),
    }
}

// A check of a report.
fn check<F: Files, K: Sink, R: Threads>(
    alloc: Global,
    rt: &R,
    command: &CheckWords,
    files: &mut F,
    sink: &mut K,
) -> Status
    ensures answer { IsCheckAnswer K.taken K.faults command.now
        (opens_of F.asked F.came files.old files.new) sink.old sink.new result }
    ensures files { OpensInOrder F.asked F.came F.told
        (command.now.defs ∷ command.now.report ∷ command.now.sources) files.old files.new }
{
    match find(alloc, rt, command, files) {
        Ok(finding) => print_finding(&finding, sink),
        Err(fault) => print_fault(&fault, sink),
    }
}

// The line of a finding.
fn print_finding<K: Sink>(finding: &Finding, sink: &mut K) -> Status
    ensures { IsTold K.taken K.faults finding.now sink.old sink.new result }
{
    if write_finding(finding, sink).is_err() {
        return Status::WriteFault;
    }
    status_of_finding(finding)
}

// A live board.
fn watch<F: Files, K: Sink, G: Gate, R: Threads + Wait + Sync>(
    alloc: Global,
    rt: &R,
    command: &WatchWords,
    files: &mut F,
    sink: &mut K,
    gate: &G,
) -> Status
    ensures answer { IsWatchAnswer K.taken K.faults command.now
        (opens_of F.asked F.came files.old files.new) sink.old sink.new result }
    ensures files { OpensInOrder F.asked F.came F.told (command.now.defs ∷ command.now.sources)
        files.old files.new }
{
    match watch_files(alloc, rt, command, files, gate) {
        Ok(watched) => print_watched(&watched, sink),
        Err(fault) => print_fault(&fault, sink),
    }
}

// The report of what was watched, and the lines of the reads.
fn print_watched<K: Sink>(watched: &Watched, sink: &mut K) -> Status
    ensures either { (result ≡ Status.Done) ⊎ (result ≡ Status.WriteFault) }
    ensures done { result ≡ Status.Done → Appends K.taken K.faults
        (watched_text watched.now) sink.old sink.new }
    ensures failed { result ≡ Status.WriteFault → Fails K.taken K.faults
        (watched_text watched.now) sink.old sink.new }
{
    match write_watched(watched, sink) {
        Ok(()) => Status::Done,
        Err(_) => Status::WriteFault,
    }
}

// A run of tails.
fn tail<F: Files, K: Sink, G: Gate, R: Threads + Wait + Sync>(
    alloc: Global,
    rt: &R,
    command: &LastWords,
    files: &mut F,
    sink: &mut K,
    gate: &G,
) -> Status
    ensures answer { IsLastAnswer K.taken K.faults command.now
        (opens_of F.asked F.came files.old files.new) sink.old sink.new result }
    ensures files { OpensInOrder F.asked F.came F.told command.now.sources files.old files.new }
{
    match tail_files(alloc, rt, command, files, gate) {
        Ok(tailed) => print_tailed(&tailed, sink),
        Err(fault) => print_fault(&fault, sink),
    }
}

// The text of what a run of tails came to.
fn print_tailed<K: Sink>(tailed: &Tailed, sink: &mut K) -> Status
    requires { AreAsLong (map (λ s. s.journal) tailed.now.shards.items)
        (in_vectors tailed.now.tails.items) }
    ensures either { (result ≡ Status.Done) ⊎ (result ≡ Status.WriteFault) }
    ensures done { result ≡ Status.Done → Appends K.taken K.faults
        (tailed_text tailed.now) sink.old sink.new }
    ensures failed { result ≡ Status.WriteFault → Fails K.taken K.faults
        (tailed_text tailed.now) sink.old sink.new }
{
    match write_tailed(tailed, sink) {
        Ok(()) => Status::Done,
        Err(_) => Status::WriteFault,
    }
}

fn print_fault<K: Sink>(fault: &Fault, sink: &mut K) -> Status
    ensures status { result ≡ status_of fault.now }
    ensures said { Says K.taken K.faults fault.now sink.old sink.new }
{
    let _ = write_fault(fault, sink);
    status_of(fault)
}

// The shards with all entries of the sources, under the definitions that the run names.
fn fill_shards<F: Files, G: Gate, R: Threads + Wait + Sync>(
    alloc: Global,
    rt: &R,
    command: &RunWords,
    files: &mut F,
    gate: &G,
) -> Result<Vec<Shard>, Fault>
    ensures { Ends F.asked F.came F.told (command.now.defs ∷ command.now.sources)
        files.old files.new result
        (λ opens shards. AreShardsOfFiles command.now opens shards.items)
        (StopsAtFiles command.now) }
{
    match read_definitions(alloc, files, command.defs) {
        Err(fault) => Err(fault),
        Ok(defs) => {
            let (way, shards) = (command.way, command.shards);
            gather_sources(alloc, rt, way, shards, command.sources, files, defs, gate)
        }
    }
}
