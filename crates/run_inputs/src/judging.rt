//! The report that a check judges, and what is found of it.
ghost use Rattle.std.specs.Prelude.{◌≡◌, ◌∷◌, Ok, Err, IfOk, IfErr};
ghost use Rattle.source_feed.specs.declared.whole_fault.WholeFault.{WholeFault};
ghost use Rattle.run_inputs.specs.Causes.{StopsAtSources};
ghost use Rattle.run_inputs.specs.Judging.{IsFindingOfFiles, IsFoundBehind, IsFoundIn, IsReportRead, StopsAtCheck, StopsAtReport, StopsBehindDefs, report_fault};
ghost use Rattle.run_inputs.specs.Outside.{Ends, ReadsFile};

use crate::definitions::read_definitions;
use crate::reading::read_sources;
use agg_laws::Steps;
use command_words::CheckWords;
use emission_text::Fault;
use outside::Files;
use report_check::Finding;
use report_replay::check_report;
use source_feed::{SOURCE_MAX, WholeFault, read_whole};
use std::alloc::Global;
use std::thread::Threads;
use stream_base::{Defs, NoMemory};

/// What is found of the report that a check names, by the definitions and sources that it names. They
/// are read in this order: the definitions, the report, the sources.
pub fn find<F: Files, R: Threads>(
    alloc: Global,
    rt: &R,
    command: &CheckWords,
    files: &mut F,
) -> Result<Finding, Fault>
    ensures { Ends F.asked F.came F.told
        (command.now.defs ∷ command.now.report ∷ command.now.sources) files.old files.new result
        (IsFindingOfFiles command.now) (StopsAtCheck command.now) }
{
    match read_definitions(alloc, files, command.defs) {
        Err(fault) => Err(fault),
        Ok(defs) => find_behind(alloc, rt, command, files, &defs),
    }
}

// The same, behind definitions that are accepted.
fn find_behind<F: Files, R: Threads>(
    alloc: Global,
    rt: &R,
    command: &CheckWords,
    files: &mut F,
    defs: &Defs,
) -> Result<Finding, Fault>
    ensures { Ends F.asked F.came F.told (command.now.report ∷ command.now.sources)
        files.old files.new result
        (IsFoundBehind command.now defs.now) (StopsBehindDefs command.now defs.now) }
{
    match read_report(alloc, files, command.report) {
        Err(fault) => Err(fault),
        Ok(text) => find_in(alloc, rt, command, files, defs, &text),
    }
}

// The same, of a text that is read.
fn find_in<F: Files, R: Threads>(
    alloc: Global,
    rt: &R,
    command: &CheckWords,
    files: &mut F,
    defs: &Defs,
    text: &[u8],
) -> Result<Finding, Fault>
    ensures { Ends F.asked F.came F.told command.now.sources files.old files.new result
        (IsFoundIn command.now defs.now text.now)
        (StopsAtSources command.now.sources 0 defs.now) }
{
    match read_sources(alloc, command.sources, files, defs) {
        Err(fault) => Err(fault),
        Ok(sources) => {
            let mut steps: Steps<()> = Steps::start(rt);
            match check_report(alloc, defs, command.shards, &sources, text, &mut steps) {
                Ok(finding) => Ok(finding),
                Err(NoMemory) => Err(Fault::NoMemory),
            }
        }
    }
}

// The bytes of the report in the file of this name. The file is given back.
fn read_report<F: Files>(alloc: Global, files: &mut F, name: &str) -> Result<Vec<u8>, Fault>
    ensures { ReadsFile F.asked F.came F.told name.now files.old files.new result
        (λ opens text. IsReportRead opens text.items) (StopsAtReport name.now) }
{
    match files.open_file(name) {
        Err(_) => Err(Fault::ReportOpen),
        Ok(mut source) => {
            let bytes = read_whole(alloc, &mut source, SOURCE_MAX);
            files.give_back(source);
            text_of(bytes)
        }
    }
}

fn text_of(bytes: Result<Vec<u8>, WholeFault>) -> Result<Vec<u8>, Fault>
    ensures ok { IfOk result (λ text. bytes ≡ Ok text) }
    ensures stopped { IfErr result (λ fault. (cause : WholeFault) × (bytes ≡ Err cause)
        × (fault ≡ report_fault cause)) }
{
    match bytes {
        Ok(text) => Ok(text),
        Err(WholeFault::Read) => Err(Fault::ReportRead),
        Err(WholeFault::TooLong) => Err(Fault::ReportFull),
        Err(WholeFault::NoMemory) => Err(Fault::NoMemory),
    }
}
