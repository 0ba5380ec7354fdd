//! Help for the answer of a command.

use crate::report_words::{Judged, put_wrong_journal, put_wrong_line, put_wrong_shards};
use crate::said::{Said, said_in};
use emission_text::Fault;
use fault_words::{
    Again, Help, put_defs, put_full_report, put_full_shard, put_full_source, put_full_watch,
    put_memory, put_row, put_unopened, put_unread, put_usage,
};
use report_check::Finding;
use std::alloc::Global;
use std::thread::Threads;

/// What helps where a write of the output failed.
pub const WRITE_FAILED: &str = "\
scotty: the output couldn't be written: is the disk full, or was it closed? What was written is a part of it
";

// The places of words in a command that reads files.
const COMMAND: usize = 0;

const DEFS: usize = 1;

const SHARDS: usize = 2;

const SHARDS_OF_LAST: usize = 5;

const REPORT: usize = 3;

const SOURCES: usize = 4;

const SOURCES_OF_LAST: usize = 6;

/// How many words of a command that reads files name sources, wherever they begin.
pub fn source_count(words: &[String]) -> usize {
    words.len().saturating_sub(sources_at(words))
}

/// Sentences that help with the line that a command answered: with a fault, or with a finding that the report isn't
/// lawful. Of any other line nothing is said. Files are looked at once more.
pub fn explain<A: Again, R: Threads>(
    alloc: Global,
    rt: &R,
    words: &[String],
    line: &[u8],
    again: &mut A,
) -> Help {
    let mut help = Help::new(alloc);
    match said_in(line) {
        Some(Said::Fault(fault)) => put_fault(alloc, words, fault, again, &mut help),
        Some(Said::Finding(finding)) => put_finding(alloc, rt, words, finding, again, &mut help),
        None => {}
    }
    help
}

fn put_fault<A: Again>(
    alloc: Global,
    words: &[String],
    fault: Fault,
    again: &mut A,
    help: &mut Help,
) {
    match fault {
        Fault::Usage => put_usage(words, help),
        Fault::Defs(fault) => put_defs(alloc, word_at(words, DEFS), fault, again, help),
        Fault::Unopened { place } => put_unopened(
            what_at(place),
            name_at(words, place),
            again,
            help,
        ),
        Fault::Read { place } => put_unread(what_at(place), name_at(words, place), again, help),
        Fault::Row {
            source,
            number,
            why,
        } => {
            put_row(alloc, source_name(words, source), number, why, again, help);
        }
        Fault::FullSource { source } => put_full_source(source_name(words, source), help),
        Fault::FullShard { shard } => put_full(words, shard, help),
        Fault::ReportOpen => put_unopened("report", word_at(words, REPORT), again, help),
        Fault::ReportRead => put_unread("report", word_at(words, REPORT), again, help),
        Fault::ReportFull => put_full_report(word_at(words, REPORT), help),
        Fault::NoMemory => put_memory(help),
    }
}

// A full shard, by the command: one has no word for the number of shards.
fn put_full(words: &[String], shard: u16, help: &mut Help) {
    match word_at(words, COMMAND) {
        "watch" => put_full_watch(help),
        "last" => put_full_shard(shard, word_at(words, SHARDS_OF_LAST), help),
        _ => put_full_shard(shard, word_at(words, SHARDS), help),
    }
}

fn put_finding<A: Again, R: Threads>(
    alloc: Global,
    rt: &R,
    words: &[String],
    finding: Finding,
    again: &mut A,
    help: &mut Help,
) {
    let report = word_at(words, REPORT);
    let sources = source_count(words);
    match finding {
        Finding::Lawful => {}
        Finding::Text { line } => {
            let judged = Judged {
                defs: word_at(words, DEFS),
                report,
                sources,
            };
            put_wrong_line(alloc, rt, &judged, line, again, help);
        }
        Finding::Shards { found } => put_wrong_shards(report, found, word_at(words, SHARDS), help),
        Finding::Journal { shard, source } => {
            let is_given = (source as usize) < sources;
            let name = is_given.then_some(source_name(words, source));
            put_wrong_journal(report, shard, name, help);
        }
    }
}

// What the file at a place is to the program: the definitions, or a source.
fn what_at(place: Option<u16>) -> &'static str {
    match place {
        None => "definitions",
        Some(_) => "source",
    }
}

fn name_at(words: &[String], place: Option<u16>) -> &str {
    match place {
        None => word_at(words, DEFS),
        Some(source) => source_name(words, source),
    }
}

fn source_name(words: &[String], source: u16) -> &str {
    word_at(words, sources_at(words).saturating_add(source as usize))
}

// Where the names of sources begin.
fn sources_at(words: &[String]) -> usize {
    match word_at(words, COMMAND) {
        "last" => SOURCES_OF_LAST,
        _ => SOURCES,
    }
}

fn word_at(words: &[String], place: usize) -> &str {
    match words.get(place) {
        Some(word) => word.as_str(),
        None => "",
    }
}
