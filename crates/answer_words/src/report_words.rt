//! Why a report isn't lawful.

use crate::line_sink::LineSink;
use crate::retold::Retold;
use emission_text::write_form;
use fault_words::{Again, Help, line_from, put_file, start_of_line};
use report_check::{Journal, journals_of};
use report_lines::ReportForm;
use shard_core::Shard;
use std::alloc::Global;
use std::thread::Threads;
use stream_base::Defs;
use window_defs::read_defs;

/// What a check judges: the names of its definitions and of its report, and how many sources there are.
#[derive(Drop)]
pub struct Judged<'a> {
    pub defs: &'a str,
    pub report: &'a str,
    pub sources: usize,
}

/// The first wrong line of a report: the one that stands there, and the one that belongs there.
pub fn put_wrong_line<A: Again, R: Threads>(
    alloc: Global,
    rt: &R,
    judged: &Judged<'_>,
    line: u64,
    again: &mut A,
    help: &mut Help,
) {
    help.say(&["scotty: "]);
    put_file("report", judged.report, help);
    help.say(&[", line "]);
    help.number(line);
    match again.bytes(judged.report) {
        None => {
            help.say(&[" is wrong, and can't be shown, since it can't be read a second time\n"]);
        }
        Some(text) => {
            put_standing(&text, line, help);
            let defs = again.bytes(judged.defs);
            put_belonging(
                told_line(alloc, rt, defs, &text, judged.sources, line),
                help,
            );
        }
    }
}

// The line that stands in the report.
fn put_standing(text: &[u8], line: u64, help: &mut Help) {
    match start_of_line(text, line) {
        Some(start) => {
            help.say(&[": there stands "]);
            help.quote(line_from(text, start));
        }
        None => help.say(&[": the report ends in front of it"]),
    }
}

// The line that belongs there, where it could be told.
fn put_belonging(told: Option<LineSink>, help: &mut Help) {
    let Some(sink) = told else {
        return help.say(&[", which isn't what the definitions call for\n"]);
    };
    match sink.line() {
        Some(line) => {
            help.say(&[", and there belongs "]);
            help.quote(line);
        }
        None => help.say(&[", and nothing belongs there"]),
    }
    help.say(&[", by the definitions and the journals that the report tells\n"]);
}

// The line of this number of the report of the journals in a text, under the definitions in these bytes.
fn told_line<R: Threads>(
    alloc: Global,
    rt: &R,
    defs: Option<Vec<u8>>,
    text: &[u8],
    sources: usize,
    line: u64,
) -> Option<LineSink> {
    let defs = read_defs(alloc, &defs?).ok()?;
    let sources = u16::try_from(sources).ok()?;
    let shards = shards_of(alloc, rt, &defs, text, sources)?;
    let mut sink = LineSink::new(alloc, line);
    write_form(form_of(text), &shards, &mut sink).ok()?;
    Some(sink)
}

fn form_of(text: &[u8]) -> ReportForm {
    if text.starts_with(b"report 2\n") {
        ReportForm::Two
    } else {
        ReportForm::One
    }
}

// Shards with the journals in a text, where these are journals of so many sources.
fn shards_of<R: Threads>(
    alloc: Global,
    rt: &R,
    defs: &Defs,
    text: &[u8],
    sources: u16,
) -> Option<Vec<Shard>> {
    let journals = journals_of(alloc, text).ok()?;
    let mut shards = Vec::new(alloc);
    for journal in &journals {
        let shard = shard_of(alloc, rt, defs, journal, sources)?;
        shards.push(shard).ok()?;
    }
    Some(shards)
}

fn shard_of<R: Threads>(
    alloc: Global,
    rt: &R,
    defs: &Defs,
    journal: &Journal,
    sources: u16,
) -> Option<Shard> {
    let mut retold = Retold::new(alloc, defs, sources)?;
    for entry in journal.entries() {
        if !retold.take_in(rt, entry) {
            return None;
        }
    }
    Some(retold.into_shard())
}

/// The report has other shards than were asked for.
pub fn put_wrong_shards(report: &str, found: u64, shards: &str, help: &mut Help) {
    help.say(&["scotty: the number of shards in "]);
    put_file("report", report, help);
    help.say(&[" is "]);
    help.number(found);
    help.say(&[
        ", and SHARDS is ",
        shards,
        ": give the number that the run had\n",
    ]);
}

/// The journal of a shard hasn't the entries of a source.
pub fn put_wrong_journal(report: &str, shard: u16, source: Option<&str>, help: &mut Help) {
    help.say(&["scotty: "]);
    put_file("report", report, help);
    help.say(&[", shard "]);
    help.number(shard);
    match source {
        Some(name) => {
            help.say(&[": the entries of "]);
            put_file("source", name, help);
            help.say(&[
                " aren't those of the file, once each and in its order: is it the file that the run had?\n",
            ]);
        }
        None => help.say(&[
            " has entries of more sources than were given: give those that the run had\n",
        ]),
    }
}
