//! One run of a command, over files and a sink in memory.
use crate::list::{elements, has, numbers_of};
use crate::noted::NotedFiles;
use crate::outcome::Outcome;
use crate::row::{Devices, Row};
use crate::spelled::spelled;
use anyhow::{Result, ensure};
use outside::{Files, MemFile, MemFiles, MemSink, OpenGate};
use scotty_run::scotty;
use std::alloc::{AllocError, Global};
use std::sync::Wait;
use std::thread::Threads;
use toml::Table;

const DEFS: &str = "[[window]]\nkind = \"tumbling\"\nlength = 10\nfunc = \"sum\"\n";

const RECORDS: &str = "t,1,5,a\nt,4,7,a\nw,10\n";

/// How a run of a command ends, in which the read or write of this number fails where reads or writes
/// are to fail one by one.
pub fn run_of<R: Threads + Wait + Sync>(
    rt: &R,
    alloc: Global,
    row: &Row<'_>,
    command: &str,
    number: u64,
) -> Result<Outcome> {
    let Devices { piece, room, .. } = row.devices;
    ensure!(piece > 0, "pieces of no byte");
    let words = words_of(alloc, command)?;
    let files = files_of(alloc, row, number)?;
    let mut unwritten = numbers_of(alloc, row.devices.unwritten)?;
    if row.each_write > 0 {
        unwritten.push(number)?;
    }
    let sink = MemSink::new(alloc, room, unwritten, piece)?;
    run_over(rt, alloc, &words, MemFiles::new(&files, piece), sink)
}

// How a run of these words over these files ends, what is written going to this sink.
fn run_over<F: Files + Drop, R: Threads + Wait + Sync>(
    rt: &R,
    alloc: Global,
    words: &[String],
    files: F,
    mut sink: MemSink,
) -> Result<Outcome> {
    let mut files = NotedFiles::new(alloc, files);
    let status = scotty(alloc, rt, words, &mut files, &mut sink, &OpenGate);
    Ok(Outcome {
        status: u64::from(status.code()),
        text: Vec::from_slice(alloc, sink.bytes())?,
        opens: files.into_opens(),
    })
}

// The words behind the program's name.
fn words_of(alloc: Global, command: &str) -> Result<Vec<String>, AllocError> {
    let mut words = Vec::new(alloc);
    for word in command.split(' ').skip(1) {
        words.push(String::from_str(alloc, word)?)?;
    }
    Ok(words)
}

// The files of a row, among them definitions `d` and a source `s`.
fn files_of(alloc: Global, row: &Row<'_>, number: u64) -> Result<Vec<MemFile>, AllocError> {
    let mut files = Vec::new(alloc);
    for (name, text) in [("d", DEFS), ("s", RECORDS)] {
        if !is_named(row, name) {
            files.push(file_of(alloc, row, number, name, text)?)?;
        }
    }
    for named in [row.files, row.behind] {
        push_named(alloc, &mut files, row, number, named)?;
    }
    Ok(files)
}

// The files that a table names.
fn push_named(
    alloc: Global,
    files: &mut Vec<MemFile>,
    row: &Row<'_>,
    number: u64,
    named: Option<&Table>,
) -> Result<(), AllocError> {
    let Some(named) = named else {
        return Ok(());
    };
    for (name, value) in named {
        let text = value.as_str().unwrap_or_default();
        files.push(file_of(alloc, row, number, name.as_str(), text)?)?;
    }
    Ok(())
}

fn is_named(row: &Row<'_>, name: &str) -> bool {
    match row.files {
        Some(files) => files.get(name).is_some(),
        None => false,
    }
}

fn file_of(
    alloc: Global,
    row: &Row<'_>,
    number: u64,
    name: &str,
    text: &str,
) -> Result<MemFile, AllocError> {
    let mut reads = failing_reads(alloc, row, name)?;
    if row.fails_one_by_one(name) {
        reads.push(number)?;
    }
    Ok(MemFile {
        name: String::from_str(alloc, name)?,
        bytes: Vec::from_slice(alloc, spelled(alloc, text)?.as_bytes())?,
        failing: reads,
        refuse: has(row.devices.refused, name),
    })
}

// The numbers of the reads of a file that fail in each run.
fn failing_reads(alloc: Global, row: &Row<'_>, name: &str) -> Result<Vec<u64>, AllocError> {
    match row.devices.failing {
        Some(table) => numbers_of(alloc, elements(table, name).unwrap_or_default()),
        None => Ok(Vec::new(alloc)),
    }
}
