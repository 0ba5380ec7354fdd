use outside::{MemFile, MemFiles, MemSink, OpenGate};
use scotty_run::{Status, scotty};
use std::alloc::{AllocError, Global};
use std::process::Abort;
use std::sync::Wait;
use std::test::Fail;
use std::thread::Threads;

pub const DEFS: &str = "[[window]]\nkind = \"tumbling\"\nlength = 10\nfunc = \"sum\"\n";

pub fn words_of(alloc: Global, words: &[&str]) -> Result<Vec<String>, AllocError> {
    let mut all = Vec::new(alloc);
    for word in words {
        all.push(String::from_str(alloc, word)?)?;
    }
    Ok(all)
}

// A file, with the numbers of the reads that fail.
pub fn file(
    alloc: Global,
    name: &str,
    bytes: &[u8],
    failing: Vec<u64>,
) -> Result<MemFile, AllocError> {
    Ok(MemFile {
        name: String::from_str(alloc, name)?,
        bytes: Vec::from_slice(alloc, bytes)?,
        failing,
        refuse: false,
    })
}

// A sink with room for these many bytes, which takes eight a write.
pub fn sink_of(alloc: Global, room: u64) -> Result<MemSink, Fail> {
    Ok(MemSink::new(alloc, room, Vec::new(alloc), 8)?)
}

pub fn run<R: Threads + Wait + Sync>(
    rt: &R,
    alloc: Global,
    words: &[&str],
    files: &[MemFile],
    sink: &mut MemSink,
) -> Result<Status, Fail> {
    let words = words_of(alloc, words)?;
    let mut files = MemFiles::new(files, 8);
    Ok(scotty(alloc, rt, &words, &mut files, sink, &OpenGate))
}

// A run of these words over these files ends with this status, and has written this text.
pub fn ends<R: Abort + Threads + Wait + Sync>(
    rt: &R,
    alloc: Global,
    words: &[&str],
    files: &[MemFile],
    status: Status,
    text: &str,
) -> Result<(), Fail> {
    let mut sink = sink_of(alloc, 60_000)?;
    let ended = run(rt, alloc, words, files, &mut sink)?;
    assert_eq!(rt; str::from_utf8(sink.bytes())?, text);
    assert_eq!(rt; ended, status, "{text}");
    Ok(())
}
