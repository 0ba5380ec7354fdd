use outside::{MemFile, MemFiles, MemSink};
use part_run::scotty_part;
use run_inputs::Status;
use std::alloc::{AllocError, Global};
use std::process::Abort;
use std::test::Fail;

/// A case: the words, the files by their names and bytes, the status, and what was written.
pub struct Case {
    pub words: &'static [&'static str],
    pub files: &'static [(&'static str, &'static str)],
    pub status: Status,
    pub text: &'static str,
}

fn words_of(alloc: Global, words: &[&str]) -> Result<Vec<String>, AllocError> {
    let mut all = Vec::new(alloc);
    for word in words {
        all.push(String::from_str(alloc, word)?)?;
    }
    Ok(all)
}

pub fn file(alloc: Global, name: &str, text: &str) -> Result<MemFile, AllocError> {
    Ok(MemFile {
        name: String::from_str(alloc, name)?,
        bytes: Vec::from_slice(alloc, text.as_bytes())?,
        failing: Vec::new(alloc),
        refuse: false,
    })
}

fn files_of(alloc: Global, files: &[(&str, &str)]) -> Result<Vec<MemFile>, AllocError> {
    let mut all = Vec::new(alloc);
    for (name, text) in files {
        all.push(file(alloc, name, text)?)?;
    }
    Ok(all)
}

/// Runs these words over these files.
pub fn run(
    alloc: Global,
    words: &[&str],
    files: &[MemFile],
    sink: &mut MemSink,
) -> Result<Status, Fail> {
    let words = words_of(alloc, words)?;
    let mut files = MemFiles::new(files, 8);
    Ok(scotty_part(alloc, &words, &mut files, sink))
}

/// These words over these files end with this status, and have written this text.
pub fn ends<R: Abort>(
    rt: &R,
    alloc: Global,
    words: &[&str],
    files: &[MemFile],
    status: Status,
    text: &str,
) -> Result<(), Fail> {
    let mut sink = MemSink::new(alloc, 60_000, Vec::new(alloc), 8)?;
    let ended = run(alloc, words, files, &mut sink)?;
    assert_eq!(rt; str::from_utf8(sink.bytes())?, text);
    assert_eq!(rt; ended, status, "{text}");
    Ok(())
}

fn holds<R: Abort>(rt: &R, alloc: Global, case: &Case) -> Result<(), Fail> {
    let files = files_of(alloc, case.files)?;
    ends(rt, alloc, case.words, &files, case.status, case.text)
}

/// Each case ends as it says.
pub fn hold<R: Abort>(rt: &R, alloc: Global, cases: &[Case]) -> Result<(), Fail> {
    for case in cases {
        holds(rt, alloc, case)?;
    }
    Ok(())
}
