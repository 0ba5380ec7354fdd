use crate::cases::{Case, ends, file, hold, run};
use outside::MemSink;
use run_inputs::Status;
use std::test::Fail;

const DEFS: &str = "[[window]]\nkind = \"marks\"\nfunc = \"count\"\n";

// The word `weekend` is the key of a row that was cut off in mid line.
const CUT: &str = "shard 0\nj 0 w 3\n+ 0 0 10 1 7 weekend\n";

// The key `a` goes to the second of two shards.
const OWN: &str = "shard 0\nj 0 w 3\nj 0 t 4 1 a\nj 0 e\nend\n";

const JOINED: &str = "shard 0\nj 0 e\nshard 1\nj 0 e\nend\n";

const OF_FIRST: &str = "shard 0\nj 0 e\nend\n";

const CASES: [Case; 8] = [
    Case {
        words: &["part", "d", "2", "0", "s"],
        files: &[("d", "every = 1\n"), ("s", "")],
        status: Status::BadDefs,
        text: "fault defs shape top\n",
    },
    Case {
        words: &["part", "d", "2", "0", "s"],
        files: &[("d", DEFS)],
        status: Status::OpenFault,
        text: "fault open 0\n",
    },
    Case {
        words: &["part", "d", "2", "0", "s"],
        files: &[("d", DEFS), ("s", "kind,time,value,key\nt,1,5,b\nt,1,5\n")],
        status: Status::BadRow,
        text: "fault row 0 3 fields\n",
    },
    Case {
        words: &["defs", "d"],
        files: &[("s", DEFS)],
        status: Status::OpenFault,
        text: "fault open defs\n",
    },
    Case {
        words: &["join", "2", "r", "q"],
        files: &[("r", OF_FIRST)],
        status: Status::OpenFault,
        text: "fault open 1\n",
    },
    Case {
        words: &["join", "1", "r"],
        files: &[("r", CUT)],
        status: Status::Unlawful,
        text: "fault report 0\n",
    },
    Case {
        words: &["join", "2", "r", "q"],
        files: &[("r", OF_FIRST), ("q", JOINED)],
        status: Status::Unlawful,
        text: "fault report 1\n",
    },
    Case {
        words: &["join", "2", "r", "q"],
        files: &[("r", OWN), ("q", OF_FIRST)],
        status: Status::Unlawful,
        text: "fault entry 0 2\n",
    },
];

const USAGE: [&[&str]; 14] = [
    &[],
    &["part", "d", "2", "2", "s"],
    &["part", "d", "0", "0", "s"],
    &["part", "d", "65536", "0", "s"],
    &["part", "d", "2", "0", "s", "s"],
    &["part", "d", "2", "0"],
    &["part", "d", "02", "0", "s"],
    &["part", "", "2", "0", "s"],
    &["defs"],
    &["defs", "d", "d"],
    &["join", "0"],
    &["join", "2", "r"],
    &["join", "1", "r", "r"],
    &["join", "1", ""],
];

#[test]
fn what_is_no_part_or_report_is_refused_with_its_line(rt: HostRuntime) -> Result<(), Fail> {
    hold(&rt, rt.alloc(), &CASES)
}

#[test]
fn other_words_are_refused_as_usage(rt: HostRuntime) -> Result<(), Fail> {
    for words in &USAGE {
        ends(&rt, rt.alloc(), words, &[], Status::Usage, "fault usage\n")?;
    }
    Ok(())
}

#[test]
fn a_read_that_fails_is_answered_with_its_file(rt: HostRuntime) -> Result<(), Fail> {
    let alloc = rt.alloc();
    let mut files = [file(alloc, "d", DEFS)?, file(alloc, "r", OF_FIRST)?];
    files[1].failing = vec![in alloc; 1u64]?;
    let part = ["part", "d", "1", "0", "r"];
    let read = Status::ReadFault;
    ends(&rt, alloc, &part, &files, read, "fault read 0\n")?;
    ends(
        &rt,
        alloc,
        &["join", "1", "r"],
        &files,
        read,
        "fault read 0\n",
    )
}

#[test]
fn a_write_that_fails_is_answered_so(rt: HostRuntime) -> Result<(), Fail> {
    let alloc = rt.alloc();
    let files = [file(alloc, "d", DEFS)?, file(alloc, "s", "t,1,5,a\n")?];
    let mut sink = MemSink::new(alloc, 3, Vec::new(alloc), 2)?;
    let ended = run(alloc, &["part", "d", "1", "0", "s"], &files, &mut sink)?;
    assert_eq!(rt; ended, Status::WriteFault);
    assert_eq!(rt; str::from_utf8(sink.bytes())?, "t,1");
    Ok(())
}
