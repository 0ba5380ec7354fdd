use crate::cases::{Case, file, hold, run};
use outside::MemSink;
use run_inputs::Status;
use std::test::Fail;

const DEFS: &str =
    "every = 2\ndisorder = 1\n\n[[window]]\nkind = \"tumbling\"\nlength = 10\nfunc = \"sum\"\n";

// The key `a` has the number 97, and `b` 98: of two shards they go to 1 and 0. The second tuple is
// followed by a made watermark, and the idle source is woken by one.
const SOURCE: &str = "t,1,5,a\ni\nt,4,7,b\nw,10\nm,12,,\"a,\"\"\"\n";

const FIRST: &str = "shard 0\nj 0 w 3\nj 0 e\n+ 0 0 10 1 7 b\nend\n";

const SECOND: &str = "shard 0\nj 0 t 1 5 a\nj 0 w 3\nj 0 e\n+ 0 0 10 1 5 a\nend\n";

const CASES: [Case; 7] = [
    Case {
        words: &["part", "d", "2", "0", "s"],
        files: &[("d", DEFS), ("s", SOURCE)],
        status: Status::Done,
        text: "i,,,\nw,0,,\nt,4,7,b\nw,3,,\nw,10,,\n",
    },
    Case {
        words: &["part", "d", "2", "1", "s"],
        files: &[("d", DEFS), ("s", SOURCE)],
        status: Status::Done,
        text: "t,1,5,a\ni,,,\nw,0,,\nw,3,,\nw,10,,\nm,12,,\"a,\"\"\"\n",
    },
    Case {
        words: &["part", "d", "65535", "97", "s"],
        files: &[("d", DEFS), ("s", "t,1,5,a\nt,2,6,b\n")],
        status: Status::Done,
        text: "t,1,5,a\nw,1,,\n",
    },
    Case {
        words: &["defs", "d"],
        files: &[("d", DEFS)],
        status: Status::Done,
        text: "lateness = 0\nevery = 0\ndisorder = 1\n\n[[window]]\nkind = \"tumbling\"\nlength = 10\nfunc = \"sum\"\n",
    },
    Case {
        words: &["join", "2", "r", "q"],
        files: &[("r", FIRST), ("q", SECOND)],
        status: Status::Done,
        text: "shard 0\nj 0 w 3\nj 0 e\n+ 0 0 10 1 7 b\nshard 1\nj 0 t 1 5 a\nj 0 w 3\nj 0 e\n+ 0 0 10 1 5 a\nend\n",
    },
    Case {
        words: &["join", "1", "q"],
        files: &[("q", SECOND)],
        status: Status::Done,
        text: SECOND,
    },
    Case {
        words: &["join", "2", "r", "r"],
        files: &[("r", "report 2\nshard 0\nj 0 e\nend\n")],
        status: Status::Done,
        text: "report 2\nshard 0\nj 0 e\nshard 1\nj 0 e\nend\n",
    },
];

#[test]
fn parts_definitions_and_joined_reports_are_written(rt: HostRuntime) -> Result<(), Fail> {
    hold(&rt, rt.alloc(), &CASES)
}

// Each record goes to the shard, as it would be written. A piece of a part has 262,144 bytes.
#[test]
fn a_part_of_many_pieces_is_the_source_where_all_goes_to_the_shard(
    rt: HostRuntime,
) -> Result<(), Fail> {
    let alloc = rt.alloc();
    let mut source = String::new(alloc);
    for _ in 0..40_000 {
        source.push_str("t,1,5,\"a,b\"\n")?;
    }
    let defs = "[[window]]\nkind = \"marks\"\nfunc = \"count\"\n";
    let files = [file(alloc, "d", defs)?, file(alloc, "s", source.as_str())?];
    let mut sink = MemSink::new(alloc, 600_000, Vec::new(alloc), 100_000)?;
    let ended = run(alloc, &["part", "d", "1", "0", "s"], &files, &mut sink)?;
    assert_eq!(rt; ended, Status::Done);
    assert_eq!(rt; sink.bytes(), source.as_bytes());
    Ok(())
}
