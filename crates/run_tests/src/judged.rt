use crate::runs::{DEFS, ends, file, run, sink_of};
use scotty_run::Status;
use std::alloc::Global;
use std::process::Abort;
use std::sync::Wait;
use std::test::Fail;
use std::thread::Threads;

// The report of a run of two sources, by these words, is lawful.
fn run_is_lawful<R: Abort + Threads + Wait + Sync>(
    rt: &R,
    alloc: Global,
    words: &[&str],
) -> Result<(), Fail> {
    let first = "t,1,5,a\nt,4,7,b\nw,10\nt,6,1,a\nw,30\n";
    let second = "t,2,5,b\nw,8\nt,14,7,a\nt,9,9,c\nw,25\nt,3,2,b\n";
    let mut files = vec![in alloc;
        file(alloc, "d", DEFS.as_bytes(), Vec::new(alloc))?,
        file(alloc, "s0", first.as_bytes(), Vec::new(alloc))?,
        file(alloc, "s1", second.as_bytes(), Vec::new(alloc))?,
    ]?;
    let mut sink = sink_of(alloc, 60_000)?;
    let ended = run(rt, alloc, words, &files, &mut sink)?;
    assert_eq!(rt; ended, Status::Done);
    files.push(file(alloc, "r", sink.bytes(), Vec::new(alloc))?)?;
    let check = ["check", "d", "2", "r", "s0", "s1"];
    ends(rt, alloc, &check, &files, Status::Done, "lawful\n")
}

#[test]
fn runs_of_two_sources_are_lawful_on_each_way_and_in_both_forms(
    rt: HostRuntime,
) -> Result<(), Fail> {
    for form in ["run", "run2"] {
        for way in ["turns", "mail"] {
            run_is_lawful(&rt, rt.alloc(), &[form, "d", "2", way, "s0", "s1"])?;
        }
    }
    Ok(())
}
