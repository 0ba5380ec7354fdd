use board_text::write_reads;
use emission_text::SinkFault;
use live_board::Tally;
use outside::MemSink;
use std::alloc::Global;
use std::process::Abort;
use std::test::Fail;

// Numbers of windows, and the text of the reads of two readers with so many.
const TEXTS: [(u32, &str); 3] = [
    (0, "b 0 0\nb 0 12\nb 1 4194304\nend\n"),
    (
        2,
        "b 0 0 0 0\nb 0 12 10 0\nb 1 4194304 18446744073709551615 1\nend\n",
    ),
    (
        3,
        "b 0 0 0 0 0\nb 0 12 10 0 9\nb 1 4194304 18446744073709551615 1 9\nend\n",
    ),
];

// A tally of so many entries, with these numbers of rows of the first windows.
fn tally_of(entries: u64, first: u64, second: u64, third: u64) -> Tally {
    let mut counts = [0; 32];
    counts[0] = first;
    counts[1] = second;
    counts[2] = third;
    Tally { entries, counts }
}

// What two readers have read: twice, and once.
fn two_lists(alloc: Global) -> Result<Vec<Vec<Tally>>, Fail> {
    let first = vec![in alloc; tally_of(0, 0, 0, 0), tally_of(12, 10, 0, 9)]?;
    let second = vec![in alloc; tally_of(4_194_304, u64::MAX, 1, 9)]?;
    Ok(vec![in alloc; first, second]?)
}

#[test]
fn each_read_has_a_line_with_the_counts_of_so_many_windows(rt: HostRuntime) -> Result<(), Fail> {
    let lists = two_lists(rt.alloc())?;
    for (windows, text) in TEXTS {
        writes(&rt, rt.alloc(), windows, &lists, text)?;
    }
    Ok(())
}

// The text of these reads is this one.
fn writes(
    rt: &impl Abort,
    alloc: Global,
    windows: u32,
    lists: &[Vec<Tally>],
    text: &str,
) -> Result<(), Fail> {
    assert!(rt; windows <= 32);
    let mut sink = MemSink::new(alloc, 200, Vec::new(alloc), 7)?;
    write_reads(windows, lists, &mut sink)?;
    assert_eq!(rt; sink.bytes(), text.as_bytes(), "of {windows} windows");
    Ok(())
}

#[test]
fn where_a_write_fails_the_lines_before_it_went_out(rt: HostRuntime) -> Result<(), Fail> {
    let lists = two_lists(rt.alloc())?;
    let text = TEXTS[1].1.as_bytes();
    for failing in 0..11u64 {
        let failing_calls = vec![in rt.alloc(); failing]?;
        let mut sink = MemSink::new(rt.alloc(), 200, failing_calls, 6)?;
        let written = write_reads(2, &lists, &mut sink);
        assert_eq!(rt; written, Err(SinkFault::Write), "write {failing}");
        assert_eq!(rt; sink.bytes().len() as u64, 6 * failing);
        assert!(rt; text.starts_with(sink.bytes()), "write {failing}");
    }
    Ok(())
}

#[test]
fn readers_without_reads_have_no_line(rt: HostRuntime) -> Result<(), Fail> {
    writes(&rt, rt.alloc(), 32, &[], "end\n")
}
