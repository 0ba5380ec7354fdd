use outside::{MemSink, Sink};
use run_tally::Heard;
use std::alloc::Global;
use std::test::Fail;

// A report of two sources, of which the second is idle for a while, in one shard; and what it comes to.
const REPORT: &str = "report 2
shard 0
j 0 t 5 1 a
j 1 i
j 0 w 20
+ 0 0 10 1 1 a
j 1 w 4
j 1 t 3 2 a
~ 0 0 10 2 3 1 1 a
j 0 m 7 a
- 0 0 10 2 3 a
j 1 t 1 9 a
x
end
";

const SAID: &str =
    "scotty: 3 tuples, 1 marks; 1 dropped (the latest 19 behind the watermark); 1 results, 1 updates, 1 taken back
";

// The report of a watch of one source, and what a reader saw of it, which counts for nothing.
const WATCHED: &str = "shard 0
j 0 t 1 5 a
j 0 w 10
+ 0 0 10 1 5 a
j 0 e
end
b 0 0 0
b 0 3 1
end
";

const WATCHED_SAID: &str =
    "scotty: 1 tuples, 0 marks; 0 dropped; 1 results, 0 updates, 0 taken back\n";

#[test]
fn what_readers_saw_counts_for_nothing(rt: HostRuntime) -> Result<(), Fail> {
    let (line, tally) = heard_in(rt.alloc(), WATCHED, 1, 1000)?;
    assert_eq!(rt; line.as_str(), "end");
    assert_eq!(rt; tally.as_str(), WATCHED_SAID);
    Ok(())
}

// What the last two tuples of each key come to, period by period: of a watermark, of a late tuple that counts, and of one
// that is dropped.
const LAST: &str = "shard 0
j 0 t 1 1 a
j 0 t 12 4 a
j 0 w 20
+ 10 1 1 a
+ 20 2 5 a
j 0 t 7 8 a
~ 10 2 9 a
~ 20 2 12 a
j 0 t 4 8 a
x
j 0 e
end
";

const LAST_SAID: &str =
    "scotty: 4 tuples, 0 marks; 1 dropped (the latest 16 behind the watermark); 2 results, 2 updates, 0 taken back\n";

#[test]
fn rows_without_a_window_are_tallied(rt: HostRuntime) -> Result<(), Fail> {
    let (_, tally) = heard_in(rt.alloc(), LAST, 1, 1000)?;
    assert_eq!(rt; tally.as_str(), LAST_SAID);
    Ok(())
}

#[test]
fn a_report_is_tallied_in_whatever_pieces_it_comes(rt: HostRuntime) -> Result<(), Fail> {
    for piece in [1, 7, 1000] {
        let (line, tally) = heard_in(rt.alloc(), REPORT, 2, piece)?;
        assert_eq!(rt; line.as_str(), "end");
        assert_eq!(rt; tally.as_str(), SAID, "in pieces of {piece}");
    }
    Ok(())
}

// The last line and the tally of a report of so many sources, of which the sink takes so many bytes a call.
fn heard_in(
    alloc: Global,
    report: &str,
    sources: usize,
    piece: u64,
) -> Result<(String, String), Fail> {
    let sink = MemSink::new(alloc, 1000, Vec::new(alloc), piece.max(1))?;
    let mut heard = Heard::new(sink, sources, true);
    let mut rest = report.as_bytes();
    for _ in 0..report.len() {
        let Ok(count) = heard.write(rest) else {
            break;
        };
        rest = &rest[count..];
    }
    let line = String::from_utf8_lossy(alloc, heard.last_line())?;
    let tally = heard.tally().to_string(alloc)?;
    Ok((line, tally))
}
