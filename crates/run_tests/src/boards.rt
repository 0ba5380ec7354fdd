use crate::gates::{Passes, count, many};
use crate::runs::{DEFS, file, sink_of, words_of};
use outside::{Gate, MemFiles};
use scotty_run::{Status, scotty};
use std::process::Abort;
use std::sync::Wait;
use std::test::Fail;
use std::thread::Threads;

const REPORT: &str = "shard 0
j 0 t 1 5 a
j 0 t 4 7 a
j 0 w 10
+ 0 0 10 2 12 a
j 0 e
end
";

// Of a live board, whose writer passes with 0, and its reader with 1: holds the writer before its
// second publication until the reader has come to its first read, the reader before its second read
// until the writer has come to its second publication, and the writer before its third until all
// three reads were begun.
#[derive(Drop)]
struct TakesTurns {
    passes: Passes,
}

impl Gate for TakesTurns {
    fn pass(&self, number: u16) {
        let passes = &self.passes;
        match number {
            0 => match count(&passes.of_first) {
                1 => passes.hold(&passes.of_second, 1),
                2 => passes.hold(&passes.of_second, 3),
                _ => {}
            },
            1 => {
                if count(&passes.of_second) == 1 {
                    passes.hold(&passes.of_first, 2);
                }
            }
            _ => {
                count(&passes.left);
            }
        }
    }
}

// The line of this number, from 0.
fn line_of(text: &str, wanted: usize) -> &str {
    let mut number = 0usize;
    for line in text.lines() {
        if number == wanted {
            return line;
        }
        number = number.saturating_add(1);
    }
    ""
}

// Three reads of a reader, of whom the second finds one entry or two, and a last one of all entries.
fn are_read_in_turn(rt: &impl Abort, text: &str) {
    assert_eq!(rt; text.lines().count(), 12, "{text}");
    assert!(rt; text.starts_with(REPORT), "{text}");
    for number in 7..11usize {
        assert!(rt; line_of(text, number).starts_with("b 0 "), "{text}");
    }
    let second = line_of(text, 8);
    assert!(rt; second == "b 0 1 0" || second == "b 0 2 0", "{text}");
    assert_eq!(rt; line_of(text, 10), "b 0 4 1");
    assert_eq!(rt; line_of(text, 11), "end");
}

// A live board of one source, with one reader who reads three times, and once more at the end.
fn watches_in_turn<R: Abort + AllocGlobal + Threads + Wait + Sync>(rt: &R) -> Result<(), Fail> {
    let alloc = rt.alloc();
    let gate = TakesTurns {
        passes: Passes::new(),
    };
    let files = [
        file(alloc, "d", DEFS.as_bytes(), Vec::new(alloc))?,
        file(alloc, "s", b"t,1,5,a\nt,4,7,a\nw,10\n", Vec::new(alloc))?,
    ];
    let words = words_of(alloc, &["watch", "d", "1", "3", "s"])?;
    let mut sink = sink_of(alloc, 60_000)?;
    let mut files = MemFiles::new(&files, 8);
    let ended = scotty(alloc, rt, &words, &mut files, &mut sink, &gate);
    let text = str::from_utf8(sink.bytes())?;
    assert_eq!(rt; ended, Status::Done, "{text}");
    are_read_in_turn(rt, text);
    assert_eq!(rt; many(&gate.passes.left), 0);
    Ok(())
}

// Were the writer and the reader run one after the other, a hold would be left by its limit. Were the
// reader only given the last board, or the first, its second line would tell of other entries.
#[test]
fn a_board_is_read_beside_its_writer(rt: HostRuntime) -> Result<(), Fail> {
    watches_in_turn(&rt)
}
