use crate::sinks::{failing_sink, is_prefix, sink};
use emission_text::{Fault, Pending, SinkFault, write_fault};
use outside::MemSink;
use std::process::Abort;

const LINE: &[u8] = b"fault full shard 12\n";

// How many bytes a write takes, and how many writes the line takes then.
const PIECES: [(u64, u64); 3] = [(1, 20), (8, 3), (20, 1)];

// The line of a fault, of which the write of this number fails, where it takes more writes.
fn goes_out(rt: &(impl AllocGlobal + Abort), piece: u64, writes: u64, failing: u64) {
    assert!(rt; 1 <= piece);
    let mut sink = failing_sink(rt, 40, failing, piece);
    let written = write_fault(&Fault::FullShard { shard: 12 }, &mut sink);
    if failing < writes {
        assert_eq!(rt; written, Err(SinkFault::Write), "write {failing}");
        is_prefix(rt, &sink, LINE, piece.saturating_mul(failing), failing);
    } else {
        assert_eq!(rt; written, Ok(()), "write {failing}");
        is_prefix(rt, &sink, LINE, 20, failing);
    }
}

#[test]
fn where_a_write_fails_the_prefix_before_it_went_out(rt: HostRuntime) {
    for (piece, writes) in &PIECES {
        for failing in 0..=*writes {
            goes_out(&rt, *piece, *writes, failing);
        }
    }
}

fn add(rt: &impl Abort, text: &[u8], out: &mut Pending, sink: &mut MemSink) {
    assert!(rt; out.add(text, sink).is_ok());
}

#[test]
fn many_short_texts_go_out_in_one_write(rt: HostRuntime) {
    let mut sink = failing_sink(&rt, 5_000, 1, 5_000);
    let mut out = Pending::new();
    for _ in 0..1_000 {
        add(&rt, b"four", &mut out, &mut sink);
    }
    assert!(rt; out.flush(&mut sink).is_ok());
    assert_eq!(rt; sink.bytes().len(), 4_000);
}

const LONG: [u8; 5_000] = [b'-'; 5_000];

#[test]
fn texts_longer_than_the_buffer_keep_their_order(rt: HostRuntime) {
    let mut sink = sink(&rt, 6_000, 7);
    let mut out = Pending::new();
    add(&rt, b"first", &mut out, &mut sink);
    add(&rt, &LONG, &mut out, &mut sink);
    add(&rt, b"last", &mut out, &mut sink);
    assert!(rt; out.flush(&mut sink).is_ok());
    let bytes = sink.bytes();
    assert_eq!(rt; bytes.len(), 5_009);
    assert!(rt; bytes.starts_with(b"first-"));
    assert!(rt; bytes.ends_with(b"-last"));
}
