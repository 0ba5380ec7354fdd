//! Sinks in memory, and what went out to them.
ghost use Rattle.std.specs.Prelude.{◌≤◌};

use outside::MemSink;
use std::process::Abort;

/// An empty sink with so much room, which takes at most `piece` bytes a call and never fails.
pub fn sink(rt: &(impl AllocGlobal + Abort), room: u64, piece: u64) -> MemSink
    requires { 1 ≤ piece }
{
    let alloc = rt.alloc();
    let Ok(sink) = MemSink::new(alloc, room, Vec::new(alloc), piece) else {
        panic!(rt; "out of memory");
    };
    sink
}

/// The same, but the call of this number, from 0, fails.
pub fn failing_sink(rt: &(impl AllocGlobal + Abort), room: u64, failing: u64, piece: u64) -> MemSink
    requires { 1 ≤ piece }
{
    let alloc = rt.alloc();
    let Ok(calls) = vec![in alloc; failing] else {
        panic!(rt; "out of memory");
    };
    let Ok(sink) = MemSink::new(alloc, room, calls, piece) else {
        panic!(rt; "out of memory");
    };
    sink
}

/// Of a text the first `count` bytes went out, and no others.
pub fn is_prefix(rt: &impl Abort, sink: &MemSink, text: &[u8], count: u64, failing: u64) {
    assert_eq!(rt;
        Some(sink.bytes()),
        text.get(..count as usize),
        "write {failing}"
    );
}
