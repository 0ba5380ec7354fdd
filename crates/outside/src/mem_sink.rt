ghost use Rattle.std.specs.Prelude.{◌≡◌, ◌≤◌, ◌<◌, ◌++◌, ◌-◌, [], take, length, true, false, IfOk, OnOk, OnErr};
ghost use Rattle.outside.specs.Outside.{Rose};
ghost use Rattle.outside.specs.Memory.{MemSinkState, handed_over, must_fail, next_call};

use crate::sink::Sink;
use crate::source::Failed;
use std::alloc::Global;
use std::marker::Model;
use stream_base::NoMemory;

/// A sink over memory, which takes at most `piece` bytes a call, fails at the calls whose numbers,
/// from 0, stand in `failing`, and fails where its room is used up.
#[derive(Drop)]
pub struct MemSink {
    bytes: Vec<u8>,
    room: u64,
    failing: Vec<u64>,
    calls: u64,
    faults: u64,
    piece: u64,
}

impl Model for MemSink {
    ghost use Rattle.std.specs.Prelude.{◌≤◌, ◌+◌, vec_len, vec_capacity};
    ghost use Rattle.outside.specs.Memory.{MemSinkState};

    ghost Value = { MemSinkState };

    ghost view = { λ s. record {
      bytes = s.bytes.items;
      room = s.room;
      failing = s.failing.items;
      calls = s.calls;
      faults = s.faults;
      piece = s.piece;
    } };

    ghost invariant = { λ s. (1 ≤ s.piece) × (vec_len s.bytes + s.room ≤ vec_capacity s.bytes) };
}

impl MemSink {
    /// An empty sink with room for `room` bytes, all of it taken from memory here.
    pub fn new(alloc: Global, room: u64, failing: Vec<u64>, piece: u64) -> Result<MemSink, NoMemory>
        requires { 1 ≤ piece }
        ensures { IfOk result
            (λ sink. sink
            ≡ record {
              bytes = [];
              room = room;
              failing = failing.items;
              calls = 0;
              faults = 0;
              piece = piece;
            }) }
    {
        Ok(MemSink {
            bytes: Vec::with_capacity(alloc, room as usize)?,
            room,
            failing,
            calls: 0,
            faults: 0,
            piece,
        })
    }

    /// What was written.
    pub fn bytes(&self) -> &[u8]
        ensures { result.now ≡ self.now.bytes }
    {
        &self.bytes
    }
}

impl Sink for MemSink {
    ghost taken = { λ s. s.bytes };

    ghost faults = { λ s. s.faults };

    fn write(&mut self, bytes: &[u8]) -> Result<usize, Failed>
        ensures within { IfOk result (λ n. n ≤ length bytes.now) }
        ensures some { 0 < length bytes.now → IfOk result (λ n. 1 ≤ n) }
        ensures appended { IfOk result (λ n. self.new.bytes ≡ self.old.bytes ++ take n bytes.now) }
        ensures quiet { OnOk result (self.new.faults ≡ self.old.faults) }
        ensures failed { OnErr result (Rose self.old.faults self.new.faults) }
        ensures kept { OnErr result (self.new.bytes ≡ self.old.bytes) }
        ensures never_falls { self.old.faults ≤ self.new.faults }
        ensures works { OnOk result (must_fail self.old bytes.now ≡ false) }
        ensures fails { OnErr result (must_fail self.old bytes.now ≡ true) }
        ensures amount { IfOk result (λ n.
            n ≡ handed_over self.old.piece (length bytes.now) self.old.room) }
        ensures room { IfOk result (λ n. self.new.room ≡ self.old.room - n) }
        ensures room_kept { OnErr result (self.new.room ≡ self.old.room) }
        ensures counted { self.new.calls ≡ next_call self.old.calls }
        ensures failing { self.new.failing ≡ self.old.failing }
        ensures piece { self.new.piece ≡ self.old.piece }
    {
        let full = self.room == 0 && !bytes.is_empty();
        let fails = full || self.failing.contains(&self.calls);
        self.calls = self.calls.saturating_add(1);
        if fails {
            self.faults = self.faults.saturating_add(1);
            return Err(Failed);
        }
        let n = (self.piece as usize)
            .min(bytes.len())
            .min(self.room as usize);
        self.bytes.extend_from_slice(&bytes[..n]).unwrap();
        self.room -= n as u64;
        Ok(n)
    }
}
