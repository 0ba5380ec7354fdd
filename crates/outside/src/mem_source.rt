ghost use Rattle.std.specs.Prelude.{◌≡◌, ◌≤◌, ◌++◌, ℕ, [], None, Some, take, drop, length, true, false, IfOk, IfSome, OnOk, OnErr};
ghost use Rattle.outside.specs.Outside.{HasFailed, nothing_read, with_read, KeepsWord};
ghost use Rattle.outside.specs.ReadLogs.{reads_of};
ghost use Rattle.outside.specs.Memory.{MemSourceState, handed_over, is_told_to_fail, next_call};

use crate::read_log::ReadLog;
use crate::source::{Failed, Source};
use std::marker::Model;

/// A source over bytes in memory, which gives at most `piece` bytes a call and fails at the calls
/// whose numbers, from 0, stand in `failing`.
pub struct MemSource<'a> {
    whole: &'a [u8],
    left: &'a [u8],
    failing: &'a [u64],
    calls: u64,
    piece: u64,
    log: ReadLog,
}

impl<'a> Model for MemSource<'a> {
    ghost use Rattle.std.specs.Prelude.{◌≡◌, ◌≤◌, ◌++◌, [], true, Some};
    ghost use Rattle.outside.specs.ReadLogs.{reads_of};
    ghost use Rattle.outside.specs.Memory.{MemSourceState};

    ghost Value = { MemSourceState };

    ghost view = { λ s. record {
      left = s.left.now;
      failing = s.failing.now;
      calls = s.calls;
      piece = s.piece;
      whole = s.whole.now;
      reads = reads_of s.log;
    } };

    ghost invariant = { λ s. (1 ≤ s.piece)
        × (s.whole.now ≡ (reads_of s.log).given ++ s.left.now)
        × ((reads_of s.log).ended ≡ true → s.left.now ≡ []) };
}

impl<'a> MemSource<'a> {
    /// A source that gives these bytes.
    pub fn new(bytes: &'a [u8], failing: &'a [u64], piece: u64) -> MemSource<'a>
        requires { 1 ≤ piece }
        ensures { result
            ≡ record {
              left = bytes.now;
              failing = failing.now;
              calls = 0;
              piece = piece;
              whole = bytes.now;
              reads = nothing_read 0;
            } }
    {
        MemSource {
            whole: bytes,
            left: bytes,
            failing,
            calls: 0,
            piece,
            log: ReadLog::start(),
        }
    }

    /// The same, of an opened file, of which this log says that nothing was read.
    pub(crate) fn opened(
        bytes: &'a [u8],
        failing: &'a [u64],
        piece: u64,
        log: ReadLog,
    ) -> MemSource<'a>
        requires some { 1 ≤ piece }
        requires fresh { (place : ℕ) × (reads_of log ≡ nothing_read place) }
        ensures { result
            ≡ record {
              left = bytes.now;
              failing = failing.now;
              calls = 0;
              piece = piece;
              whole = bytes.now;
              reads = reads_of log;
            } }
    {
        MemSource {
            whole: bytes,
            left: bytes,
            failing,
            calls: 0,
            piece,
            log,
        }
    }

    /// Gives the source up, and answers what was read of it.
    pub(crate) fn into_log(self) -> ReadLog
        ensures reads { reads_of result ≡ self.entry.reads }
        ensures word { KeepsWord self.entry.reads self.entry.whole }
    {
        let MemSource {
            whole: _,
            left: _,
            failing: _,
            calls: _,
            piece: _,
            log,
        } = self;
        log
    }
}

impl Source for MemSource<'_> {
    ghost reads = { λ s. s.reads };

    ghost told = { λ s. Some s.whole };

    fn read(&mut self, buf: &mut [u8]) -> Result<usize, Failed>
        ensures within { IfOk result (λ n. n ≤ length buf.old) }
        ensures gave { IfOk result (λ n. self.new.reads
            ≡ with_read (length buf.old) (take n buf.new) self.old.reads) }
        ensures failed { OnErr result (HasFailed self.old.reads self.new.reads) }
        ensures told { self.new.whole ≡ self.old.whole }
        ensures word { OnOk result (KeepsWord self.new.reads self.new.whole) }
        ensures works { OnOk result (is_told_to_fail self.old.failing self.old.calls ≡ false) }
        ensures fails { OnErr result (is_told_to_fail self.old.failing self.old.calls ≡ true) }
        ensures amount { IfOk result (λ n.
            n ≡ handed_over self.old.piece (length buf.old) (length self.old.left)) }
        ensures front { IfOk result (λ n. buf.new ≡ take n self.old.left ++ drop n buf.old) }
        ensures left { IfOk result (λ n. self.new.left ≡ drop n self.old.left) }
        ensures kept { OnErr result (self.new.left ≡ self.old.left) }
        ensures counted { self.new.calls ≡ next_call self.old.calls }
        ensures failing { self.new.failing ≡ self.old.failing }
        ensures piece { self.new.piece ≡ self.old.piece }
    {
        let fails = self.failing.contains(&self.calls);
        self.calls = self.calls.saturating_add(1);
        if fails {
            self.log.failed();
            return Err(Failed);
        }
        let n = (self.piece as usize).min(buf.len()).min(self.left.len());
        let (front, rest) = self.left.split_at(n);
        buf[..n].copy_from_slice(front);
        self.left = rest;
        self.log.gave(buf, n);
        Ok(n)
    }
}
