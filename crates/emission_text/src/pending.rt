ghost use Rattle.std.specs.Prelude.{◌≡◌, ◌≤◌, ◌+◌, ◌++◌, [], length, OnOk};
ghost use Rattle.emission_text.specs.Sending.{Puts, Writes};

use crate::sink_fault::SinkFault;
use crate::writing::write_all;
use outside::Sink;
use std::marker::Model;

// How many bytes are pending at most.
const ROOM: usize = 65_536;

/// A buffer in front of a sink, so that many short texts go out in one write. A contract sees the
/// bytes that are pending: they are given to the sink by a later `add`, or by `flush`.
#[derive(Drop)]
pub struct Pending {
    cells: [u8; ROOM],
    len: usize,
}

impl Model for Pending {
    ghost use Rattle.std.specs.Prelude.{◌≤◌, ℕ, List, take};
    ghost use Rattle.emission_text.specs.declared.pending.TheConstants.{ROOM};

    ghost Value = { List ℕ };

    ghost view = { λ p. take p.len p.cells };

    ghost invariant = { λ p. p.len ≤ ROOM };
}

impl Pending {
    /// A buffer with nothing pending.
    pub fn new() -> Pending
        ensures { result ≡ [] }
    {
        Pending {
            cells: [0; ROOM],
            len: 0,
        }
    }

    /// Puts bytes behind those that are pending. What was pending is written first, where there is
    /// no room for more.
    pub fn add<K: Sink>(&mut self, bytes: &[u8], sink: &mut K) -> Result<(), SinkFault>
        ensures { Puts K.taken K.faults bytes.now self.old self.new sink.old sink.new result }
    {
        if bytes.len() <= ROOM - self.len {
            self.keep(bytes);
            return Ok(());
        }
        self.flush(sink)?;
        self.keep_or_write(bytes, sink)
    }

    /// Writes all that is pending.
    pub fn flush<K: Sink>(&mut self, sink: &mut K) -> Result<(), SinkFault>
        ensures emptied { OnOk result (self.new ≡ []) }
        ensures writes { Writes K.taken K.faults self.old sink.old sink.new result }
    {
        write_all(&self.cells[..self.len], sink)?;
        self.len = 0;
        Ok(())
    }

    // Bytes that come where nothing is pending: those that have no room are written at once.
    fn keep_or_write<K: Sink>(&mut self, bytes: &[u8], sink: &mut K) -> Result<(), SinkFault>
        requires { self.old ≡ [] }
        ensures { Puts K.taken K.faults bytes.now [] self.new sink.old sink.new result }
    {
        if bytes.len() > ROOM {
            return write_all(bytes, sink);
        }
        self.keep(bytes);
        Ok(())
    }

    // Puts bytes behind those that are pending, where there is room.
    fn keep(&mut self, bytes: &[u8])
        requires { length self.old + length bytes.now ≤ ROOM }
        ensures { self.new ≡ self.old ++ bytes.now }
    {
        let end = self.len + bytes.len();
        self.cells[self.len..end].copy_from_slice(bytes);
        self.len = end;
    }
}
