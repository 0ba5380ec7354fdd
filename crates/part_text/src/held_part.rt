ghost use Rattle.std.specs.Prelude.{◌≡◌, [], Some};
ghost use Rattle.std.specs.Io.{WritesAtMost};
ghost use Rattle.std.specs.Io.KnownBytes.{Keeps, WriteAppends};
ghost use Rattle.part_text.specs.Holding.{IsHeld};

use byte_pieces::Pieces;
use outside::ByteLog;
use source_feed::SOURCE_MAX;
use std::alloc::Global;
use std::io::{Result, Write};
use std::marker::Model;

/// A writer that holds what is written as long as that is no more than a source may have, in pieces;
/// from then on it holds nothing. A contract sees all that was written.
#[derive(Drop)]
pub struct HeldPart {
    held: Option<Pieces>,
    text: ByteLog,
}

impl Model for HeldPart {
    ghost use Rattle.std.specs.Prelude.{ℕ, List};
    ghost use Rattle.part_text.specs.Holding.{IsHeld};

    ghost Value = { List ℕ };

    ghost view = { λ p. p.text.bytes };

    ghost invariant = { λ p. IsHeld p.text.bytes p.held };
}

impl HeldPart {
    /// Nothing was written yet.
    pub fn new(alloc: Global) -> HeldPart
        ensures { result ≡ [] }
    {
        HeldPart {
            held: Some(Pieces::new(alloc)),
            text: ByteLog::new(),
        }
    }

    /// What is held.
    pub fn into_held(self) -> Option<Pieces>
        ensures { IsHeld self result }
    {
        let HeldPart { held, text: _ } = self;
        held
    }
}

impl Write for HeldPart {
    ghost contents = { λ p. Some p };

    fn write(&mut self, buf: &[u8]) -> Result<usize>
        ensures bound { WritesAtMost result buf.now }
        ensures bytes { WriteAppends (Some self.old) (Some self.new) result buf.now }
    {
        let len = buf.len() as u64;
        if let Some(pieces) = &mut self.held {
            if len <= SOURCE_MAX && pieces.len() <= SOURCE_MAX - len {
                pieces.add(buf)?;
            } else {
                self.held = None;
            }
        }
        self.text.add(buf);
        Ok(buf.len())
    }

    fn flush(&mut self) -> Result<()>
        ensures bytes { Keeps (Some self.old) (Some self.new) }
    {
        Ok(())
    }
}
