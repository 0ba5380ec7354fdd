ghost use Rattle.std.specs.Prelude.{◌≡◌, ◌<◌, ◌+◌, ◌^◌, ◌++◌, [], length, IfSome, IfNone, OnOk, OnErr};
ghost use Rattle.byte_pieces.specs.Pieces.{AreFull, bytes_in, bytes_of};

use std::alloc::{AllocError, Global};
use std::collections::VecDeque;
use std::marker::Model;
use std::mem;

// How many bytes a piece has room for; more that are put at once have a piece of their own.
const PIECE: usize = 262_144;

/// Bytes in order, which are held in pieces. They grow at their end, and are taken piece by piece from
/// their front. A contract sees the bytes.
#[derive(Drop)]
pub struct Pieces {
    alloc: Global,
    // Those that nothing more is put to.
    full: VecDeque<Vec<u8>>,
    last: Vec<u8>,
    len: u64,
}

impl Model for Pieces {
    ghost use Rattle.byte_pieces.specs.Pieces.{AreFull, bytes_in};
    ghost use Rattle.std.specs.Prelude.{◌≡◌, ◌++◌, ℕ, List, length};

    ghost Value = { List ℕ };

    ghost view = { λ p. bytes_in p.full.items ++ p.last.items };

    ghost invariant = { λ p. AreFull p.full.items
        × (p.len ≡ length (bytes_in p.full.items ++ p.last.items)) };
}

impl Pieces {
    /// No bytes.
    pub fn new(alloc: Global) -> Pieces
        ensures { result ≡ [] }
    {
        Pieces {
            alloc,
            full: VecDeque::new(alloc),
            last: Vec::new(alloc),
            len: 0,
        }
    }

    /// These bytes, in one piece.
    pub fn of(alloc: Global, bytes: Vec<u8>) -> Pieces
        ensures { result ≡ bytes.items }
    {
        Pieces {
            alloc,
            full: VecDeque::new(alloc),
            len: bytes.len() as u64,
            last: bytes,
        }
    }

    /// How many bytes there are.
    pub fn len(&self) -> u64
        ensures { result ≡ length self.now }
    {
        self.len
    }

    /// Puts bytes behind all others; none where an allocation is refused.
    pub fn add(&mut self, bytes: &[u8]) -> Result<(), AllocError>
        requires { length self.old + length bytes.now < 2 ^ 64 }
        ensures added { OnOk result (self.new ≡ self.old ++ bytes.now) }
        ensures kept { OnErr result (self.new ≡ self.old) }
    {
        if self.last.len() > PIECE - bytes.len().min(PIECE) {
            self.begin_piece()?;
        }
        self.last.extend_from_slice(bytes)?;
        self.len += bytes.len() as u64;
        Ok(())
    }

    /// Takes the first piece; nothing where no bytes are left.
    pub fn next_piece(&mut self) -> Option<Vec<u8>>
        ensures all { self.old ≡ bytes_of result ++ self.new }
        ensures some { IfSome result (λ piece. 0 < length piece.items) }
        ensures none { IfNone result (self.new ≡ []) }
    {
        let piece = take_first(self.alloc, &mut self.full, &mut self.last)?;
        self.len -= piece.len() as u64;
        Some(piece)
    }

    // Puts nothing more to the last piece, where it has some bytes, and begins another.
    fn begin_piece(&mut self) -> Result<(), AllocError>
        ensures { self.new ≡ self.old }
    {
        if self.last.is_empty() {
            return Ok(());
        }
        self.full.reserve(1)?;
        let next = Vec::with_capacity(self.alloc, PIECE)?;
        let done = mem::replace(&mut self.last, next);
        self.full.push_back_reserved(done);
        Ok(())
    }
}

// Takes the first of these pieces, or the last one where none of them is left.
fn take_first(alloc: Global, full: &mut VecDeque<Vec<u8>>, last: &mut Vec<u8>) -> Option<Vec<u8>>
    requires { AreFull full.old.items }
    ensures all { bytes_in full.old.items ++ last.old.items
        ≡ bytes_of result ++ (bytes_in full.new.items ++ last.new.items) }
    ensures full { AreFull full.new.items }
    ensures some { IfSome result (λ piece. 0 < length piece.items) }
    ensures none { IfNone result (bytes_in full.new.items ++ last.new.items ≡ []) }
{
    match full.pop_front() {
        Some(piece) => Some(piece),
        None => take_piece(alloc, last),
    }
}

// Takes a piece, where it has some bytes.
fn take_piece(alloc: Global, piece: &mut Vec<u8>) -> Option<Vec<u8>>
    ensures all { piece.old.items ≡ bytes_of result ++ piece.new.items }
    ensures some { IfSome result (λ taken. 0 < length taken.items) }
    ensures none { IfNone result (piece.new.items ≡ []) }
{
    if piece.is_empty() {
        return None;
    }
    Some(mem::replace(piece, Vec::new(alloc)))
}
