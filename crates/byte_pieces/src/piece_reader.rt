ghost use Rattle.std.specs.Prelude.{◌≡◌, Some};
ghost use Rattle.std.specs.Io.{ReadsAtMost};
ghost use Rattle.std.specs.Io.KnownBytes.{ReadConsumes};

use crate::pieces::Pieces;
use std::alloc::Global;
use std::io::{Read, Result};
use std::marker::Model;

/// A reader of bytes that are held in pieces, which frees a piece where it goes on to the next. A
/// contract sees the bytes that are left.
#[derive(Drop)]
pub struct PieceReader {
    piece: Vec<u8>,
    at: usize,
    later: Pieces,
}

impl Model for PieceReader {
    ghost use Rattle.std.specs.Prelude.{◌≤◌, ◌++◌, ℕ, List, drop, length};

    ghost Value = { List ℕ };

    ghost view = { λ r. drop r.at r.piece.items ++ r.later };

    ghost invariant = { λ r. r.at ≤ length r.piece.items };
}

impl PieceReader {
    /// The reader of these bytes, at their front.
    pub fn new(alloc: Global, pieces: Pieces) -> PieceReader
        ensures { result ≡ pieces }
    {
        PieceReader {
            piece: Vec::new(alloc),
            at: 0,
            later: pieces,
        }
    }
}

impl Read for PieceReader {
    ghost remaining = { λ r. Some r };

    fn read(&mut self, buf: &mut [u8]) -> Result<usize>
        ensures bound { ReadsAtMost result buf.new }
        ensures bytes { ReadConsumes (Some self.old) (Some self.new) result buf.new }
    {
        if self.at == self.piece.len() {
            if let Some(piece) = self.later.next_piece() {
                self.piece = piece;
                self.at = 0;
            }
        }
        let mut left: &[u8] = &self.piece[self.at..];
        let given = left.read(buf)?;
        self.at += given;
        Ok(given)
    }
}
