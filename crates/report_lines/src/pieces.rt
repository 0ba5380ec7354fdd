//! Pieces of text, put behind a text.
ghost use Rattle.std.specs.Prelude.{◌≡◌, ◌++◌, OnOk};
ghost use Rattle.std.specs.List.{flat_map};
ghost use Rattle.stream_base.specs.Model.Text.{end_text};

use itoa::Buffer;
use stream_base::{FINAL, NoMemory};

/// Puts pieces of text one behind the other.
pub fn put_pieces(pieces: &[&[u8]], out: &mut Vec<u8>) -> Result<(), NoMemory>
    ensures { OnOk result
        (out.new.items ≡ out.old.items ++ flat_map (λ piece. piece.now) pieces.now) }
{
    for piece in pieces {
        out.extend_from_slice(piece)?;
    }
    Ok(())
}

/// The end of an instance: a word, where it is the final time.
pub fn end_piece(high: u64, buffer: &mut Buffer) -> &[u8]
    ensures { result.now ≡ end_text high }
{
    if high == FINAL {
        return b"end";
    }
    buffer.format(high).as_bytes()
}
