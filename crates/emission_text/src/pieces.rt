//! Pieces of text, put behind what is pending.
ghost use Rattle.std.specs.Prelude.{◌++◌, ◌∷◌, []};
ghost use Rattle.std.specs.List.{flat_map};
ghost use Rattle.emission_text.specs.Sending.{Puts};

use crate::pending::Pending;
use crate::sink_fault::SinkFault;
use itoa::{Buffer, Integer};
use outside::Sink;

/// Puts pieces of text one behind the other.
pub fn put_pieces<K: Sink>(
    pieces: &[&[u8]],
    out: &mut Pending,
    sink: &mut K,
) -> Result<(), SinkFault>
    ensures { Puts K.taken K.faults (flat_map (λ piece. piece.now) pieces.now)
        out.old out.new sink.old sink.new result }
{
    for piece in pieces {
        out.add(piece, sink)?;
    }
    Ok(())
}

/// Puts a line that ends with a number.
pub fn put_numbered<N: Integer, K: Sink>(
    front: &[u8],
    number: N,
    out: &mut Pending,
    sink: &mut K,
) -> Result<(), SinkFault>
    ensures { Puts K.taken K.faults (front.now ++ (N.text number ++ 10 ∷ []))
        out.old out.new sink.old sink.new result }
{
    let mut digits = Buffer::new();
    put_pieces(&[front, digits.format(number).as_bytes(), b"\n"], out, sink)
}
