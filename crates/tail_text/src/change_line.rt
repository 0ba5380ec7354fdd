//! The lines of changes.
ghost use Rattle.std.specs.Prelude.{◌∷◌, ◌++◌, [], codes, decimal};
ghost use Rattle.std.specs.List.{flat_map};
ghost use Rattle.stream_base.specs.Model.Text.{line_of, shown_text};
ghost use Rattle.emission_text.specs.Sending.{Puts};
ghost use Rattle.tail_windows.specs.Report.{tail_fields, tail_line};

use emission_text::{Pending, SinkFault, put_pieces};
use itoa::Buffer;
use outside::Sink;
use stream_base::{KeyText, Shown};
use tail_windows::{TailChange, TailRow};

// Puts the lines of changes, in their order.
pub(crate) fn put_changes<K: Sink>(
    changes: &[TailChange],
    out: &mut Pending,
    sink: &mut K,
) -> Result<(), SinkFault>
    ensures { Puts K.taken K.faults (flat_map tail_line changes.now)
        out.old out.new sink.old sink.new result }
{
    for change in changes {
        put_change(change, out, sink)?;
    }
    Ok(())
}

fn put_change<K: Sink>(
    change: &TailChange,
    out: &mut Pending,
    sink: &mut K,
) -> Result<(), SinkFault>
    ensures { Puts K.taken K.faults (tail_line change.now)
        out.old out.new sink.old sink.new result }
{
    match change {
        TailChange::New(row) => put_row(b"+", row, out, sink),
        TailChange::Again(row) => put_row(b"~", row, out, sink),
        TailChange::Dropped => put_pieces(&[b"x\n"], out, sink),
    }
}

// Puts the line of a row, behind the sign of its change.
fn put_row<K: Sink>(
    sign: &[u8],
    row: &TailRow,
    out: &mut Pending,
    sink: &mut K,
) -> Result<(), SinkFault>
    ensures { Puts K.taken K.faults (line_of (sign.now ∷ tail_fields row.now))
        out.old out.new sink.old sink.new result }
{
    put_front(sign, row, out, sink)?;
    put_shown(&row.shown, &row.key, out, sink)
}

// Puts the beginning of a row's line: the sign, the end of the period, and the number.
fn put_front<K: Sink>(
    sign: &[u8],
    row: &TailRow,
    out: &mut Pending,
    sink: &mut K,
) -> Result<(), SinkFault>
    ensures { Puts K.taken K.faults (sign.now ++ (32 ∷ (decimal (row.now).at
        ++ (32 ∷ (decimal (row.now).number ++ (32 ∷ [])))))) out.old out.new sink.old sink.new result }
{
    let mut end = Buffer::new();
    let mut count = Buffer::new();
    let at = end.format(row.at).as_bytes();
    let number = count.format(row.number).as_bytes();
    put_pieces(&[sign, b" ", at, b" ", number, b" "], out, sink)
}

// Puts the end of a row's line: its value as shown, and its key.
fn put_shown<K: Sink>(
    shown: &Shown,
    key: &KeyText,
    out: &mut Pending,
    sink: &mut K,
) -> Result<(), SinkFault>
    ensures { Puts K.taken K.faults (line_of (shown_text shown.now ∷ key.now ∷ []))
        out.old out.new sink.old sink.new result }
{
    let mut value = Buffer::new();
    let mut divisor = Buffer::new();
    let key = key.bytes();
    match shown {
        Shown::Whole(number) => {
            let number = value.format(*number).as_bytes();
            put_pieces(&[number, b" ", key, b"\n"], out, sink)
        }
        Shown::Ratio { sum, count } => {
            let sum = value.format(*sum).as_bytes();
            let count = divisor.format(*count).as_bytes();
            put_pieces(&[sum, b"/", count, b" ", key, b"\n"], out, sink)
        }
    }
}
