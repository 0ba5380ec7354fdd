//! A row as a line of comma-separated values.
ghost use Rattle.std.specs.Prelude.{◌≡◌, ◌++◌, OnOk};
ghost use Rattle.row_text.specs.Lines.{csv_end, csv_front, csv_line, csv_value, state_text};

use crate::quoting::put_field;
use itoa::Buffer;
use report_lines::{end_piece, put_pieces};
use stream_base::{NoMemory, Row, Shown};

/// Puts the line of a row of a shard, which is closed or open.
pub fn put_csv(shard: usize, closed: bool, row: &Row, out: &mut Vec<u8>) -> Result<(), NoMemory>
    ensures { OnOk result (out.new.items ≡ out.old.items ++ csv_line shard closed row.now) }
{
    put_front(shard, row, out)?;
    put_value(&row.shown, out)?;
    put_pieces(&[b","], out)?;
    put_field(row.key.bytes(), out)?;
    put_pieces(&[b",", state_piece(closed), b"\n"], out)
}

fn put_front(shard: usize, row: &Row, out: &mut Vec<u8>) -> Result<(), NoMemory>
    ensures { OnOk result (out.new.items ≡ out.old.items ++ csv_front shard row.now) }
{
    let mut place = Buffer::new();
    let mut window = Buffer::new();
    let mut start = Buffer::new();
    let mut end = Buffer::new();
    let mut number = Buffer::new();
    let place = place.format(shard).as_bytes();
    let window = window.format(row.window).as_bytes();
    let low = start.format(row.low).as_bytes();
    let high = end_piece(row.high, &mut end);
    let number = number.format(row.number).as_bytes();
    let pieces: [&[u8]; 10] = [
        place, b",", window, b",", low, b",", high, b",", number, b",",
    ];
    put_pieces(&pieces, out)
}

fn put_value(shown: &Shown, out: &mut Vec<u8>) -> Result<(), NoMemory>
    ensures { OnOk result (out.new.items ≡ out.old.items ++ csv_value shown.now) }
{
    let mut value = Buffer::new();
    let mut divisor = Buffer::new();
    match shown {
        Shown::Whole(number) => put_pieces(&[value.format(*number).as_bytes(), b",,"], out),
        Shown::Ratio { sum, count } => {
            let sum = value.format(*sum).as_bytes();
            let count = divisor.format(*count).as_bytes();
            put_pieces(&[b",", sum, b",", count], out)
        }
    }
}

/// The word for a shard's state.
pub fn state_piece(closed: bool) -> &'static [u8]
    ensures { result.now ≡ state_text closed }
{
    if closed { b"closed" } else { b"open" }
}
