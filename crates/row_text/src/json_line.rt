//! A row as a JSON object.
ghost use Rattle.std.specs.Prelude.{◌≡◌, ◌++◌, OnOk};
ghost use Rattle.row_text.specs.Lines.{json_end, json_front, json_line, json_value};

use crate::csv_line::state_piece;
use crate::quoting::put_string;
use itoa::Buffer;
use report_lines::put_pieces;
use stream_base::{FINAL, NoMemory, Row, Shown};

/// Puts the object of a row of a shard, which is closed or open.
pub fn put_json(shard: usize, closed: bool, row: &Row, out: &mut Vec<u8>) -> Result<(), NoMemory>
    ensures { OnOk result (out.new.items ≡ out.old.items ++ json_line shard closed row.now) }
{
    put_front(shard, row, out)?;
    put_value(&row.shown, out)?;
    put_pieces(&[b",\"key\":"], out)?;
    put_string(row.key.bytes(), out)?;
    put_pieces(&[b",\"state\":\"", state_piece(closed), b"\"}\n"], out)
}

fn put_front(shard: usize, row: &Row, out: &mut Vec<u8>) -> Result<(), NoMemory>
    ensures { OnOk result (out.new.items ≡ out.old.items ++ json_front shard row.now) }
{
    let mut place = Buffer::new();
    let mut window = Buffer::new();
    let mut start = Buffer::new();
    let mut end = Buffer::new();
    let mut number = Buffer::new();
    let place = place.format(shard).as_bytes();
    let window = window.format(row.window).as_bytes();
    let low = start.format(row.low).as_bytes();
    let high = end_piece(row.high, &mut end);
    let number = number.format(row.number).as_bytes();
    let pieces: [&[u8]; 11] = [
        b"{\"shard\":",
        place,
        b",\"window\":",
        window,
        b",\"start\":",
        low,
        b",\"end\":",
        high,
        b",\"number\":",
        number,
        b",",
    ];
    put_pieces(&pieces, out)
}

fn put_value(shown: &Shown, out: &mut Vec<u8>) -> Result<(), NoMemory>
    ensures { OnOk result (out.new.items ≡ out.old.items ++ json_value shown.now) }
{
    let mut value = Buffer::new();
    let mut divisor = Buffer::new();
    match shown {
        Shown::Whole(number) => {
            put_pieces(&[b"\"value\":", value.format(*number).as_bytes()], out)
        }
        Shown::Ratio { sum, count } => {
            let sum = value.format(*sum).as_bytes();
            let count = divisor.format(*count).as_bytes();
            put_pieces(&[b"\"sum\":", sum, b",\"count\":", count], out)
        }
    }
}

// The end of an instance: null, where it is the final time.
fn end_piece(high: u64, buffer: &mut Buffer) -> &[u8]
    ensures { result.now ≡ json_end high }
{
    if high == FINAL {
        return b"null";
    }
    buffer.format(high).as_bytes()
}
