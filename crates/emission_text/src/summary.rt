//! The summary of rows.
ghost use Rattle.stream_base.specs.Model.Final.{summary_of, window_lines};
ghost use Rattle.emission_text.specs.Sending.{Puts, Writes};
ghost use Rattle.emission_text.specs.Summary.{last_line, lines_behind, tally_line, windows_lines};

use crate::change_line::put_change;
use crate::pending::Pending;
use crate::pieces::{put_numbered, put_pieces};
use crate::sink_fault::SinkFault;
use crate::tally::Tally;
use itoa::Buffer;
use outside::Sink;
use report_lines::ReportForm;
use stream_base::{Change, Row};

/// Writes the summary of rows: a line with the number of tuples that were made; for each of so many
/// windows how many of the rows are its own, the sum of their numbers, and the line of the last of
/// them, where it has one; and at the end a last line. `Write` is answered where a write of the sink
/// failed, and then a prefix of the summary went out.
pub fn write_summary<K: Sink>(
    tuples: u64,
    windows: u32,
    rows: &[Row],
    sink: &mut K,
) -> Result<(), SinkFault>
    ensures { Writes K.taken K.faults (summary_of tuples windows rows.now)
        sink.old sink.new result }
{
    let mut out = Pending::new();
    put_summary(tuples, windows, rows, &mut out, sink)?;
    out.flush(sink)
}

fn put_summary<K: Sink>(
    tuples: u64,
    windows: u32,
    rows: &[Row],
    out: &mut Pending,
    sink: &mut K,
) -> Result<(), SinkFault>
    ensures { Puts K.taken K.faults (summary_of tuples windows rows.now)
        out.old out.new sink.old sink.new result }
{
    put_numbered(b"made ", tuples, out, sink)?;
    put_behind(windows, rows, out, sink)
}

// Puts the lines of the windows, and the last line.
fn put_behind<K: Sink>(
    windows: u32,
    rows: &[Row],
    out: &mut Pending,
    sink: &mut K,
) -> Result<(), SinkFault>
    ensures { Puts K.taken K.faults (lines_behind windows rows.now)
        out.old out.new sink.old sink.new result }
{
    put_windows(windows, rows, out, sink)?;
    put_pieces(&[b"end\n"], out, sink)
}

fn put_windows<K: Sink>(
    windows: u32,
    rows: &[Row],
    out: &mut Pending,
    sink: &mut K,
) -> Result<(), SinkFault>
    ensures { Puts K.taken K.faults (windows_lines windows rows.now)
        out.old out.new sink.old sink.new result }
{
    for window in 0..windows {
        put_window(window, rows, out, sink)?;
    }
    Ok(())
}

// Puts what the rows of a window come to, and the last of them.
fn put_window<K: Sink>(
    window: u32,
    rows: &[Row],
    out: &mut Pending,
    sink: &mut K,
) -> Result<(), SinkFault>
    ensures { Puts K.taken K.faults (window_lines rows.now window)
        out.old out.new sink.old sink.new result }
{
    let tally = Tally::of_window(window, rows);
    put_counts(window, tally.rows, tally.numbers, out, sink)?;
    put_last(&tally.last, out, sink)
}

// Puts how many rows a window has, and the sum of their numbers.
fn put_counts<K: Sink>(
    window: u32,
    rows: u64,
    numbers: u128,
    out: &mut Pending,
    sink: &mut K,
) -> Result<(), SinkFault>
    ensures { Puts K.taken K.faults (tally_line window rows numbers)
        out.old out.new sink.old sink.new result }
{
    let mut first = Buffer::new();
    let mut second = Buffer::new();
    let mut third = Buffer::new();
    let window = first.format(window).as_bytes();
    let rows = second.format(rows).as_bytes();
    let numbers = third.format(numbers).as_bytes();
    let pieces: [&[u8]; 7] = [b"window ", window, b" ", rows, b" ", numbers, b"\n"];
    put_pieces(&pieces, out, sink)
}

// Puts the line of the last row, where there is one.
fn put_last<K: Sink>(last: &Option<Row>, out: &mut Pending, sink: &mut K) -> Result<(), SinkFault>
    ensures { Puts K.taken K.faults (last_line last.now)
        out.old out.new sink.old sink.new result }
{
    match last {
        None => Ok(()),
        Some(row) => put_change(ReportForm::One, &Change::New(*row), out, sink),
    }
}
