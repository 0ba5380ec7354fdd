//! The lines of reads.
ghost use Rattle.std.specs.Prelude.{◌≡◌, ◌≤◌, ◌++◌, ◌∷◌, [], decimal, length, map};
ghost use Rattle.board_text.specs.Lines.{counts_text, read_front};
ghost use Rattle.board_text.specs.Reads.{read_line, reader_lines, readers_lines, reads_text};
ghost use Rattle.emission_text.specs.Sending.{Puts, Writes};

use emission_text::{Pending, SinkFault, put_pieces};
use itoa::Buffer;
use live_board::Tally;
use outside::Sink;

/// Writes what readers have read of a board: a line for each read, with its reader, of how many
/// entries it is, and how many rows of each of the first `windows` windows stood then, by reader and
/// then in order; and at the end a last line. Readers are numbered from 0. `Write` is answered where
/// a write of the sink failed, and then a prefix of the text went out.
pub fn write_reads<K: Sink>(
    windows: u32,
    reads: &[Vec<Tally>],
    sink: &mut K,
) -> Result<(), SinkFault>
    requires { windows ≤ 32 }
    ensures { Writes K.taken K.faults (reads_text windows (map (λ v. v.items) reads.now))
        sink.old sink.new result }
{
    let mut out = Pending::new();
    put_reads(windows, reads, &mut out, sink)?;
    out.flush(sink)
}

fn put_reads<K: Sink>(
    windows: u32,
    reads: &[Vec<Tally>],
    out: &mut Pending,
    sink: &mut K,
) -> Result<(), SinkFault>
    requires { windows ≤ 32 }
    ensures { Puts K.taken K.faults (reads_text windows (map (λ v. v.items) reads.now))
        out.old out.new sink.old sink.new result }
{
    put_readers(windows, reads, out, sink)?;
    put_pieces(&[b"end\n"], out, sink)
}

fn put_readers<K: Sink>(
    windows: u32,
    reads: &[Vec<Tally>],
    out: &mut Pending,
    sink: &mut K,
) -> Result<(), SinkFault>
    requires { windows ≤ 32 }
    ensures { Puts K.taken K.faults (readers_lines windows 0 (map (λ v. v.items) reads.now))
        out.old out.new sink.old sink.new result }
{
    for (reader, list) in reads.iter().enumerate() {
        put_reader(windows, reader, list.as_slice(), out, sink)?;
    }
    Ok(())
}

// Puts the lines of one reader's reads.
fn put_reader<K: Sink>(
    windows: u32,
    reader: usize,
    reads: &[Tally],
    out: &mut Pending,
    sink: &mut K,
) -> Result<(), SinkFault>
    requires { windows ≤ 32 }
    ensures { Puts K.taken K.faults (reader_lines windows reader reads.now)
        out.old out.new sink.old sink.new result }
{
    for read in reads {
        put_read(windows, reader, read, out, sink)?;
    }
    Ok(())
}

fn put_read<K: Sink>(
    windows: u32,
    reader: usize,
    read: &Tally,
    out: &mut Pending,
    sink: &mut K,
) -> Result<(), SinkFault>
    requires { windows ≤ 32 }
    ensures { Puts K.taken K.faults (read_line windows reader read.now)
        out.old out.new sink.old sink.new result }
{
    put_front(reader, read.entries, out, sink)?;
    put_counts(&read.counts[..windows as usize], out, sink)
}

// Puts the reader, and the number of entries.
fn put_front<K: Sink>(
    reader: usize,
    entries: u64,
    out: &mut Pending,
    sink: &mut K,
) -> Result<(), SinkFault>
    ensures { Puts K.taken K.faults (read_front reader entries)
        out.old out.new sink.old sink.new result }
{
    let mut first = Buffer::new();
    let mut second = Buffer::new();
    let reader = first.format(reader).as_bytes();
    let entries = second.format(entries).as_bytes();
    put_pieces(&[b"b ", reader, b" ", entries], out, sink)
}

// Puts the counts, which end their line.
fn put_counts<K: Sink>(counts: &[u64], out: &mut Pending, sink: &mut K) -> Result<(), SinkFault>
    ensures { Puts K.taken K.faults (counts_text counts.now ++ 10 ∷ [])
        out.old out.new sink.old sink.new result }
{
    put_each(counts, out, sink)?;
    put_pieces(&[b"\n"], out, sink)
}

fn put_each<K: Sink>(counts: &[u64], out: &mut Pending, sink: &mut K) -> Result<(), SinkFault>
    ensures { Puts K.taken K.faults (counts_text counts.now)
        out.old out.new sink.old sink.new result }
{
    for count in counts {
        put_count(*count, out, sink)?;
    }
    Ok(())
}

fn put_count<K: Sink>(count: u64, out: &mut Pending, sink: &mut K) -> Result<(), SinkFault>
    ensures { Puts K.taken K.faults (32 ∷ decimal count)
        out.old out.new sink.old sink.new result }
{
    let mut digits = Buffer::new();
    put_pieces(&[b" ", digits.format(count).as_bytes()], out, sink)
}
