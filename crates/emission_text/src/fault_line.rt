//! The lines of faults.
ghost use Rattle.std.specs.Prelude.{◌≡◌, ◌++◌, ◌∷◌, [], codes};
ghost use Rattle.std.specs.Option.{option_map_or};
ghost use Rattle.stream_base.specs.Model.Text.{line_of};
ghost use Rattle.emission_text.specs.DefsFaults.{defs_words, why_text};
ghost use Rattle.emission_text.specs.Faults.{fault_line};
ghost use Rattle.emission_text.specs.Sending.{Puts, Writes};

use crate::fault::Fault;
use crate::pending::Pending;
use crate::pieces::{put_numbered, put_pieces};
use crate::sink_fault::SinkFault;
use itoa::{Buffer, Integer};
use outside::Sink;
use source_feed::RowWhy;
use window_defs::DefsFault;

/// Writes the line of a fault. `Write` is answered where a write of the sink failed, and then a
/// prefix of the line went out.
pub fn write_fault<K: Sink>(fault: &Fault, sink: &mut K) -> Result<(), SinkFault>
    ensures { Writes K.taken K.faults (fault_line fault.now) sink.old sink.new result }
{
    let mut out = Pending::new();
    put_fault(fault, &mut out, sink)?;
    out.flush(sink)
}

fn put_fault<K: Sink>(fault: &Fault, out: &mut Pending, sink: &mut K) -> Result<(), SinkFault>
    ensures { Puts K.taken K.faults (fault_line fault.now)
        out.old out.new sink.old sink.new result }
{
    match fault {
        Fault::Usage => put_pieces(&[b"fault usage\n"], out, sink),
        Fault::Defs(fault) => put_defs_fault(fault, out, sink),
        Fault::Unopened { place } => put_placed(b"fault open ", b"defs", *place, out, sink),
        Fault::Row {
            source,
            number,
            why,
        } => put_record_fault(*source, *number, *why, out, sink),
        Fault::Read { place } => put_placed(b"fault read ", b"defs", *place, out, sink),
        Fault::FullSource { source } => put_numbered(b"fault full source ", *source, out, sink),
        Fault::FullShard { shard } => put_numbered(b"fault full shard ", *shard, out, sink),
        Fault::ReportOpen => put_pieces(&[b"fault open report\n"], out, sink),
        Fault::ReportRead => put_pieces(&[b"fault read report\n"], out, sink),
        Fault::ReportFull => put_pieces(&[b"fault full report\n"], out, sink),
        Fault::NoMemory => put_pieces(&[b"fault memory\n"], out, sink),
    }
}

fn put_defs_fault<K: Sink>(
    fault: &DefsFault,
    out: &mut Pending,
    sink: &mut K,
) -> Result<(), SinkFault>
    ensures { Puts K.taken K.faults (line_of (codes "fault" ∷ defs_words fault.now))
        out.old out.new sink.old sink.new result }
{
    match fault {
        DefsFault::Long => put_pieces(&[b"fault defs long\n"], out, sink),
        DefsFault::Toml => put_pieces(&[b"fault defs toml\n"], out, sink),
        DefsFault::Many => put_pieces(&[b"fault defs many\n"], out, sink),
        DefsFault::Shape { window } => put_placed(b"fault defs shape ", b"top", *window, out, sink),
        DefsFault::Limit { window } => put_placed(b"fault defs limit ", b"top", *window, out, sink),
        DefsFault::NoMemory => put_pieces(&[b"fault memory\n"], out, sink),
    }
}

fn put_record_fault<K: Sink>(
    source: u16,
    number: u64,
    why: RowWhy,
    out: &mut Pending,
    sink: &mut K,
) -> Result<(), SinkFault>
    ensures { Puts K.taken K.faults (fault_line (Fault.Row source number why))
        out.old out.new sink.old sink.new result }
{
    let mut first = Buffer::new();
    let mut second = Buffer::new();
    let source = first.format(source).as_bytes();
    let number = second.format(number).as_bytes();
    let front: &[u8] = b"fault row ";
    let why = why_word(why);
    put_pieces(&[front, source, b" ", number, b" ", why, b"\n"], out, sink)
}

fn why_word(why: RowWhy) -> &'static [u8]
    ensures { result.now ≡ why_text why }
{
    match why {
        RowWhy::Kind => b"kind",
        RowWhy::Fields => b"fields",
        RowWhy::Time => b"time",
        RowWhy::Value => b"value",
        RowWhy::Key => b"key",
    }
}

// Puts a line that ends with a place, or with a word where there is none.
fn put_placed<N: Integer, K: Sink>(
    front: &[u8],
    word: &[u8],
    place: Option<N>,
    out: &mut Pending,
    sink: &mut K,
) -> Result<(), SinkFault>
    ensures { Puts K.taken K.faults
        (front.now ++ (option_map_or N.text place word.now ++ 10 ∷ []))
        out.old out.new sink.old sink.new result }
{
    match place {
        None => put_pieces(&[front, word, b"\n"], out, sink),
        Some(number) => put_numbered(front, number, out, sink),
    }
}
