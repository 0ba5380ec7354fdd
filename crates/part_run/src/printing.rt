//! What is written: a text, or the line of a fault.
ghost use Rattle.std.specs.Prelude.{◌≡◌, ◌⊎◌};
ghost use Rattle.emission_text.specs.Sending.{Appends, Fails, Puts, Writes};
ghost use Rattle.part_run.specs.Faults.{SaysPart, part_fault_line, part_status};

use crate::part_fault::PartFault;
use byte_pieces::Pieces;
use emission_text::{Pending, SinkFault, put_numbered, put_pieces, write_fault};
use itoa::Buffer;
use outside::Sink;
use run_inputs::{Status, status_of};

/// Writes a text.
pub fn print_text<K: Sink>(text: &[u8], sink: &mut K) -> Status
    ensures either { (result ≡ Status.Done) ⊎ (result ≡ Status.WriteFault) }
    ensures done { result ≡ Status.Done
        → Appends K.taken K.faults text.now sink.old sink.new }
    ensures failed { result ≡ Status.WriteFault
        → Fails K.taken K.faults text.now sink.old sink.new }
{
    match write_text(text, sink) {
        Ok(()) => Status::Done,
        Err(_) => Status::WriteFault,
    }
}

fn write_text<K: Sink>(text: &[u8], sink: &mut K) -> Result<(), SinkFault>
    ensures { Writes K.taken K.faults text.now sink.old sink.new result }
{
    let mut out = Pending::new();
    out.add(text, sink)?;
    out.flush(sink)
}

/// Writes bytes that are held in pieces, each of which is freed behind its write.
pub fn print_pieces<K: Sink>(pieces: Pieces, sink: &mut K) -> Status
    ensures either { (result ≡ Status.Done) ⊎ (result ≡ Status.WriteFault) }
    ensures done { result ≡ Status.Done → Appends K.taken K.faults pieces sink.old sink.new }
    ensures failed { result ≡ Status.WriteFault
        → Fails K.taken K.faults pieces sink.old sink.new }
{
    match write_pieces(pieces, sink) {
        Ok(()) => Status::Done,
        Err(_) => Status::WriteFault,
    }
}

fn write_pieces<K: Sink>(pieces: Pieces, sink: &mut K) -> Result<(), SinkFault>
    ensures { Writes K.taken K.faults pieces sink.old sink.new result }
{
    let mut out = Pending::new();
    add_pieces(pieces, &mut out, sink)?;
    out.flush(sink)
}

fn add_pieces<K: Sink>(mut pieces: Pieces, out: &mut Pending, sink: &mut K) -> Result<(), SinkFault>
    ensures { Puts K.taken K.faults pieces out.old out.new sink.old sink.new result }
{
    'pieces: while let Some(piece) = pieces.next_piece() {
        out.add(&piece, sink)?;
    }
    Ok(())
}

/// Writes the line of a fault, and answers its status.
pub fn print_fault<K: Sink>(fault: &PartFault, sink: &mut K) -> Status
    ensures status { result ≡ part_status fault.now }
    ensures said { SaysPart K.taken K.faults fault.now sink.old sink.new }
{
    let _ = write_part_fault(fault, sink);
    status_of_part(fault)
}

fn status_of_part(fault: &PartFault) -> Status
    ensures { result ≡ part_status fault.now }
{
    match fault {
        PartFault::Run(fault) => status_of(fault),
        PartFault::LongPart => Status::Full,
        PartFault::UnreadDefs => Status::BadDefs,
        PartFault::NotReport { .. } | PartFault::Misplaced { .. } => Status::Unlawful,
    }
}

fn write_part_fault<K: Sink>(fault: &PartFault, sink: &mut K) -> Result<(), SinkFault>
    ensures { Writes K.taken K.faults (part_fault_line fault.now) sink.old sink.new result }
{
    match fault {
        PartFault::Run(fault) => write_fault(fault, sink),
        PartFault::LongPart => write_text(b"fault full part\n", sink),
        PartFault::UnreadDefs => write_text(b"fault defs text\n", sink),
        PartFault::NotReport { report } => write_not_report(*report, sink),
        PartFault::Misplaced { report, number } => write_misplaced(*report, *number, sink),
    }
}

fn write_not_report<K: Sink>(report: u16, sink: &mut K) -> Result<(), SinkFault>
    ensures { Writes K.taken K.faults (part_fault_line (PartFault.NotReport report))
        sink.old sink.new result }
{
    let mut out = Pending::new();
    put_not_report(report, &mut out, sink)?;
    out.flush(sink)
}

fn put_not_report<K: Sink>(report: u16, out: &mut Pending, sink: &mut K) -> Result<(), SinkFault>
    ensures { Puts K.taken K.faults (part_fault_line (PartFault.NotReport report))
        out.old out.new sink.old sink.new result }
{
    put_numbered(b"fault report ", report, out, sink)
}

fn write_misplaced<K: Sink>(report: u16, number: u64, sink: &mut K) -> Result<(), SinkFault>
    ensures { Writes K.taken K.faults (part_fault_line (PartFault.Misplaced report number))
        sink.old sink.new result }
{
    let mut out = Pending::new();
    put_misplaced(report, number, &mut out, sink)?;
    out.flush(sink)
}

fn put_misplaced<K: Sink>(
    report: u16,
    number: u64,
    out: &mut Pending,
    sink: &mut K,
) -> Result<(), SinkFault>
    ensures { Puts K.taken K.faults (part_fault_line (PartFault.Misplaced report number))
        out.old out.new sink.old sink.new result }
{
    let mut first = Buffer::new();
    let mut second = Buffer::new();
    let report = first.format(report).as_bytes();
    let number = second.format(number).as_bytes();
    let front: &[u8] = b"fault entry ";
    put_pieces(&[front, report, b" ", number, b"\n"], out, sink)
}
