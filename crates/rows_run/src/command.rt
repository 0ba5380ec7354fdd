//! The top call.
ghost use Rattle.std.specs.Prelude.{◌≡◌, ◌++◌, ◌∷◌, [], ℕ, None, Some, length, map, string_bytes, IfOk};
ghost use Rattle.row_text.specs.Lines.{rows_text};
ghost use Rattle.rows_run.specs.Answer.{IsAnswer, IsSent, IsToldBy, Says};
ghost use Rattle.outside.specs.Outside.{Came};
ghost use Rattle.rows_run.specs.Sending.{Writes};
ghost use Rattle.rows_run.specs.Statuses.{fault_line, status_of};
ghost use Rattle.rows_run.specs.Words.{Asked, asked_by};

use crate::fault::RowsFault;
use crate::reading::read_report;
use crate::sending::{write_all, write_three};
use crate::status::{Status, status_of};
use crate::words::{RowsWords, words_of};
use itoa::Buffer;
use outside::{Failed, Files, Sink};
use report_rows::ShardRows;
use row_text::put_rows;
use std::alloc::Global;
use stream_base::NoMemory;

/// Writes the rows that stand by a report, as the words ask for it, over any files and any sink. The
/// report is read to its end before the first row is written; a text that is no report is answered with
/// the number of the first line that may not stand where it does.
///
/// The report is opened once, and nothing else is; it is given back.
pub fn rows<F: Files, K: Sink>(
    alloc: Global,
    words: &[String],
    files: &mut F,
    sink: &mut K,
) -> Status
    ensures answer { (w : Asked) → asked_by (map string_bytes words.now) ≡ Some w
        → IsAnswer K.taken K.faults w (length (F.asked files.old))
        (F.came files.new (length (F.asked files.old))) sink.old sink.new result }
    ensures opens { (w : Asked) → asked_by (map string_bytes words.now) ≡ Some w
        → F.asked files.new ≡ F.asked files.old ++ w.report ∷ [] }
    ensures usage { asked_by (map string_bytes words.now) ≡ None → result ≡ Status.Usage }
    ensures usage_said { asked_by (map string_bytes words.now) ≡ None
        → Says K.taken K.faults RowsFault.Usage sink.old sink.new }
    ensures unopened { asked_by (map string_bytes words.now) ≡ None → files.new ≡ files.old }
{
    match words_of(words) {
        Some(command) => run(alloc, &command, files, sink),
        None => print_fault(&RowsFault::Usage, sink),
    }
}

fn run<F: Files, K: Sink>(alloc: Global, command: &RowsWords, files: &mut F, sink: &mut K) -> Status
    ensures answer { IsAnswer K.taken K.faults command.now (length (F.asked files.old))
        (F.came files.new (length (F.asked files.old))) sink.old sink.new result }
    ensures opens { F.asked files.new ≡ F.asked files.old ++ (command.now).report ∷ [] }
{
    match read_report(alloc, files, command.report) {
        Ok(shards) => write_rows(alloc, command, &shards, sink),
        Err(fault) => print_fault(&fault, sink),
    }
}

// Writes the rows of shards that a report told.
fn write_rows<K: Sink>(
    alloc: Global,
    command: &RowsWords,
    shards: &[ShardRows],
    sink: &mut K,
) -> Status
    ensures { (place : ℕ) (came : Came) → IsToldBy place came shards.now
        → IsAnswer K.taken K.faults command.now place came sink.old sink.new result }
{
    match text_of(alloc, command, shards) {
        Ok(text) => send(&text, sink),
        Err(_) => print_fault(&RowsFault::NoMemory, sink),
    }
}

fn text_of(alloc: Global, command: &RowsWords, shards: &[ShardRows]) -> Result<Vec<u8>, NoMemory>
    ensures { IfOk result (λ text. text.items
        ≡ rows_text (command.now).format (command.now).key shards.now) }
{
    let mut text = Vec::new(alloc);
    put_rows(
        alloc,
        command.format,
        command.key.as_bytes(),
        shards,
        &mut text,
    )?;
    Ok(text)
}

fn send<K: Sink>(text: &[u8], sink: &mut K) -> Status
    ensures { IsSent K.taken K.faults text.now sink.old sink.new result }
{
    match write_all(text, sink) {
        Ok(()) => Status::Done,
        Err(_) => Status::WriteFault,
    }
}

// Prints the line of a fault, and answers its status.
fn print_fault<K: Sink>(fault: &RowsFault, sink: &mut K) -> Status
    ensures status { result ≡ status_of fault.now }
    ensures said { Says K.taken K.faults fault.now sink.old sink.new }
{
    let _written = write_fault(fault, sink);
    status_of(fault)
}

fn write_fault<K: Sink>(fault: &RowsFault, sink: &mut K) -> Result<(), Failed>
    ensures { Writes K.taken K.faults (fault_line fault.now) sink.old sink.new result }
{
    match fault {
        RowsFault::Usage => write_all(b"fault usage\n", sink),
        RowsFault::Open => write_all(b"fault open report\n", sink),
        RowsFault::Read => write_all(b"fault read report\n", sink),
        RowsFault::Line(number) => {
            let mut digits = Buffer::new();
            let number = digits.format(*number).as_bytes();
            write_three(b"fault line ", number, b"\n", sink)
        }
        RowsFault::NoMemory => write_all(b"fault memory\n", sink),
    }
}
