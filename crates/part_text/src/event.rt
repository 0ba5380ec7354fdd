//! The records of events.
ghost use Rattle.std.specs.Prelude.{◌≡◌, ◌≤◌, IfOk, OnOk, map};
ghost use Rattle.csv.specs.Writing.{default_writer, row_text};
ghost use Rattle.part_laws.specs.Parts.{event_text};
ghost use Rattle.part_text.specs.Writing.{IsBetween, WritesText, own_text};

use csv::{Writer, WriterBuilder};
use itoa::Buffer;
use source_feed::goes_to;
use std::alloc::Global;
use std::io::Write;
use stream_base::{NoMemory, What};

/// The record of an event, as CSV, where the event goes to this shard; and else nothing.
pub fn own_bytes(alloc: Global, what: &What, shards: u16, shard: u16) -> Result<Vec<u8>, NoMemory>
    requires { 1 ≤ shards }
    ensures { IfOk result (λ bytes. bytes.items ≡ own_text shards shard what.now) }
{
    let mut writer = WriterBuilder::new().from_writer(Vec::new(alloc));
    write_own(what, shards, shard, &mut writer)?;
    match writer.into_inner() {
        Ok(text) => Ok(text),
        Err(_) => Err(NoMemory),
    }
}

/// Writes the record of an event, where the event goes to this shard. What is under the writer has to
/// fail for want of memory alone.
pub fn write_own<W: Write + Drop>(
    what: &What,
    shards: u16,
    shard: u16,
    writer: &mut Writer<W>,
) -> Result<(), NoMemory>
    requires some { 1 ≤ shards }
    requires between { IsBetween writer.old }
    ensures { OnOk result (WritesText W.contents (own_text shards shard what.now)
        writer.old writer.new) }
{
    if goes_to(what, shards, shard) {
        write_event(what, writer)
    } else {
        Ok(())
    }
}

// Writes the record of an event; nothing of an end.
fn write_event<W: Write + Drop>(what: &What, writer: &mut Writer<W>) -> Result<(), NoMemory>
    requires { IsBetween writer.old }
    ensures { OnOk result (WritesText W.contents (event_text what.now) writer.old writer.new) }
{
    let mut moment = Buffer::new();
    let mut number = Buffer::new();
    match what {
        What::Tuple { key, time, value } => {
            let time = moment.format(*time).as_bytes();
            let value = number.format(*value).as_bytes();
            let fields: [&[u8]; 4] = [b"t", time, value, key.bytes()];
            write_row(&fields, writer)
        }
        What::Mark { key, time } => {
            let time = moment.format(*time).as_bytes();
            let fields: [&[u8]; 4] = [b"m", time, b"", key.bytes()];
            write_row(&fields, writer)
        }
        What::Water { time } => {
            let time = moment.format(*time).as_bytes();
            let fields: [&[u8]; 4] = [b"w", time, b"", b""];
            write_row(&fields, writer)
        }
        What::Idle => {
            let fields: [&[u8]; 4] = [b"i", b"", b"", b""];
            write_row(&fields, writer)
        }
        What::End => Ok(()),
    }
}

// Writes one record.
fn write_row<W: Write + Drop>(fields: &[&[u8]], writer: &mut Writer<W>) -> Result<(), NoMemory>
    requires { IsBetween writer.old }
    ensures { OnOk result (WritesText W.contents
        (row_text default_writer (map (λ f. f.now) fields.now)) writer.old writer.new) }
{
    match writer.write_fields(fields) {
        Ok(()) => Ok(()),
        Err(_) => Err(NoMemory),
    }
}
