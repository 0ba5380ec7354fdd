ghost use Rattle.std.specs.Prelude.{◌≡◌, ◌≤◌, length, IfOk};
ghost use Rattle.csv.specs.Reading.{default_config, records, strip_bom};
ghost use Rattle.csv.specs.Records.{fields_of};
ghost use Rattle.source_feed.specs.RecordsLeft.{IsReadable, TookRecord, records_left, text_left};

use byte_pieces::{PieceReader, Pieces};
use csv::{ByteRecord, Reader, ReaderBuilder};
use std::alloc::Global;
use std::io::Read;
use stream_base::NoMemory;

// A reader of the records of these bytes, which frees those that it read. It takes off one byte order
// mark at their front.
pub fn reader_of(alloc: Global, bytes: Pieces) -> Reader<PieceReader>
    ensures readable { IsReadable text_left result }
    ensures left { records_left text_left result ≡ records default_config (strip_bom bytes) }
    ensures few { length (records_left text_left result) ≤ length bytes }
{
    ReaderBuilder::new()
        .has_headers(false)
        .flexible(true)
        .from_reader(alloc, PieceReader::new(alloc, bytes))
}

// Puts the next record into `fields`, and answers whether there was one.
pub fn next_record<R: Read>(
    reader: &mut Reader<R>,
    fields: &mut ByteRecord,
) -> Result<bool, NoMemory>
    requires { IsReadable R.remaining reader.old }
    ensures { IfOk result (TookRecord R.remaining reader.old reader.new (fields_of fields.new)) }
{
    reader.read_byte_record(fields).map_err(|_| NoMemory)
}
