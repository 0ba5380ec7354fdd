ghost use Rattle.std.specs.Prelude.{◌≡◌, ◌≤◌, ◌<◌, ◌+◌, ◌^◌, length, IfOk};
ghost use Rattle.csv.specs.Records.{fields_of};
ghost use Rattle.source_feed.specs.RecordsLeft.{IsReadable, records_left};
ghost use Rattle.source_feed.specs.EventsLeft.{TookData, TookEvent};

use crate::record::{is_header, what_of};
use crate::records::next_record;
use crate::row_fault::RowFault;
use csv::{ByteRecord, Reader};
use std::io::Read;
use stream_base::{NoMemory, What};

// The event of the next record, past a header in the first place, and nothing where no record is
// left. `number` is how many records were read.
pub fn next_event<R: Read>(
    reader: &mut Reader<R>,
    fields: &mut ByteRecord,
    number: &mut u64,
) -> Result<Option<What>, RowFault>
    requires readable { IsReadable R.remaining reader.old }
    requires few { number.old + length (records_left R.remaining reader.old) < 2 ^ 64 }
    ensures { TookEvent R.remaining number.old number.new reader.old reader.new result }
{
    if !next_data(reader, fields, number)? {
        return Ok(None);
    }
    match what_of(fields) {
        Ok(what) => Ok(Some(what)),
        Err(why) => Err(RowFault::Refused {
            number: *number,
            why,
        }),
    }
}

// Puts the next record into `fields`, past a header in the first place, and answers whether there
// was one.
fn next_data<R: Read>(
    reader: &mut Reader<R>,
    fields: &mut ByteRecord,
    number: &mut u64,
) -> Result<bool, NoMemory>
    requires readable { IsReadable R.remaining reader.old }
    requires few { number.old + length (records_left R.remaining reader.old) < 2 ^ 64 }
    ensures { IfOk result (TookData R.remaining number.old number.new
        reader.old reader.new (fields_of fields.new)) }
{
    if !next_record(reader, fields)? {
        return Ok(false);
    }
    *number += 1;
    if *number != 1 || !is_header(fields) {
        return Ok(true);
    }
    *number += 1;
    next_record(reader, fields)
}
