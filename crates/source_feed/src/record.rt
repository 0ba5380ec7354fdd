ghost use Rattle.std.specs.Prelude.{◌≡◌, true, IfOk};
ghost use Rattle.csv.specs.Records.{fields_of};
ghost use Rattle.stream_base.specs.Key.{is_key};
ghost use Rattle.source_feed.specs.EventsLeft.{Spells};
ghost use Rattle.source_feed.specs.Record.{field, idle_of, is_header, key_in, mark_of, tuple_of, water_of, what_of};

use crate::numbers::{time_in, value_in};
use crate::row_why::RowWhy;
use csv::ByteRecord;
use stream_base::{KeyText, What};

// Whether a record names the fields of the records after it.
pub fn is_header(fields: &ByteRecord) -> bool
    ensures { result ≡ is_header (fields_of fields.now) }
{
    fields.len() == 4
        && field(fields, 0) == b"kind".as_slice()
        && field(fields, 1) == b"time".as_slice()
        && field(fields, 2) == b"value".as_slice()
        && field(fields, 3) == b"key".as_slice()
}

// The event of a record, or its first fault.
pub fn what_of(fields: &ByteRecord) -> Result<What, RowWhy>
    ensures { Spells what_of (fields_of fields.now) result }
{
    match field(fields, 0) {
        b"t" => tuple_of(fields),
        b"m" => mark_of(fields),
        b"w" => water_of(fields),
        b"i" => idle_of(fields),
        _ => Err(RowWhy::Kind),
    }
}

fn tuple_of(fields: &ByteRecord) -> Result<What, RowWhy>
    ensures { Spells tuple_of (fields_of fields.now) result }
{
    if fields.len() != 4 {
        return Err(RowWhy::Fields);
    }
    let time = time_in(field(fields, 1))?;
    let value = value_in(field(fields, 2))?;
    let key = key_in(field(fields, 3))?;
    Ok(What::Tuple { key, time, value })
}

fn mark_of(fields: &ByteRecord) -> Result<What, RowWhy>
    ensures { Spells mark_of (fields_of fields.now) result }
{
    if fields.len() != 4 || !field(fields, 2).is_empty() {
        return Err(RowWhy::Fields);
    }
    let time = time_in(field(fields, 1))?;
    let key = key_in(field(fields, 3))?;
    Ok(What::Mark { key, time })
}

fn water_of(fields: &ByteRecord) -> Result<What, RowWhy>
    ensures { Spells water_of (fields_of fields.now) result }
{
    let is_short = fields.len() == 2;
    let is_padded = fields.len() == 4 && field(fields, 2).is_empty() && field(fields, 3).is_empty();
    if !is_short && !is_padded {
        return Err(RowWhy::Fields);
    }
    let time = time_in(field(fields, 1))?;
    Ok(What::Water { time })
}

fn idle_of(fields: &ByteRecord) -> Result<What, RowWhy>
    ensures { Spells idle_of (fields_of fields.now) result }
{
    let is_short = fields.len() == 1;
    let is_padded = fields.len() == 4
        && field(fields, 1).is_empty()
        && field(fields, 2).is_empty()
        && field(fields, 3).is_empty();
    if !is_short && !is_padded {
        return Err(RowWhy::Fields);
    }
    Ok(What::Idle)
}

fn key_in(text: &[u8]) -> Result<KeyText, RowWhy>
    ensures value { result ≡ key_in text.now }
    ensures valid { IfOk result (λ key. is_key key ≡ true) }
{
    match KeyText::from_bytes(text) {
        Ok(key) => Ok(key),
        Err(_) => Err(RowWhy::Key),
    }
}

// A field of a record by its place; where there is none, no bytes.
fn field(fields: &ByteRecord, place: usize) -> &[u8]
    ensures { result.now ≡ field (fields_of fields.now) place }
{
    fields.get(place).unwrap_or(b"")
}
