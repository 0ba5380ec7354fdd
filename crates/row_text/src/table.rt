//! The lines of all rows.
ghost use Rattle.std.specs.Prelude.{◌≡◌, ◌++◌, ◌∷◌, [], OnOk, filter};
ghost use Rattle.std.specs.List.{flat_map};
ghost use Rattle.report_rows.specs.Closed.{is_closed};
ghost use Rattle.row_text.specs.Lines.{header_of, is_asked, lines_from, row_line, rows_text, shard_lines};

use crate::csv_line::put_csv;
use crate::format::Format;
use crate::json_line::put_json;
use report_lines::put_pieces;
use report_rows::ShardRows;
use std::alloc::Global;
use stream_base::{NoMemory, Row};

/// Puts the lines of the rows of shards behind a text: those of one key, or with an empty text in its
/// place all of them.
pub fn put_rows(
    alloc: Global,
    format: Format,
    key: &[u8],
    shards: &[ShardRows],
    out: &mut Vec<u8>,
) -> Result<(), NoMemory>
    ensures { OnOk result (out.new.items ≡ out.old.items
        ++ rows_text format key.now shards.now) }
{
    put_header(format, out)?;
    put_shards(alloc, format, key, shards, out)
}

fn put_header(format: Format, out: &mut Vec<u8>) -> Result<(), NoMemory>
    ensures { OnOk result (out.new.items ≡ out.old.items ++ header_of format) }
{
    match format {
        Format::Csv => {
            let names = b"shard,window,start,end,number,value,sum,count,key,state\n";
            put_pieces(&[names], out)
        }
        Format::Json => Ok(()),
    }
}

fn put_shards(
    alloc: Global,
    format: Format,
    key: &[u8],
    shards: &[ShardRows],
    out: &mut Vec<u8>,
) -> Result<(), NoMemory>
    ensures { OnOk result (out.new.items ≡ out.old.items
        ++ lines_from format key.now 0 shards.now) }
{
    for shard in 0..shards.len() {
        put_shard(alloc, format, key, shard, &shards[shard], out)?;
    }
    Ok(())
}

fn put_shard(
    alloc: Global,
    format: Format,
    key: &[u8],
    number: usize,
    shard: &ShardRows,
    out: &mut Vec<u8>,
) -> Result<(), NoMemory>
    ensures { OnOk result (out.new.items ≡ out.old.items
        ++ shard_lines format key.now number shard.now) }
{
    let rows = shard.rows(alloc)?;
    put_asked(format, key, number, shard.is_closed(), &rows, out)
}

fn put_asked(
    format: Format,
    key: &[u8],
    number: usize,
    closed: bool,
    rows: &[Row],
    out: &mut Vec<u8>,
) -> Result<(), NoMemory>
    ensures { OnOk result (out.new.items ≡ out.old.items
        ++ flat_map (row_line format number closed)
        (filter (is_asked key.now) rows.now)) }
{
    for row in rows {
        put_if_asked(format, key, number, closed, row, out)?;
    }
    Ok(())
}

fn put_if_asked(
    format: Format,
    key: &[u8],
    number: usize,
    closed: bool,
    row: &Row,
    out: &mut Vec<u8>,
) -> Result<(), NoMemory>
    ensures { OnOk result (out.new.items ≡ out.old.items
        ++ flat_map (row_line format number closed)
        (filter (is_asked key.now) (row.now ∷ []))) }
{
    if is_asked(key, row) {
        put_row(format, number, closed, row, out)
    } else {
        Ok(())
    }
}

fn put_row(
    format: Format,
    number: usize,
    closed: bool,
    row: &Row,
    out: &mut Vec<u8>,
) -> Result<(), NoMemory>
    ensures { OnOk result (out.new.items ≡ out.old.items ++ row_line format number closed row.now) }
{
    match format {
        Format::Csv => put_csv(number, closed, row, out),
        Format::Json => put_json(number, closed, row, out),
    }
}

fn is_asked(key: &[u8], row: &Row) -> bool
    ensures { result ≡ is_asked key.now row.now }
{
    key.is_empty() || row.key.bytes() == key
}
