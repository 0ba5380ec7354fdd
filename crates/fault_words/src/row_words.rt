//! Which record is refused, and what is wrong in it.

use crate::again::Again;
use crate::file_words::put_file;
use crate::help::Help;
use crate::lines::line_from;
use csv::{ByteRecord, ReaderBuilder};
use source_feed::RowWhy;
use std::alloc::Global;

/// A record, by its number from 1, and what is wrong in it.
pub fn put_row<A: Again>(
    alloc: Global,
    name: &str,
    number: u64,
    why: RowWhy,
    again: &mut A,
    help: &mut Help,
) {
    help.say(&["scotty: "]);
    put_file("source", name, help);
    match again.bytes(name) {
        Some(bytes) => put_row_of(alloc, &bytes, number, why, help),
        None => {
            help.say(&[", record "]);
            help.number(number);
            help.say(&[
                " is refused, and can't be shown, since it can't be read a second time: ",
                rule(why),
                "\n",
            ]);
        }
    }
}

fn put_row_of(alloc: Global, bytes: &[u8], number: u64, why: RowWhy, help: &mut Help) {
    let Some(fields) = record_of(alloc, bytes, number) else {
        help.say(&[" has changed since it was read\n"]);
        return;
    };
    let (line, start) = place_of(bytes, &fields);
    help.say(&[", line "]);
    help.number(line);
    help.say(&[" (record "]);
    help.number(number);
    help.say(&["): "]);
    help.quote(line_from(bytes, start));
    help.say(&[" is refused: "]);
    put_reason(why, number, &fields, help);
    help.say(&["\n"]);
}

// The record of this number, from 1.
fn record_of(alloc: Global, bytes: &[u8], number: u64) -> Option<ByteRecord> {
    let mut reader = ReaderBuilder::new()
        .has_headers(false)
        .flexible(true)
        .from_reader(alloc, bytes);
    let mut fields = ByteRecord::new(alloc);
    for _ in 0..number {
        match reader.read_byte_record(&mut fields) {
            Ok(true) => {}
            _ => return None,
        }
    }
    Some(fields)
}

// The number of a record's line, and the place of its first byte, past the line feeds in front of it.
fn place_of(bytes: &[u8], fields: &ByteRecord) -> (u64, usize) {
    let Some(position) = fields.position() else {
        return (0, 0);
    };
    let mut line = position.line();
    let start = (position.byte() as usize).min(bytes.len());
    for place in start..bytes.len() {
        match bytes[place] {
            b'\n' => line = line.saturating_add(1),
            b'\r' => {}
            _ => return (line, place),
        }
    }
    (line, start)
}

// What is wrong in the fields of a record that is refused for this.
fn put_reason(why: RowWhy, number: u64, fields: &ByteRecord, help: &mut Help) {
    match why {
        RowWhy::Kind => put_kind(number, fields, help),
        RowWhy::Fields => put_count(fields, help),
        RowWhy::Time => put_time(field(fields, 1), help),
        RowWhy::Value => put_value(field(fields, 2), help),
        RowWhy::Key => put_key(field(fields, 3), help),
    }
}

fn put_kind(number: u64, fields: &ByteRecord, help: &mut Help) {
    let first = field(fields, 0);
    if first == b"kind".as_slice() {
        return help.say(&[if number == 1 {
            "a header is exactly kind,time,value,key"
        } else {
            "a header stands in the first record alone"
        }]);
    }
    help.quote(first);
    help.say(&[
        " is no kind of record: a record begins with t (a tuple), m (a mark), w (a watermark) or i (idle)",
    ]);
    if first.contains(&b';') || first.contains(&b'\t') {
        help.say(&[", and its fields are parted by commas"]);
    } else if first.contains(&b' ') {
        help.say(&[", and blanks count"]);
    }
}

fn put_count(fields: &ByteRecord, help: &mut Help) {
    let form = match field(fields, 0) {
        b"t" => "a tuple is t,TIME,VALUE,KEY",
        b"m" => "a mark is m,TIME,,KEY, with nothing for a value",
        b"w" => "a watermark is w,TIME or w,TIME,,",
        _ => "that a source is idle is told by i or i,,,",
    };
    help.say(&[form, ", and this record has "]);
    help.number(fields.len());
    help.say(&[" fields"]);
}

fn put_time(text: &[u8], help: &mut Help) {
    if text.is_empty() {
        return help.say(&["TIME is empty: it is 1 to 19 digits, for example seconds since 1970"]);
    }
    if !are_digits(text) {
        help.say(&["TIME is 1 to 19 digits: "]);
        help.quote(text);
        return help.say(&[" has others; times are whole numbers, for example seconds since 1970"]);
    }
    help.say(&["TIME is 1 to 19 digits, and at most 10^15: "]);
    help.quote(text);
    help.say(&[" is more; take a coarser unit, for example milliseconds since 1970"]);
}

fn put_value(text: &[u8], help: &mut Help) {
    let digits = match text {
        [b'+' | b'-', digits @ ..] => digits,
        _ => text,
    };
    if text.is_empty() {
        return help.say(&[
            "VALUE is empty: it is at most one sign and 1 to 19 digits; to count alone, give 1",
        ]);
    }
    if !are_digits(digits) {
        help.say(&["VALUE is at most one sign and 1 to 19 digits: "]);
        help.quote(text);
        return help.say(&[" has others; values are whole numbers, for example cents"]);
    }
    help.say(&["VALUE is at most one sign and 1 to 19 digits, from -2^63 to 2^63 - 1: "]);
    help.quote(text);
    help.say(&[" is beyond"]);
}

fn put_key(text: &[u8], help: &mut Help) {
    if text.is_empty() {
        return help.say(&[
            "KEY is empty: it is 1 to 64 bytes; where there is only one, give it any name",
        ]);
    }
    if text.len() > 64 {
        help.say(&["KEY is 1 to 64 bytes, and this has "]);
        return help.number(text.len());
    }
    help.say(&["KEY has no control characters: "]);
    help.quote(text);
    help.say(&[" has one"]);
}

// What a record has to be, by that for which one is refused.
fn rule(why: RowWhy) -> &'static str {
    match why {
        RowWhy::Kind =>
            "a record begins with t, m, w or i, and a header stands in the first one alone",
        RowWhy::Fields => "the records are t,TIME,VALUE,KEY and m,TIME,,KEY and w,TIME and i",
        RowWhy::Time => "TIME is 1 to 19 digits, and at most 10^15",
        RowWhy::Value => "VALUE is at most one sign and 1 to 19 digits, from -2^63 to 2^63 - 1",
        RowWhy::Key => "KEY is 1 to 64 bytes, without control characters",
    }
}

fn are_digits(text: &[u8]) -> bool {
    !text.is_empty() && text.iter().all(|byte| byte.is_ascii_digit())
}

// A field of a record by its place; where there is none, no bytes.
fn field(fields: &ByteRecord, place: usize) -> &[u8] {
    fields.get(place).unwrap_or(b"")
}
