//! Why definitions are refused: the top of their document.

use crate::again::Again;
use crate::def_words::{put_window_limit, put_window_shape};
use crate::file_words::{put_file, put_memory};
use crate::help::Help;
use crate::lines::{line_at, line_from, start_of_line};
use std::alloc::Global;
use stream_base::{EVERY_MAX, TIME_MAX};
use toml::{Table, Value};
use window_defs::{BYTES_MAX, DefsFault};

/// Why the definitions are refused: which key or value, and what is allowed there.
pub fn put_defs<A: Again>(
    alloc: Global,
    name: &str,
    fault: DefsFault,
    again: &mut A,
    help: &mut Help,
) {
    if fault == DefsFault::NoMemory {
        return put_memory(help);
    }
    help.say(&["scotty: "]);
    put_file("definitions", name, help);
    if fault == DefsFault::Long {
        help.say(&[" have more than "]);
        help.number(BYTES_MAX);
        return help.say(&[" bytes: is this a source?\n"]);
    }
    match again.bytes(name) {
        Some(bytes) => put_document(alloc, fault, &bytes, help),
        None => help.say(&[
            " can't be read a second time, so that it isn't told what is wrong in them",
        ]),
    }
    help.say(&["\n"]);
}

fn put_document(alloc: Global, fault: DefsFault, bytes: &[u8], help: &mut Help) {
    match toml::table_from_slice(alloc, bytes) {
        Ok(top) => put_fault(alloc, fault, &top, help),
        Err(error) => {
            let place = match error.span() {
                Some(span) => span.start,
                None => 0,
            };
            put_no_toml(bytes, place, error.message(), help);
        }
    }
}

fn put_no_toml(bytes: &[u8], place: usize, message: &str, help: &mut Help) {
    let line = line_at(bytes, place);
    help.say(&[", line "]);
    help.number(line);
    help.say(&[": "]);
    help.quote(line_from(bytes, start_of_line(bytes, line).unwrap_or(0)));
    help.say(&[" is no TOML: ", message]);
}

fn put_fault(alloc: Global, fault: DefsFault, top: &Table, help: &mut Help) {
    match fault {
        DefsFault::Shape { window: None } => put_top_shape(alloc, top, help),
        DefsFault::Limit { window: None } => put_top_limit(top, help),
        DefsFault::Shape { window: Some(i) } => put_window_shape(alloc, i, element(top, i), help),
        DefsFault::Limit { window: Some(i) } => put_window_limit(i, element(top, i), help),
        DefsFault::Many => put_many(top, help),
        _ => help.say(&[" have changed since they were read"]),
    }
}

fn put_many(top: &Table, help: &mut Help) {
    help.say(&[" have "]);
    help.number(elements(top).len());
    help.say(&[" windows, and there are 1 to 32 of them: each begins with a line [[window]]"]);
}

fn put_top_shape(alloc: Global, top: &Table, help: &mut Help) {
    if put_other_key(top, help) {
        return;
    }
    for key in ["lateness", "every", "disorder"] {
        if put_no_integer(alloc, top, key, help) {
            return;
        }
    }
    help.say(&[match top.get("window") {
        None => " have no window: each begins with a line [[window]], and needs kind and func",
        Some(_) =>
            ": window is no array of tables: write [[window]], in two brackets, in front of each",
    }]);
}

// Says which key at the top is none that is known, if there is one.
fn put_other_key(top: &Table, help: &mut Help) -> bool {
    for (key, _) in top {
        if !is_top_key(key.as_str()) {
            help.say(&[": "]);
            help.quote(key.as_bytes());
            help.say(&[" is no key at the top: these are lateness, every, disorder and window; "]);
            help.say(&["what a window has stands below its line [[window]]"]);
            return true;
        }
    }
    false
}

fn is_top_key(key: &str) -> bool {
    key == "lateness" || key == "every" || key == "disorder" || key == "window"
}

// Says that the value at this key is no integer, if it is there and isn't one.
fn put_no_integer(alloc: Global, top: &Table, key: &str, help: &mut Help) -> bool {
    let Some(value) = top.get(key) else {
        return false;
    };
    if value.is_integer() {
        return false;
    }
    help.say(&[": ", key, " is "]);
    put_value(alloc, value, help);
    help.say(&[
        ", and it is an integer with neither quotes nor a point: ",
        top_limit(key),
    ]);
    true
}

fn put_top_limit(top: &Table, help: &mut Help) {
    for (key, most) in [
        ("lateness", TIME_MAX),
        ("every", EVERY_MAX),
        ("disorder", TIME_MAX),
    ] {
        if put_beyond(top, key, most, help) {
            return;
        }
    }
}

// Says that the number at this key is beyond its limits, if it is.
fn put_beyond(top: &Table, key: &str, most: u64, help: &mut Help) -> bool {
    let Some(number) = integer_at(top, key) else {
        return false;
    };
    if u64::try_from(number).is_ok_and(|number| number <= most) {
        return false;
    }
    help.say(&[": ", key, " is "]);
    help.number(number);
    help.say(&[", and it is ", top_limit(key)]);
    true
}

fn top_limit(key: &str) -> &'static str {
    match key {
        "every" => "0 to 1000000, in tuples",
        _ => "0 to 10^15, in the time unit of the records",
    }
}

/// A value as it is written, and what it is.
pub fn put_value(alloc: Global, value: &Value, help: &mut Help) {
    match value.as_str() {
        Some(text) => help.quote(text.as_bytes()),
        None => {
            if let Ok(text) = value.to_string(alloc) {
                help.quote(text.as_bytes());
            }
        }
    }
    help.say(&[", of the type ", value.type_str()]);
}

/// The integer at a key, if one is there.
pub fn integer_at(table: &Table, key: &str) -> Option<i64> {
    table.get(key)?.as_integer()
}

// The windows as they stand in the document.
fn elements(top: &Table) -> &[Value] {
    match top.get("window") {
        Some(value) => match value.as_array() {
            Some(values) => values.as_slice(),
            None => &[],
        },
        None => &[],
    }
}

fn element(top: &Table, i: u32) -> Option<&Value> {
    elements(top).get(i as usize)
}
