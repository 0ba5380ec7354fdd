//! Why the definition of a window is refused.

use crate::defs_words::{integer_at, put_value};
use crate::help::Help;
use std::alloc::Global;
use stream_base::{LENGTH_RATIO_MAX, TIME_MAX};
use toml::{Table, Value};
use window_defs::{FUNCS, KINDS, func_named, is_kind, number_keys};

// The most tuples of a window of events, and of those that `last` shows.
pub const COUNT_MAX: u64 = 4_194_304;

/// Why the window of this number has a wrong shape: its kind, its function, or a key or value of it.
pub fn put_window_shape(alloc: Global, i: u32, element: Option<&Value>, help: &mut Help) {
    put_window(i, help);
    let Some(fields) = table_of(element) else {
        return help.say(&[" is no table: write [[window]] in front of its keys"]);
    };
    if is_kind(text_at(fields, "kind")) {
        put_of_kind(alloc, fields, help)
    } else {
        put_kind(alloc, fields.get("kind"), help)
    }
}

// What is wrong in a window whose kind is known.
fn put_of_kind(alloc: Global, fields: &Table, help: &mut Help) {
    if func_named(text_at(fields, "func")).is_none() {
        return put_func(alloc, fields.get("func"), help);
    }
    let numbers = number_keys(text_at(fields, "kind"));
    if put_other_key(fields, &numbers, help) {
        return;
    }
    for key in &numbers {
        if let Some(key) = *key
            && put_no_integer(alloc, fields, key, help)
        {
            return;
        }
    }
}

fn put_kind(alloc: Global, value: Option<&Value>, help: &mut Help) {
    put_word(alloc, "kind", value, help);
    help.say(&[": kind is one of "]);
    put_words(&KINDS, "\"", help);
}

fn put_func(alloc: Global, value: Option<&Value>, help: &mut Help) {
    put_word(alloc, "func", value, help);
    help.say(&[": func is one of "]);
    put_words(&FUNCS, "", help);
    match value.and_then(|value| value.as_str()) {
        Some("avg" | "average") => help.say(&[
            "; mean shows the sum and the count, so that nothing is rounded",
        ]),
        _ => help.say(&[", in quotes"]),
    }
}

// Words, each between such marks: all but the last with commas between them.
fn put_words(words: &[&str], mark: &str, help: &mut Help) {
    let last = words.len().saturating_sub(1);
    for (i, word) in words.iter().enumerate() {
        let between = if i == 0 {
            ""
        } else if i == last {
            " and "
        } else {
            ", "
        };
        help.say(&[between, mark, word, mark]);
    }
}

// The value at a key that needs a word.
fn put_word(alloc: Global, key: &str, value: Option<&Value>, help: &mut Help) {
    match value {
        None => help.say(&[" has no ", key]),
        Some(value) => {
            help.say(&[" has as ", key, " "]);
            put_value(alloc, value, help);
        }
    }
}

// Says which key is none of the window's kind, if there is one.
fn put_other_key(fields: &Table, numbers: &[Option<&str>], help: &mut Help) -> bool {
    for (key, _) in fields {
        if !is_key(key.as_str(), numbers) {
            help.say(&[": "]);
            help.quote(key.as_bytes());
            help.say(&[
                " is no key of a ",
                text_at(fields, "kind"),
                " window: its keys are kind, func",
            ]);
            for number in numbers {
                if let Some(number) = *number {
                    help.say(&[", ", number]);
                }
            }
            return true;
        }
    }
    false
}

fn is_key(key: &str, numbers: &[Option<&str>]) -> bool {
    key == "kind" || key == "func" || is_among(key, numbers)
}

fn is_among(key: &str, words: &[Option<&str>]) -> bool {
    for word in words {
        if *word == Some(key) {
            return true;
        }
    }
    false
}

// Says that there is no integer at this key, if there is none.
fn put_no_integer(alloc: Global, fields: &Table, key: &str, help: &mut Help) -> bool {
    match fields.get(key) {
        None => {
            help.say(&[
                " has no ",
                key,
                ", and a ",
                text_at(fields, "kind"),
                " window needs it: ",
            ]);
            help.say(&[number_limit(key)]);
            true
        }
        Some(value) => {
            if value.is_integer() {
                return false;
            }
            help.say(&[" has as ", key, " "]);
            put_value(alloc, value, help);
            help.say(&[
                ": it is an integer with neither quotes, a unit nor a point, ",
                number_limit(key),
            ]);
            true
        }
    }
}

/// Why the window of this number has a number beyond its limits.
pub fn put_window_limit(i: u32, element: Option<&Value>, help: &mut Help) {
    put_window(i, help);
    let Some(fields) = table_of(element) else {
        return;
    };
    let kind = text_at(fields, "kind");
    if !is_kind(kind) {
        return;
    }
    for key in &number_keys(kind) {
        if let Some(key) = *key
            && put_beyond(fields, key, help)
        {
            return;
        }
    }
    help.say(&[" has a length of "]);
    help.number(integer_at(fields, "length").unwrap_or(0));
    help.say(&[" and a slide of "]);
    help.number(integer_at(fields, "slide").unwrap_or(0));
    help.say(&[": the slide is at most the length, and the length at most "]);
    help.number(LENGTH_RATIO_MAX);
    help.say(&[" slides"]);
}

// Says that the number at this key is beyond its limits, if it is.
fn put_beyond(fields: &Table, key: &str, help: &mut Help) -> bool {
    let number = integer_at(fields, key).unwrap_or(0);
    let most = if key == "count" { COUNT_MAX } else { TIME_MAX };
    if u64::try_from(number).is_ok_and(|number| 1 <= number && number <= most) {
        return false;
    }
    help.say(&[" has a ", key, " of "]);
    help.number(number);
    help.say(&[": it is ", number_limit(key)]);
    true
}

fn number_limit(key: &str) -> &'static str {
    match key {
        "count" => "1 to 4194304 tuples",
        "slide" => "1 to the length, in the time unit of the records",
        _ => "1 to 10^15 in the time unit of the records, for example 60 where they count seconds",
    }
}

fn put_window(i: u32, help: &mut Help) {
    help.say(&[", window "]);
    help.number(i);
}

fn table_of(element: Option<&Value>) -> Option<&Table> {
    element?.as_table()
}

// The string at a key; where there is none, no word.
fn text_at<'a>(fields: &'a Table, key: &str) -> &'a str {
    match fields.get(key) {
        Some(value) => value.as_str().unwrap_or(""),
        None => "",
    }
}
