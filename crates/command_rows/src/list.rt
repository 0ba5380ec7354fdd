//! What stands at the keys of a table. Where a key may be missing, none says that something else than
//! was looked for stands there.
use std::alloc::{AllocError, Global};
use toml::{Table, Value};

/// The text at a key.
pub fn text<'a>(table: &'a Table, key: &str) -> Option<&'a str> {
    table.get(key)?.as_str()
}

/// The elements of the array at a key: none of them where the key is missing.
pub fn elements<'a>(table: &'a Table, key: &str) -> Option<&'a [Value]> {
    match table.get(key) {
        Some(value) => Some(value.as_array()?.as_slice()),
        None => Some(&[]),
    }
}

/// The elements of the array at a key, if the key is there.
pub fn elements_at<'a>(table: &'a Table, key: &str) -> Option<Option<&'a [Value]>> {
    match table.get(key) {
        Some(value) => Some(Some(value.as_array()?.as_slice())),
        None => Some(None),
    }
}

/// The table at a key, if the key is there.
pub fn table_at<'a>(table: &'a Table, key: &str) -> Option<Option<&'a Table>> {
    match table.get(key) {
        Some(value) => Some(Some(value.as_table()?)),
        None => Some(None),
    }
}

/// The number at a key, or this one where the key is missing.
pub fn number(table: &Table, key: &str, missing: u64) -> Option<u64> {
    match table.get(key) {
        Some(value) => number_of(value),
        None => Some(missing),
    }
}

/// The truth at a key: false where the key is missing.
pub fn flag(table: &Table, key: &str) -> Option<bool> {
    match table.get(key) {
        Some(value) => value.as_bool(),
        None => Some(false),
    }
}

/// Whether a text is among these.
pub fn has(values: &[Value], text: &str) -> bool {
    for value in values {
        if value.as_str() == Some(text) {
            return true;
        }
    }
    false
}

/// The numbers among these.
pub fn numbers_of(alloc: Global, values: &[Value]) -> Result<Vec<u64>, AllocError> {
    let mut numbers = Vec::new(alloc);
    for value in values {
        if let Some(number) = number_of(value) {
            numbers.push(number)?;
        }
    }
    Ok(numbers)
}

fn number_of(value: &Value) -> Option<u64> {
    u64::try_from(value.as_integer()?).ok()
}
