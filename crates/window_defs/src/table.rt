//! What stands at the keys of a TOML table.
ghost use Rattle.std.specs.Prelude.{◌≡◌, option_map, map};
ghost use Rattle.std.specs.Option.{option_copied};
ghost use Rattle.toml.specs.Data.{get_member};
ghost use Rattle.toml.specs.View.{view, table_view};
ghost use Rattle.window_defs.specs.Tables.{text_at, integer_at, integer_or_zero, array_at};

use toml::{Table, Value};

fn at<'a>(table: &'a Table, key: &str) -> Option<&'a Value>
    ensures { option_map (λ value. view value.now) result
        ≡ get_member key.now (table_view table.now) }
{
    table.get(key)
}

/// The string at a key.
pub fn text_at<'a>(table: &'a Table, key: &str) -> Option<&'a str>
    ensures { option_copied result ≡ text_at key.now (table_view table.now) }
{
    at(table, key)?.as_str()
}

/// The integer at a key.
pub fn integer_at(table: &Table, key: &str) -> Option<i64>
    ensures { result ≡ integer_at key.now (table_view table.now) }
{
    at(table, key)?.as_integer()
}

/// The integer at a key, and 0 where the key is missing.
pub fn integer_or_zero(table: &Table, key: &str) -> Option<i64>
    ensures { result ≡ integer_or_zero key.now (table_view table.now) }
{
    match at(table, key) {
        Some(value) => value.as_integer(),
        None => Some(0),
    }
}

/// The elements of the array at a key.
#[tactic(auto, using(crate::proofs::TableFacts::elements_of_items))]
pub fn array_at<'a>(table: &'a Table, key: &str) -> Option<&'a [Value]>
    ensures { option_map (λ values. map view values.now) result
        ≡ array_at key.now (table_view table.now) }
{
    let values = at(table, key)?.as_array()?;
    Some(values.as_slice())
}
