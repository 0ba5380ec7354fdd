//! The rows that the words of a line spell, if they spell one.
ghost use Rattle.std.specs.Prelude.{◌≡◌, ◌∷◌, [], ℕ, List, false, true, IfSome, IfNone, codes};
ghost use Rattle.stream_base.specs.declared.former.Former.{Former};
ghost use Rattle.stream_base.specs.declared.row.Row.{Row};
ghost use Rattle.row_laws.specs.Fitting.{is_change_fit, is_former_fit, is_row_fit};
ghost use Rattle.row_laws.specs.Reading.{bare_row_in, end_in as end_of, guessed_change, row_in, shown_in as shown_of, updated_in, words};
ghost use Rattle.report_rows.specs.Fields.{former_of, row_of};

use crate::numbers::{end_in, exact_number, shown_in, window_in};
use report_lines::{key_in, split_word};
use stream_base::{Change, Former, Row};

// The row of six fields.
fn row_of(
    window: &[u8],
    low: &[u8],
    high: &[u8],
    number: &[u8],
    shown: &[u8],
    key: &[u8],
) -> Option<Row>
    ensures some { IfSome result (λ row. row
        ≡ row_of window.now low.now high.now number.now shown.now key.now) }
    ensures none { IfNone result (is_row_fit
        (row_of window.now low.now high.now number.now shown.now key.now) ≡ false) }
{
    let key = key_in(key)?;
    let window = window_in(window)?;
    let low = exact_number(low)?;
    let high = end_in(high)?;
    let number = exact_number(number)?;
    let shown = shown_in(shown)?;
    Some(Row {
        window,
        key,
        low,
        high,
        number,
        shown,
    })
}

fn former_of(number: &[u8], shown: &[u8]) -> Option<Former>
    ensures some { IfSome result (λ former. former ≡ former_of number.now shown.now) }
    ensures none { IfNone result (is_former_fit (former_of number.now shown.now) ≡ false) }
{
    let number = exact_number(number)?;
    let shown = shown_in(shown)?;
    Some(Former { number, shown })
}

/// The row of a text of six fields: window, start, end, number, value, key.
pub fn row_in(text: &[u8]) -> Option<Row>
    ensures some { IfSome result (λ row. row ≡ row_in (words 5 text.now)) }
    ensures none { IfNone result (is_row_fit (row_in (words 5 text.now)) ≡ false) }
{
    let (window, text) = split_word(text);
    let (low, text) = split_word(text);
    let (high, text) = split_word(text);
    let (number, text) = split_word(text);
    let (shown, key) = split_word(text);
    row_of(window, low, high, number, shown, key)
}

/// The row of which a text tells window, start, end and key alone.
pub fn bare_row_in(text: &[u8]) -> Option<Row>
    ensures some { IfSome result (λ row. row ≡ bare_row_in (words 3 text.now)) }
    ensures none { IfNone result (is_row_fit (bare_row_in (words 3 text.now)) ≡ false) }
{
    let (window, text) = split_word(text);
    let (low, text) = split_word(text);
    let (high, key) = split_word(text);
    row_of(window, low, high, b"0", b"0", key)
}

/// The update of a text of eight fields, with what stood before.
pub fn updated_in(text: &[u8]) -> Option<Change>
    ensures some { IfSome result (λ change. change ≡ updated_in (words 7 text.now)) }
    ensures none { IfNone result (is_change_fit (updated_in (words 7 text.now)) ≡ false) }
{
    let (window, text) = split_word(text);
    let (low, text) = split_word(text);
    let (high, text) = split_word(text);
    let (number, text) = split_word(text);
    let (shown, text) = split_word(text);
    let (old_number, text) = split_word(text);
    let (old_shown, key) = split_word(text);
    let row = row_of(window, low, high, number, shown, key)?;
    let former = former_of(old_number, old_shown)?;
    Some(Change::Again { row, former })
}
