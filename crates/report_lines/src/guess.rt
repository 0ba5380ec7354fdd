//! The entry that a line spells, if it spells one.
ghost use Rattle.std.specs.Prelude.{◌≡◌, codes, false, IfSome, IfNone};
ghost use Rattle.stream_base.specs.Model.Journals.{guessed_entry, guessed_what, is_entry_within};
ghost use Rattle.stream_base.specs.Model.What.{is_what_within};

use crate::numbers::{key_in, number_in, time_in, value_in};
use crate::words::split_word;
use stream_base::{Entry, What};

/// The entry that a line spells if it spells one, unless that entry is beyond its limits.
pub fn guessed_entry(line: &[u8]) -> Option<Entry>
    ensures some { IfSome result (λ e. e ≡ guessed_entry line.now) }
    ensures none { IfNone result (is_entry_within (guessed_entry line.now) ≡ false) }
{
    let (_word, fields) = split_word(line);
    let (source, words) = split_word(fields);
    let (kind, text) = split_word(words);
    let source = number_in(source);
    if source > u16::MAX as u64 {
        return None;
    }
    match guessed_what(kind, text) {
        Some(what) => Some(Entry {
            source: source as u16,
            what,
        }),
        None => None,
    }
}

fn guessed_what(kind: &[u8], text: &[u8]) -> Option<What>
    ensures some { IfSome result (λ w. w ≡ guessed_what kind.now text.now) }
    ensures none { IfNone result (is_what_within (guessed_what kind.now text.now) ≡ false) }
{
    if kind == b"t".as_slice() {
        guessed_tuple(text)
    } else if kind == b"m".as_slice() {
        guessed_mark(text)
    } else if kind == b"w".as_slice() {
        guessed_water(text)
    } else if kind == b"i".as_slice() {
        Some(What::Idle)
    } else {
        Some(What::End)
    }
}

fn guessed_tuple(text: &[u8]) -> Option<What>
    ensures some { IfSome result (λ w. w ≡ guessed_what (codes "t") text.now) }
    ensures none { IfNone result (is_what_within (guessed_what (codes "t") text.now) ≡ false) }
{
    let (time, fields) = split_word(text);
    let (value, key) = split_word(fields);
    let time = time_in(time)?;
    let value = value_in(value)?;
    let key = key_in(key)?;
    Some(What::Tuple { key, time, value })
}

fn guessed_mark(text: &[u8]) -> Option<What>
    ensures some { IfSome result (λ w. w ≡ guessed_what (codes "m") text.now) }
    ensures none { IfNone result (is_what_within (guessed_what (codes "m") text.now) ≡ false) }
{
    let (time, key) = split_word(text);
    let time = time_in(time)?;
    let key = key_in(key)?;
    Some(What::Mark { key, time })
}

fn guessed_water(text: &[u8]) -> Option<What>
    ensures some { IfSome result (λ w. w ≡ guessed_what (codes "w") text.now) }
    ensures none { IfNone result (is_what_within (guessed_what (codes "w") text.now) ≡ false) }
{
    let time = time_in(text)?;
    Some(What::Water { time })
}
