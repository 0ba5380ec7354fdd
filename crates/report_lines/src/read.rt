//! What a line of a report is: it is told again and compared.
ghost use Rattle.std.specs.Prelude.{◌≡◌, ◌++◌, ◌∷◌, [], ℕ, List, codes, IfSome, IsTrue, true, ◌↔◌};
ghost use Rattle.std.specs.Str.{bytes_eq};
ghost use Rattle.stream_base.specs.Model.Text.{entry_line};
ghost use Rattle.stream_base.specs.Model.Journals.{entry_in, is_entry_within, is_header};

use crate::guess::guessed_entry;
use crate::line::Line;
use crate::numbers::number_in;
use crate::words::split_word;
use stream_base::Entry;

/// Whether a line is the header of a shard. Most lines show by their first byte that they are none.
pub fn is_header(line: &[u8]) -> bool
    ensures { result ≡ is_header line.now }
{
    begins_as_header(line) && spells_header(line)
}

fn begins_as_header(line: &[u8]) -> bool
    ensures { IsTrue result ↔ ((later : List ℕ) × (line.now ≡ codes "s" ++ later)) }
{
    line.starts_with(b"s")
}

fn begins_as_entry(line: &[u8]) -> bool
    ensures { IsTrue result ↔ ((later : List ℕ) × (line.now ≡ codes "j" ++ later)) }
{
    line.starts_with(b"j")
}

// Whether a line is spelled as the header of the number in it.
fn spells_header(line: &[u8]) -> bool
    ensures { result ≡ is_header line.now }
{
    let (_word, digits) = split_word(line);
    let mut told = Line::new();
    told.tell_header(number_in(digits));
    told.spells(line)
}

/// The entry whose journal line a line is, if it is one. The lines of changes show by their first byte
/// that they are none.
pub fn entry_in(line: &[u8]) -> Option<Entry>
    ensures value { result ≡ entry_in line.now }
    ensures within { IfSome result (λ e. is_entry_within e ≡ true) }
{
    if begins_as_entry(line) {
        spelled_entry(line)
    } else {
        None
    }
}

// The entry that a line spells, if it spells one.
fn spelled_entry(line: &[u8]) -> Option<Entry>
    ensures value { result ≡ entry_in line.now }
    ensures within { IfSome result (λ e. is_entry_within e ≡ true) }
{
    let entry = guessed_entry(line)?;
    if spells(line, &entry) && entry.is_within_limits() {
        Some(entry)
    } else {
        None
    }
}

// Whether a line is the journal line of an entry.
fn spells(line: &[u8], entry: &Entry) -> bool
    ensures { result ≡ bytes_eq (entry_line entry.now) (line.now ++ 10 ∷ []) }
{
    let mut told = Line::new();
    told.tell_entry(entry);
    told.spells(line)
}
