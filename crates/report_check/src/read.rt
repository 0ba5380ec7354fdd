//! The journals that a text holds.
ghost use Rattle.std.specs.Prelude.{◌≡◌, ◌++◌, ◌∷◌, [], IfOk, OnOk, true};
ghost use Rattle.stream_base.specs.Model.Journals.{after_line, is_entry_within, journals_of, with_entry};

use crate::journal::Journal;
use report_lines::{entry_in, is_header, split_line};
use std::alloc::Global;
use stream_base::{Entry, NoMemory, What};

/// The journals that a text holds: each header begins one, each line of an entry is one more entry of
/// the last, and every other line is passed over.
#[tactic(auto, unfolding(stream_base::specs::Model::Journals::journals_of))]
pub fn journals_of(alloc: Global, text: &[u8]) -> Result<Vec<Journal>, NoMemory>
    ensures { IfOk result (λ journals. journals.items ≡ journals_of text.now) }
{
    let mut journals = Vec::new(alloc);
    let mut rest = text;
    while !rest.is_empty() {
        let (line, behind) = split_line(rest);
        put_line(alloc, line, &mut journals)?;
        rest = behind;
    }
    Ok(journals)
}

fn put_line(alloc: Global, line: &[u8], journals: &mut Vec<Journal>) -> Result<(), NoMemory>
    ensures { OnOk result (journals.new.items
        ≡ after_line journals.old.items line.now) }
{
    if is_header(line) {
        return begin(alloc, journals);
    }
    match entry_in(line) {
        Some(Entry { source, what }) => put_last(source, what, journals),
        None => Ok(()),
    }
}

// Begins a journal.
fn begin(alloc: Global, journals: &mut Vec<Journal>) -> Result<(), NoMemory>
    ensures { OnOk result (journals.new.items ≡ journals.old.items ++ [] ∷ []) }
{
    journals.reserve(1)?;
    journals.push_reserved(Journal::new(alloc));
    Ok(())
}

// Puts an entry at the end of the last journal, where there is one.
fn put_last(source: u16, what: What, journals: &mut Vec<Journal>) -> Result<(), NoMemory>
    requires { is_entry_within (record { source = source; what = what }) ≡ true }
    ensures { OnOk result (journals.new.items
        ≡ with_entry journals.old.items (record { source = source; what = what })) }
{
    if journals.is_empty() {
        return Ok(());
    }
    let last = journals.len() - 1;
    journals[last].push(source, what)
}
