//! The change that a line tells.
ghost use Rattle.std.specs.Prelude.{◌≡◌, ◌++◌, ◌∷◌, [], false, IfSome, IfNone};
ghost use Rattle.std.specs.Str.{bytes_eq};
ghost use Rattle.row_laws.specs.Fitting.{is_change_fit};
ghost use Rattle.row_laws.specs.Reading.{change_in, form_of, guessed_change, retraction_in, update_in};
ghost use Rattle.report_rows.specs.Changes.{guess_of, is_line_of};
ghost use Rattle.report_lines.specs.Forms.{form_of as form_told};

use crate::fields::{bare_row_in, row_in, updated_in};
use crate::fits::change_fits;
use report_lines::{Line, ReportForm, split_word};
use stream_base::{Change, Former, Shown};

/// The change whose line a line is, in a report that tells in full what stood before or doesn't, if it
/// is one.
#[tactic(auto, using(crate::proofs::ChangeFacts::is_change, crate::proofs::ChangeFacts::is_none, crate::proofs::ChangeFacts::is_beyond))]
pub fn change_in(full: bool, line: &[u8]) -> Option<Change>
    ensures { result ≡ change_in full line.now }
{
    match guess(full, line) {
        Some(change) => {
            if tells(full, line, &change) {
                Some(change)
            } else {
                None
            }
        }
        None => None,
    }
}

fn tells(full: bool, line: &[u8], change: &Change) -> bool
    ensures { result ≡ is_line_of full line.now change.now }
{
    spells(full, line, change) && change_fits(change)
}

fn guess(full: bool, line: &[u8]) -> Option<Change>
    ensures some { IfSome result (λ change. change ≡ guess_of full line.now) }
    ensures none { IfNone result (is_change_fit (guess_of full line.now) ≡ false) }
{
    let (kind, text) = split_word(line);
    guessed_change(full, kind, text)
}

// The change that a line's first word and what is behind it spell, unless a number doesn't fit.
fn guessed_change(full: bool, kind: &[u8], text: &[u8]) -> Option<Change>
    ensures some { IfSome result (λ change. change ≡ guessed_change full kind.now text.now) }
    ensures none { IfNone result
        (is_change_fit (guessed_change full kind.now text.now) ≡ false) }
{
    if kind == b"+".as_slice() {
        Some(Change::New(row_in(text)?))
    } else if kind == b"~".as_slice() {
        guessed_update(full, text)
    } else if kind == b"-".as_slice() {
        guessed_retraction(full, text)
    } else {
        Some(Change::Dropped)
    }
}

fn guessed_update(full: bool, text: &[u8]) -> Option<Change>
    ensures some { IfSome result (λ change. change ≡ update_in full text.now) }
    ensures none { IfNone result (is_change_fit (update_in full text.now) ≡ false) }
{
    if full {
        updated_in(text)
    } else {
        let row = row_in(text)?;
        Some(Change::Again {
            row,
            former: UNTOLD,
        })
    }
}

fn guessed_retraction(full: bool, text: &[u8]) -> Option<Change>
    ensures some { IfSome result (λ change. change ≡ retraction_in full text.now) }
    ensures none { IfNone result (is_change_fit (retraction_in full text.now) ≡ false) }
{
    if full {
        Some(Change::Gone(row_in(text)?))
    } else {
        Some(Change::Gone(bare_row_in(text)?))
    }
}

// What stood before, where nothing is told of it.
const UNTOLD: Former = Former {
    number: 0,
    shown: Shown::Whole(0),
};

// Whether a line is the line of a change.
fn spells(full: bool, line: &[u8], change: &Change) -> bool
    ensures { result ≡ bytes_eq ((form_of full).line change.now) (line.now ++ 10 ∷ []) }
{
    let mut told = Line::new();
    told.tell_change(report_form(full), change);
    told.spells(line)
}

fn report_form(full: bool) -> ReportForm
    ensures { form_told result ≡ form_of full }
{
    if full {
        ReportForm::Two
    } else {
        ReportForm::One
    }
}
