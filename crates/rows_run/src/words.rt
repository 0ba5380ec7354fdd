//! The words of the command line, those after the program's name.
ghost use Rattle.std.specs.Prelude.{◌≡◌, map, string_bytes, IfSome, IfNone, None, Some};
ghost use Rattle.rows_run.specs.Words.{asked_by, asked_plainly};

use row_text::Format;
use std::marker::Model;

/// What is asked for: the form of the rows, the report's name, and the key of the rows, or an empty text
/// for all rows.
#[derive(Drop)]
pub struct RowsWords<'a> {
    pub format: Format,
    pub report: &'a str,
    pub key: &'a str,
}

impl<'a> Model for RowsWords<'a> {
    ghost use Rattle.rows_run.specs.Words.{Asked, asked};

    ghost Value = { Asked };

    ghost view = { λ w. asked w.format w.report.now w.key.now };
}

/// What the words ask for, if they are in the grammar: `REPORT`, `REPORT KEY`, and both with `--json` in
/// front.
pub fn words_of(words: &[String]) -> Option<RowsWords>
    ensures some { IfSome result (λ w. asked_by (map string_bytes words.now) ≡ Some w) }
    ensures none { IfNone result (asked_by (map string_bytes words.now) ≡ None) }
{
    if !words.is_empty() && words[0].as_str() == "--json" {
        plain(Format::Json, &words[1..])
    } else {
        plain(Format::Csv, words)
    }
}

fn plain(format: Format, words: &[String]) -> Option<RowsWords>
    ensures some { IfSome result (λ w.
        asked_plainly format (map string_bytes words.now) ≡ Some w) }
    ensures none { IfNone result (asked_plainly format (map string_bytes words.now) ≡ None) }
{
    if words.len() == 1 {
        Some(RowsWords {
            format,
            report: words[0].as_str(),
            key: "",
        })
    } else if words.len() == 2 {
        Some(RowsWords {
            format,
            report: words[0].as_str(),
            key: words[1].as_str(),
        })
    } else {
        None
    }
}
