//! How a run ended, beside how it was to end.
use crate::noted::Open;
use crate::row::Answer;
use toml::Value;

/// How a run ended: its status, what was written, and what became of the files that were to be opened.
#[derive(Drop)]
pub struct Outcome {
    pub status: u64,
    pub text: Vec<u8>,
    pub opens: Vec<Open>,
}

impl Outcome {
    /// Whether it is this answer, whose text is this one.
    pub fn is(&self, answer: Answer<'_>, text: &str) -> bool {
        self.status == answer.status
            && if answer.any_order {
                has_lines(&self.text, text)
            } else {
                self.text.as_slice() == text.as_bytes()
            }
    }

    /// Whether a write failed, and so many bytes of this answer's text were written before: the first
    /// ones, unless its lines may come in any order.
    pub fn is_cut_off(&self, answer: Answer<'_>, text: &str, many: u64) -> bool {
        let text = text.as_bytes();
        let is_front = answer.any_order || text.starts_with(&self.text);
        self.status == WRITE_FAULT
            && self.text.len() as u64 == many
            && self.text.len() < text.len()
            && is_front
    }

    /// Whether exactly these opens were asked for, in this order, and came to this.
    pub fn opened(&self, opens: &[Value]) -> bool {
        if self.opens.len() != opens.len() {
            return false;
        }
        for (open, value) in self.opens.iter().zip(opens) {
            if !is_open(open, value.as_str().unwrap_or_default()) {
                return false;
            }
        }
        true
    }
}

// Whether a word and another behind a blank name an open and what became of it.
fn is_open(open: &Open, words: &str) -> bool {
    words.split_once(' ') == Some((open.name.as_str(), open.fate.word()))
}

// The status of a run of which a write failed.
const WRITE_FAULT: u64 = 8;

// Whether a text has the lines of another, in some order.
fn has_lines(told: &[u8], wanted: &str) -> bool {
    let Ok(told) = str::from_utf8(told) else {
        return false;
    };
    if told.len() != wanted.len() {
        return false;
    }
    for line in wanted.lines() {
        if times(told, line) != times(wanted, line) {
            return false;
        }
    }
    true
}

// How often a line stands in a text.
fn times(text: &str, line: &str) -> usize {
    let mut many = 0usize;
    for other in text.lines() {
        if other == line {
            many = many.saturating_add(1);
        }
    }
    many
}
