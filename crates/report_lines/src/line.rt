//! A line that is written from its end.
ghost use Rattle.std.specs.Prelude.{◌≡◌, ◌≤◌, ◌++◌, ◌∷◌, [], decimal, length};
ghost use Rattle.std.specs.Fmt.{signed_decimal};
ghost use Rattle.std.specs.Str.{bytes_eq};
ghost use Rattle.stream_base.specs.Model.Text.{end_text, shown_text};
ghost use Rattle.report_lines.specs.Lines.{Grows, header_line};

use itoa::{Buffer, write_digits};
use std::marker::Model;
use stream_base::{FINAL, KeyText, Shown};

// How many bytes a line has at most.
const LINE: usize = 320;

/// One line of a report, in place and without memory of its own: `tell_entry` and `tell_change` write
/// it, and `text` is what was told last. It grows at its front: the digits of a number are found from
/// the last to the first, so each is written where it stays. Contracts see its bytes, and the room in
/// front of them.
#[derive(Drop)]
pub struct Line {
    cells: [u8; LINE],
    start: usize,
}

impl Model for Line {
    ghost use Rattle.std.specs.Prelude.{◌≤◌, drop};
    ghost use Rattle.report_lines.specs.Lines.{Lined};
    ghost use Rattle.report_lines.specs.declared.line.TheConstants.{LINE};

    ghost Value = { Lined };

    ghost view = { λ l. record { text = drop l.start l.cells; room = l.start } };

    ghost invariant = { λ l. l.start ≤ LINE };
}

impl Line {
    /// A line with nothing told.
    pub fn new() -> Line
        ensures { result.text ≡ [] }
    {
        Line {
            cells: [0; LINE],
            start: LINE,
        }
    }

    /// What was told last.
    pub fn text(&self) -> &[u8]
        ensures { result.now ≡ (self.now).text }
    {
        &self.cells[self.start..]
    }

    /// Whether a line, with its line feed, is what was told last.
    pub fn spells(&self, line: &[u8]) -> bool
        ensures { result ≡ bytes_eq (self.now).text (line.now ++ 10 ∷ []) }
    {
        match self.text().strip_suffix(b"\n") {
            Some(front) => front == line,
            None => false,
        }
    }

    /// Tells the header of the shard with this number, in place of what was told before.
    pub fn tell_header(&mut self, shard: u64)
        ensures { (self.new).text ≡ header_line shard }
    {
        self.clear();
        self.byte(b'\n');
        self.number(shard);
        self.bytes(b"shard ");
    }

    pub(crate) fn clear(&mut self)
        ensures text { (self.new).text ≡ [] }
        ensures room { (self.new).room ≡ 320 }
    {
        self.start = LINE;
    }

    pub(crate) fn byte(&mut self, byte: u8)
        requires { 1 ≤ self.old.room }
        ensures { Grows (byte ∷ []) 1 self.old self.new }
    {
        self.start -= 1;
        self.cells[self.start] = byte;
    }

    pub(crate) fn number(&mut self, number: u64)
        requires { 20 ≤ self.old.room }
        ensures { Grows (decimal number) 20 self.old self.new }
    {
        self.start = write_digits(number, &mut self.cells, self.start);
    }

    pub(crate) fn signed(&mut self, number: i128)
        requires { 40 ≤ self.old.room }
        ensures { Grows (signed_decimal number) 40 self.old self.new }
    {
        self.digits(number.unsigned_abs());
        if number < 0 {
            self.byte(b'-');
        }
    }

    // A value as shown.
    pub(crate) fn shown(&mut self, shown: &Shown)
        requires { 61 ≤ self.old.room }
        ensures { Grows (shown_text shown.now) 61 self.old self.new }
    {
        match *shown {
            Shown::Whole(number) => self.signed(number),
            Shown::Ratio { sum, count } => {
                self.number(count);
                self.byte(b'/');
                self.signed(sum);
            }
        }
    }

    // The end of an instance: a word, where it is the final time.
    pub(crate) fn end(&mut self, high: u64)
        requires { 20 ≤ self.old.room }
        ensures { Grows (end_text high) 20 self.old self.new }
    {
        if high == FINAL {
            self.bytes(b"end");
        } else {
            self.number(high);
        }
    }

    // The key, which ends its line.
    pub(crate) fn last_key(&mut self, key: &KeyText)
        requires { 65 ≤ self.old.room }
        ensures { Grows (key.now ++ 10 ∷ []) 65 self.old self.new }
    {
        self.byte(b'\n');
        self.bytes(key.bytes());
    }

    fn digits(&mut self, number: u128)
        requires { 39 ≤ self.old.room }
        ensures { Grows (decimal number) 39 self.old self.new }
    {
        match u64::try_from(number) {
            Ok(number) => self.number(number),
            Err(_) => {
                let mut digits = Buffer::new();
                self.bytes(digits.format(number).as_bytes());
            }
        }
    }

    fn bytes(&mut self, bytes: &[u8])
        requires { length bytes.now ≤ self.old.room }
        ensures { Grows bytes.now (length bytes.now) self.old self.new }
    {
        let start = self.start - bytes.len();
        self.cells[start..self.start].copy_from_slice(bytes);
        self.start = start;
    }
}
