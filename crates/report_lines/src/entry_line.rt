//! The journal lines of entries.
ghost use Rattle.std.specs.Prelude.{◌≡◌, ◌≤◌, ◌++◌, ◌∷◌, [], OnOk, decimal};
ghost use Rattle.stream_base.specs.Model.Text.{entry_line};
ghost use Rattle.report_lines.specs.Lines.{Grows};

use crate::line::Line;
use stream_base::{Entry, NoMemory, What};

/// Puts the journal line of an entry behind a text.
pub fn put_entry(entry: &Entry, out: &mut Vec<u8>) -> Result<(), NoMemory>
    ensures { OnOk result (out.new.items ≡ out.old.items ++ entry_line entry.now) }
{
    let mut line = Line::new();
    line.tell_entry(entry);
    out.extend_from_slice(line.text())?;
    Ok(())
}

impl Line {
    /// Tells an entry: its journal line, in place of what was told before.
    pub fn tell_entry(&mut self, entry: &Entry)
        ensures { (self.new).text ≡ entry_line entry.now }
    {
        self.clear();
        match &entry.what {
            What::Tuple { key, time, value } => {
                self.last_key(key);
                self.byte(b' ');
                self.signed(i128::from(*value));
                self.byte(b' ');
                self.number(*time);
                self.byte(b' ');
                self.entry_front(entry.source, b't');
            }
            What::Mark { key, time } => {
                self.last_key(key);
                self.byte(b' ');
                self.number(*time);
                self.byte(b' ');
                self.entry_front(entry.source, b'm');
            }
            What::Water { time } => {
                self.byte(b'\n');
                self.number(*time);
                self.byte(b' ');
                self.entry_front(entry.source, b'w');
            }
            What::Idle => {
                self.byte(b'\n');
                self.entry_front(entry.source, b'i');
            }
            What::End => {
                self.byte(b'\n');
                self.entry_front(entry.source, b'e');
            }
        }
    }

    // The front of a journal line: its sign, the source, and the letter of the entry.
    fn entry_front(&mut self, source: u16, letter: u8)
        requires { 24 ≤ self.old.room }
        ensures { Grows (106 ∷ 32 ∷ (decimal source ++ (32 ∷ letter ∷ []))) 24 self.old self.new }
    {
        self.byte(letter);
        self.byte(b' ');
        self.number(u64::from(source));
        self.byte(b' ');
        self.byte(b'j');
    }
}
