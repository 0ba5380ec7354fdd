use crate::line::Line;
use crate::tally::Tally;

// Who hears the bytes of a report: the line that is written, and the tally of those before it.
#[derive(Drop)]
pub struct Ear {
    line: Line,
    tally: Tally,
    has_tally: bool,
}

impl Ear {
    pub fn new(sources: usize, has_tally: bool) -> Ear {
        Ear {
            line: Line::new(),
            tally: Tally::new(sources),
            has_tally,
        }
    }

    // With no tally to keep it hears the first line alone, so that a long report costs nothing.
    pub fn hear(&mut self, bytes: &[u8]) {
        if self.has_tally {
            self.hear_all(bytes);
        } else if !self.line.is_whole() {
            self.hear_line(bytes);
        }
    }

    fn hear_all(&mut self, bytes: &[u8]) {
        for byte in bytes {
            if self.line.take(*byte) {
                self.tally.add(self.line.bytes());
            }
        }
    }

    fn hear_line(&mut self, bytes: &[u8]) {
        for byte in bytes {
            if self.line.take(*byte) {
                return;
            }
        }
    }

    pub fn last_line(&self) -> &[u8] {
        self.line.bytes()
    }

    pub fn tally(&self) -> &Tally {
        &self.tally
    }
}
