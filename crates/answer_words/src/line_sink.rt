use outside::{ByteLog, Failed, Sink};
use std::alloc::Global;

/// A sink that keeps one line of what is written, and lets the rest go.
#[derive(Drop)]
pub struct LineSink {
    kept: KeptLine,
    taken: ByteLog,
}

impl LineSink {
    /// A sink that will keep the line of this number, from 1.
    pub fn new(alloc: Global, number: u64) -> LineSink {
        LineSink {
            kept: KeptLine {
                number,
                current: 1,
                line: Vec::new(alloc),
            },
            taken: ByteLog::new(),
        }
    }

    /// The line without its line feed, if there was one of that number.
    pub fn line(&self) -> Option<&[u8]> {
        self.kept.line()
    }
}

impl Sink for LineSink {
    ghost taken = { λ s. s.taken.bytes };

    ghost faults = { λ s. 0 };

    fn write(&mut self, bytes: &[u8]) -> Result<usize, Failed> {
        self.kept.hear(bytes);
        self.taken.add(bytes);
        Ok(bytes.len())
    }
}

// The line of a number, and the number of the line that is written.
#[derive(Drop)]
struct KeptLine {
    number: u64,
    current: u64,
    line: Vec<u8>,
}

impl KeptLine {
    fn line(&self) -> Option<&[u8]> {
        if self.current < self.number || (self.current == self.number && self.line.is_empty()) {
            return None;
        }
        Some(&self.line)
    }

    fn hear(&mut self, bytes: &[u8]) {
        for byte in bytes {
            self.take(*byte);
        }
    }

    fn take(&mut self, byte: u8) {
        if byte == b'\n' {
            self.current = self.current.saturating_add(1);
        } else if self.current == self.number {
            let _ = self.line.push(byte);
        }
    }
}
