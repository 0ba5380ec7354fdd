ghost use Rattle.std.specs.Prelude.{◌≤◌};

// So many bytes of a line are kept: more than all fields but the key have.
const KEPT: usize = 96;

// The front of the line that is written, or of the last one, until another begins.
#[derive(Drop)]
pub struct Line {
    bytes: [u8; 96],
    count: usize,
    is_whole: bool,
    ghost within: { count ≤ 96 },
}

impl Line {
    pub fn new() -> Line {
        Line {
            bytes: [0; 96],
            count: 0,
            is_whole: false,
        }
    }

    // Takes one byte more, and answers whether it ends the line.
    pub fn take(&mut self, byte: u8) -> bool {
        if self.is_whole {
            self.count = 0;
            self.is_whole = false;
        }
        if byte == b'\n' {
            self.is_whole = true;
        } else if self.count < KEPT {
            self.bytes[self.count] = byte;
            self.count += 1;
        }
        self.is_whole
    }

    pub fn is_whole(&self) -> bool {
        self.is_whole
    }

    pub fn bytes(&self) -> &[u8] {
        &self.bytes[..self.count]
    }
}
