use itoa::{Buffer, Integer};
use std::alloc::{AllocError, Global};

// The most bytes of a quoted text that are shown.
const SHOWN: usize = 120;

/// A text of help in the making. Where memory runs out it lacks what came then, since nothing depends on it.
#[derive(Drop)]
pub struct Help {
    alloc: Global,
    text: String,
}

impl Help {
    /// No word yet.
    pub fn new(alloc: Global) -> Help {
        Help {
            alloc,
            text: String::new(alloc),
        }
    }

    /// The text.
    pub fn as_str(&self) -> &str {
        self.text.as_str()
    }

    /// These words, one behind the other.
    pub fn say(&mut self, words: &[&str]) {
        for word in words {
            let _ = self.text.push_str(word);
        }
    }

    /// A number.
    pub fn number<N: Integer>(&mut self, number: N) {
        let mut buffer = Buffer::new();
        let _ = self.text.push_str(buffer.format(number));
    }

    /// A text as it stands in a file or in the words, between backticks: no more than its first 120 bytes, with control
    /// characters spelled out.
    pub fn quote(&mut self, text: &[u8]) {
        let shown = front_of(text);
        self.say(&["`"]);
        if let Ok(spelled) = spell(self.alloc, shown) {
            self.say(&[spelled.as_str()]);
        }
        if shown.len() < text.len() {
            self.say(&[".."]);
        }
        self.say(&["`"]);
    }
}

// The front of a text, no longer than what is shown.
fn front_of(text: &[u8]) -> &[u8] {
    &text[..text.len().min(SHOWN)]
}

// The text with its control characters spelled out, and what is no UTF-8 replaced.
fn spell(alloc: Global, text: &[u8]) -> Result<String, AllocError> {
    let mut bytes = Vec::new(alloc);
    for byte in text {
        spell_byte(*byte, &mut bytes)?;
    }
    String::from_utf8_lossy(alloc, &bytes)
}

fn spell_byte(byte: u8, bytes: &mut Vec<u8>) -> Result<(), AllocError> {
    if byte >= 0x20 && byte != 0x7F {
        return bytes.extend_from_slice(&[byte]);
    }
    bytes.extend_from_slice(&[b'\\', b'x', digit(byte / 16), digit(byte % 16)])
}

// The digit of a number below 16.
fn digit(number: u8) -> u8 {
    match number {
        0..=9 => b'0' + number,
        10..=15 => b'a' + (number - 10),
        _ => b'?',
    }
}
