//! Lines of a text, by their place or their number from 1.

/// The number of the line in which this place lies.
pub fn line_at(text: &[u8], place: usize) -> u64 {
    let mut line: u64 = 1;
    for byte in &text[..place.min(text.len())] {
        if *byte == b'\n' {
            line = line.saturating_add(1);
        }
    }
    line
}

/// The text from a place up to the end of its line.
pub fn line_from(text: &[u8], place: usize) -> &[u8] {
    let rest = &text[place.min(text.len())..];
    match rest
        .iter()
        .position(|byte| *byte == b'\n' || *byte == b'\r')
    {
        Some(end) => &rest[..end],
        None => rest,
    }
}

/// The place at which the line of this number begins, where the text has one.
pub fn start_of_line(text: &[u8], number: u64) -> Option<usize> {
    let mut line: u64 = 1;
    for place in 0..text.len() {
        if line == number {
            return Some(place);
        }
        if text[place] == b'\n' {
            line = line.saturating_add(1);
        }
    }
    None
}
