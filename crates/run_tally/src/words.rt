// The bytes up to the first space, and those behind it.
pub fn split_word(text: &[u8]) -> (&[u8], &[u8]) {
    match text.iter().position(|byte| *byte == b' ') {
        Some(at) => (&text[..at], &text[at + 1..]),
        None => (text, &[]),
    }
}

// The number that digits spell; 0 where they spell none.
pub fn number_in(word: &[u8]) -> u64 {
    let mut number: u64 = 0;
    for byte in word {
        if !byte.is_ascii_digit() {
            return 0;
        }
        number = number
            .saturating_mul(10)
            .saturating_add(u64::from(*byte - b'0'));
    }
    number
}
