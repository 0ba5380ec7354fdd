//! The words of a text, and its lines.
ghost use Rattle.std.specs.Prelude.{◌≡◌, ◌≤◌, ◌<◌, ◌==◌, ◌∷◌, [], not, length, drop, take_while, ◌+◌};
ghost use Rattle.std.specs.List.{position, position_or_len};
ghost use Rattle.stream_base.specs.Model.Journals.{after_word, lines_of, word};

/// The bytes up to the first space, and those behind it.
pub fn split_word(text: &[u8]) -> (&[u8], &[u8])
    ensures word { result.0.now ≡ word text.now }
    ensures rest { result.1.now ≡ after_word text.now }
{
    split_at(text, 32)
}

/// The first line of a text that isn't empty, without its line feed, and what stands behind it.
pub fn split_line(text: &[u8]) -> (&[u8], &[u8])
    requires { 0 < length text.now }
    ensures lines { lines_of text.now ≡ result.0.now ∷ lines_of result.1.now }
    ensures shorter { length result.1.now < length text.now }
{
    split_at(text, 10)
}

/// The bytes up to the first of this one, and those behind it.
pub fn split_at(text: &[u8], end: u8) -> (&[u8], &[u8])
    ensures front { result.0.now ≡ take_while (λ byte. not (byte == end)) text.now }
    ensures behind { result.1.now
        ≡ drop (length (take_while (λ byte. not (byte == end)) text.now) + 1) text.now }
{
    let place = place_of(text, end);
    if place < text.len() {
        (&text[..place], &text[place + 1..])
    } else {
        (text, &[])
    }
}

// How many bytes stand in front of the first of these.
fn place_of(text: &[u8], end: u8) -> usize
    ensures value { result ≡ position_or_len (λ byte. byte == end) text.now }
    ensures within { result ≤ length text.now }
{
    first_of(text, end).unwrap_or(text.len())
}

fn first_of(text: &[u8], byte: u8) -> Option<usize>
    ensures { result ≡ position (λ other. other == byte) text.now }
{
    text.iter().position(|other| *other == byte)
}
