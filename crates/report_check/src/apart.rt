//! Where two texts differ.
ghost use Rattle.std.specs.Prelude.{◌≡◌, ◌+◌, ◌==◌, ◌<◌, ◌≤◌, length, filter};
ghost use Rattle.report_check.specs.Apart.{common_front, line_apart, line_behind};

/// The number, from 1, of the first line in which two different texts differ.
pub fn line_apart(text: &[u8], other: &[u8]) -> u64
    ensures { result ≡ line_apart text.now other.now }
{
    line_behind(&text[..common_len(text, other)])
}

// How many bytes stand in front of the first that differs.
fn common_len(text: &[u8], other: &[u8]) -> usize
    ensures value { result ≡ length (common_front text.now other.now) }
    ensures within { result ≤ length text.now }
{
    let mut count = 0;
    while count < text.len() && count < other.len() && text[count] == other[count] {
        count += 1;
    }
    count
}

// The number of the line behind these bytes.
fn line_behind(bytes: &[u8]) -> u64
    ensures { result ≡ line_behind bytes.now }
{
    let mut line = 1;
    for byte in bytes {
        if *byte == 10 {
            line += 1;
        }
    }
    line
}
