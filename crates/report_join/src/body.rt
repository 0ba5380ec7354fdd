//! What of a report of one shard stands in the report of all.
ghost use Rattle.std.specs.Prelude.{◌≡◌, ◌++◌, ◌-◌, length, drop, take, ℕ, List, codes, IsTrue, ◌↔◌};
ghost use Rattle.part_laws.specs.Joined.{body_of};
ghost use Rattle.report_join.specs.ShardReports.{form_told};

// How long the line that begins a shard is, and the last line.
const HEADER: usize = 8;

const LAST: usize = 4;

/// What stands in a report of one shard between its header and its last line.
pub fn body_of(second: bool, text: &[u8]) -> &[u8]
    ensures { result.now ≡ body_of (form_told second) text.now }
{
    if second {
        without_last(behind(text, 9 + HEADER))
    } else {
        without_last(behind(text, HEADER))
    }
}

// What stands behind so many bytes.
fn behind(text: &[u8], front: usize) -> &[u8]
    ensures { result.now ≡ drop front text.now }
{
    if front < text.len() {
        &text[front..]
    } else {
        &[]
    }
}

fn without_last(lines: &[u8]) -> &[u8]
    ensures { result.now ≡ take (length lines.now - 4) lines.now }
{
    &lines[..lines.len().saturating_sub(LAST)]
}

/// Whether a text begins as a report in the second form does.
pub fn is_second_form(text: &[u8]) -> bool
    ensures { IsTrue result ↔ ((later : List ℕ) × (text.now ≡ codes "report 2\n" ++ later)) }
{
    text.starts_with(b"report 2\n")
}
