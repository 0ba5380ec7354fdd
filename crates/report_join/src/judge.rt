//! Whether a text is the report of one shard.
ghost use Rattle.std.specs.Prelude.{◌≡◌, ◌≤◌, ◌<◌, ◌++◌, ◌+◌, ℕ, List, not, codes, length, Some, None, IfOk, IfSome, IfNone, IsTrue, ◌↔◌};
ghost use Rattle.stream_base.specs.declared.entry.Entry.{Entry};
ghost use Rattle.report_join.specs.ShardReports.{HasEnds, IsJudged, first_misplaced, form_told};

use crate::join_why::JoinWhy;
use report_check::{Journal, journals_of};
use source_feed::goes_to;
use std::alloc::Global;
use stream_base::{Entry, NoMemory};

/// What is wrong with a text as the report of one shard, in the second form or the first, whose
/// entries go to the shard of this number among so many; nothing where it is such a report.
pub fn judge_shard_report(
    alloc: Global,
    second: bool,
    text: &[u8],
    shards: u16,
    shard: u16,
) -> Result<Option<JoinWhy>, NoMemory>
    requires { 1 ≤ shards }
    ensures { IfOk result (IsJudged (form_told second) shards shard text.now) }
{
    if has_ends(second, text) {
        judge_journals(alloc, second, text, shards, shard)
    } else {
        Ok(Some(JoinWhy::Shape))
    }
}

// The same, of a text that begins and ends as such a report.
fn judge_journals(
    alloc: Global,
    second: bool,
    text: &[u8],
    shards: u16,
    shard: u16,
) -> Result<Option<JoinWhy>, NoMemory>
    requires some { 1 ≤ shards }
    requires ends { HasEnds (form_told second) text.now }
    ensures { IfOk result (IsJudged (form_told second) shards shard text.now) }
{
    let journals = journals_of(alloc, text)?;
    match journals.as_slice() {
        [journal] => Ok(misplaced(journal.entries(), shards, shard)),
        _ => Ok(Some(JoinWhy::Shape)),
    }
}

fn has_ends(second: bool, text: &[u8]) -> bool
    ensures { IsTrue result ↔ HasEnds (form_told second) text.now }
{
    let begun = begins(second, text);
    let ended = ends(text);
    begun && ended
}

// Whether a text begins as the report of one shard does.
fn begins(second: bool, text: &[u8]) -> bool
    ensures { IsTrue result ↔ ((later : List ℕ)
        × (text.now ≡ ((form_told second).front ++ codes "shard 0\n") ++ later)) }
{
    if second {
        begins_second(text)
    } else {
        begins_first(text)
    }
}

fn begins_first(text: &[u8]) -> bool
    ensures { IsTrue result ↔ ((later : List ℕ) × (text.now ≡ codes "shard 0\n" ++ later)) }
{
    text.starts_with(b"shard 0\n")
}

fn begins_second(text: &[u8]) -> bool
    ensures { IsTrue result ↔ ((later : List ℕ)
        × (text.now ≡ codes "report 2\nshard 0\n" ++ later)) }
{
    text.starts_with(b"report 2\nshard 0\n")
}

fn ends(text: &[u8]) -> bool
    ensures { IsTrue result ↔ ((before : List ℕ) × (text.now ≡ before ++ codes "\nend\n")) }
{
    text.ends_with(b"\nend\n")
}

// The first entry that doesn't go to the shard.
fn misplaced(entries: &[Entry], shards: u16, shard: u16) -> Option<JoinWhy>
    requires { 1 ≤ shards }
    ensures some { IfSome result (λ why. (i : ℕ) × (why ≡ JoinWhy.Entry (i + 1))
        × (first_misplaced shards shard entries.now ≡ Some i)) }
    ensures none { IfNone result (first_misplaced shards shard entries.now ≡ None) }
{
    match place_of_misplaced(entries, shards, shard) {
        Some(place) => Some(JoinWhy::Entry {
            number: place as u64 + 1,
        }),
        None => None,
    }
}

fn place_of_misplaced(entries: &[Entry], shards: u16, shard: u16) -> Option<usize>
    requires { 1 ≤ shards }
    ensures place { result ≡ first_misplaced shards shard entries.now }
    ensures within { IfSome result (λ place. place < length entries.now) }
{
    entries
        .iter()
        .position(|entry| !goes_to(&entry.what, shards, shard))
}
