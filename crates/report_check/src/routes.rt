//! Which journals hold what goes to their shards.
ghost use Rattle.std.specs.Prelude.{◌≡◌, ◌≤◌, ◌<◌, ◌↔◌, ◌==◌, ℕ, List, true, false, length, filter, IfOk, IfSome, IfNone, All};
ghost use Rattle.stream_base.specs.Model.Routes.{entries_from, routed};
ghost use Rattle.report_check.specs.Findings.{AreFew, AreJudged, IsJudged, lists_of};

use crate::journal::Journal;
use crate::same::are_same;
use source_feed::goes_to;
use std::alloc::Global;
use stream_base::{Entry, NoMemory};

// One of so many shards, by its number.
#[derive(Clone, Copy)]
struct Shard {
    number: u16,
    of: u16,
    ghost some: { 1 ≤ of },
}

/// The first shard whose journal isn't right, and the first source in which it is wrong.
pub fn first_wrong(
    alloc: Global,
    sources: &[Vec<Entry>],
    journals: &[Journal],
) -> Result<Option<(u16, u16)>, NoMemory>
    requires { AreFew (length journals.now) sources.now }
    ensures { IfOk result (λ found.
        AreJudged (length journals.now) (lists_of sources.now) journals.now found) }
{
    let shards = journals.len() as u16;
    for place in 0..journals.len() {
        let journal = journals[place].entries();
        let shard = Shard {
            number: place as u16,
            of: shards,
        };
        match wrong_source(alloc, sources, journal, shard)? {
            Some(source) => return Ok(Some((place as u16, source))),
            None => {}
        }
    }
    Ok(None)
}

// The first source in which a shard's journal is wrong.
fn wrong_source(
    alloc: Global,
    sources: &[Vec<Entry>],
    journal: &[Entry],
    shard: Shard,
) -> Result<Option<u16>, NoMemory>
    requires { length sources.now ≤ 16 }
    ensures { IfOk result (λ found.
        IsJudged shard.of (lists_of sources.now) shard.number journal.now found) }
{
    for source in 0..sources.len() {
        let entries = &sources[source];
        if !holds_routed(alloc, journal, source as u16, entries, shard)? {
            return Ok(Some(source as u16));
        }
    }
    if has_further(journal, sources.len()) {
        Ok(Some(sources.len() as u16))
    } else {
        Ok(None)
    }
}

// Whether what a journal holds of a source are those of its entries that go to a shard.
fn holds_routed(
    alloc: Global,
    journal: &[Entry],
    source: u16,
    entries: &[Entry],
    shard: Shard,
) -> Result<bool, NoMemory>
    ensures { IfOk result (λ holds. (holds ≡ true)
        ↔ (entries_from source journal.now ≡ routed shard.of shard.number entries.now)) }
{
    let told = entries_from(alloc, journal, source)?;
    let own = routed(alloc, entries, shard)?;
    Ok(are_all_same(&told, &own))
}

fn entries_from(alloc: Global, journal: &[Entry], source: u16) -> Result<Vec<Entry>, NoMemory>
    ensures { IfOk result (λ out. out.items ≡ entries_from source journal.now) }
{
    let mut out = Vec::new(alloc);
    for entry in journal {
        if entry.source == source {
            out.reserve(1)?;
            out.push_reserved(*entry);
        }
    }
    Ok(out)
}

fn routed(alloc: Global, entries: &[Entry], shard: Shard) -> Result<Vec<Entry>, NoMemory>
    ensures { IfOk result (λ out. out.items ≡ routed shard.of shard.number entries.now) }
{
    let mut out = Vec::new(alloc);
    for entry in entries {
        if goes_to(&entry.what, shard.of, shard.number) {
            out.reserve(1)?;
            out.push_reserved(*entry);
        }
    }
    Ok(out)
}

fn are_all_same(left: &[Entry], right: &[Entry]) -> bool
    ensures { (result ≡ true) ↔ (left.now ≡ right.now) }
{
    left == right
}

fn has_further(journal: &[Entry], sources: usize) -> bool
    ensures { (result ≡ false) ↔ All (λ e. e.source < sources) journal.now }
{
    journal.iter().any(|entry| entry.source as usize >= sources)
}
