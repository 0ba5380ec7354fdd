//! The clauses of a feed tell which entries it gives in all.

ghost use Rattle.std.specs.Prelude.{◌≡◌, ◌++◌, List, Some, None, IfOk, IfErr, IfSome};
ghost use Rattle.source_feed.specs.FeedFault.{refusal_of};
ghost use Rattle.source_feed.specs.FeedView.{given_then};
ghost use Rattle.source_feed.specs.FileFeedState.{source_stream};
ghost use Rattle.source_feed.specs.Generated.{IsMadeSource, made_entries};
ghost use Rattle.source_feed.specs.Stream.{StaysTold};
ghost use Rattle.stream_base.specs.declared.entry.Entry.{Entry};

use outside::{Files, MemFiles, MemSource};
use source_feed::{Feed, FeedFault, FileFeed, MadeFeed};
use std::alloc::Global;
use stream_base::{Defs, Entry};

// All entries that a feed still gives. With those that it gave before they are the stream of its
// source, or those before the refusal are.
pub fn all_of<F: Feed>(alloc: Global, feed: &mut F) -> Result<Vec<Entry>, FeedFault>
    ensures source { (F.state feed.new).source ≡ (F.state feed.old).source }
    ensures origin { (F.state feed.new).origin ≡ (F.state feed.old).origin }
    ensures seen { StaysTold (F.state feed.old).whole (F.state feed.new).whole }
    ensures given { IfOk result (λ entries. (F.state feed.new).whole
        ≡ Some (given_then ((F.state feed.old).gave ++ entries.items) None)) }
    ensures refused { IfErr result (λ fault. IfSome (refusal_of fault) (λ refusal.
        (before : List Entry)
        × ((F.state feed.new).whole ≡ Some (given_then before (Some refusal))))) }
{
    let mut entries = Vec::new(alloc);
    'turns: for _ in 0..u64::MAX {
        match feed.next()? {
            Some(entry) => {
                if entries.push(entry).is_err() {
                    return Err(FeedFault::NoMemory);
                }
            }
            None => return Ok(entries),
        }
    }
    Err(FeedFault::NoMemory)
}

// The entries of a source with these bytes, and the watermarks that are made, are exactly the
// stream of the bytes.
pub fn entries_of(alloc: Global, bytes: &[u8], defs: &Defs) -> Result<Vec<Entry>, FeedFault>
    ensures given { IfOk result (λ entries.
        source_stream 0 defs.now.every defs.now.disorder bytes.now
        ≡ record { entries = entries.items; refusal = None }) }
    ensures refused { IfErr result (λ fault. IfSome (refusal_of fault) (λ refusal.
        (source_stream 0 defs.now.every defs.now.disorder bytes.now).refusal ≡ Some refusal)) }
{
    let mut feed = FileFeed::new(alloc, MemSource::new(bytes, &[], 7), 0, defs);
    let entries = all_of(alloc, &mut feed);
    MemFiles::new(&[], 1).give_back(feed.into_source());
    entries
}

// The entries that the feed of a generated source gives are exactly those of the definition.
pub fn made_entries_of(
    alloc: Global,
    seed: u64,
    rows: u64,
    sources: u16,
    index: u16,
) -> Result<Vec<Entry>, FeedFault>
    requires { IsMadeSource rows sources index }
    ensures { IfOk result (λ entries. entries.items ≡ made_entries seed rows sources index) }
{
    let mut feed = MadeFeed::new(seed, rows, sources, index);
    all_of(alloc, &mut feed)
}
