//! Sources are gathered into shards.
ghost use Rattle.std.specs.Prelude.{length};
ghost use Rattle.run_inputs.specs.Causes.{AreShardsOf, StopsAtSources};
ghost use Rattle.run_inputs.specs.Outside.{EndsOver, GivesBack};
ghost use Rattle.command_words.specs.Words.{AreFew};

use crate::settling::trouble_of;
use crate::ways::gather;
use command_words::Way;
use emission_text::Fault;
use fan_in::{FeedEnd, Gathered, Plan, Unstarted};
use outside::{Files, Gate};
use run_inputs::{close_feeds, open_sources};
use shard_core::Shard;
use source_feed::FileFeed;
use std::alloc::Global;
use std::sync::Wait;
use std::thread::Threads;
use stream_base::Defs;

/// So many shards with all entries of the sources of these names, under these definitions. All sources
/// are opened before one is read, and each that was opened is given back.
pub fn gather_sources<F: Files, G: Gate, R: Threads + Wait + Sync>(
    alloc: Global,
    rt: &R,
    way: Way,
    shards: u16,
    names: &[String],
    files: &mut F,
    defs: Defs,
    gate: &G,
) -> Result<Vec<Shard>, Fault>
    requires few { AreFew (length names.now) shards }
    ensures { EndsOver F.asked F.came F.told names.now files.old files.new result
        (λ named opens all. AreShardsOf named shards defs opens all.items)
        (λ named. StopsAtSources named shards defs) }
{
    let feeds = match open_sources(alloc, files, names, &defs) {
        Ok(feeds) => feeds,
        Err(fault) => return Err(fault),
    };
    let plan = Plan {
        defs,
        sources: names.len() as u16,
        shards,
    };
    match gather(way, rt, alloc, &plan, feeds, gate) {
        Ok(Gathered { shards, ends }) => {
            let trouble = trouble_of(&ends);
            close_ends(files, ends);
            match trouble {
                Some(fault) => Err(fault),
                None => Ok(shards),
            }
        }
        Err(Unstarted { feeds }) => {
            close_feeds(files, feeds);
            Err(Fault::NoMemory)
        }
    }
}

// Gives the sources of feeds back that were read.
fn close_ends<F: Files>(files: &mut F, mut ends: Vec<FeedEnd<FileFeed<F::Input>>>)
    ensures { GivesBack F.asked F.came F.told (λ e. F.Input.reads e.feed.from)
        (λ e. F.Input.told e.feed.from) ends.items files.old files.new }
{
    while let Some(end) = ends.pop() {
        let FeedEnd { feed, outcome: _ } = end;
        files.give_back(feed.into_source());
    }
    ends.destroy_empty();
}
