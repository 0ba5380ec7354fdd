//! A made run: generated sources are gathered into shards, and what stands there at the end is put
//! into one order.
ghost use Rattle.std.specs.Prelude.{◌≡◌, ◌⊎◌, ℕ, length, map, IfOk};
ghost use Rattle.emission_text.specs.Sending.{Appends, Fails};
ghost use Rattle.stream_base.specs.Model.Final.{final_rows, summary_of};
ghost use Rattle.source_feed.specs.Generated.{made_definitions, made_sources};
ghost use Rattle.final_rows.specs.AtEnd.{rows_of_shards};
ghost use Rattle.scotty_run.specs.Making.{AreMadeFeeds, AreMadeShards, AreOfDefinitions};

use crate::settling::trouble_of;
use crate::ways::gather;
use agg_laws::Steps;
use command_words::MadeWords;
use emission_text::write_summary;
use fan_in::{Gathered, Plan, Unstarted};
use final_rows::sort_rows;
use outside::{Gate, Sink};
use run_inputs::Status;
use shard_core::Shard;
use source_feed::{MadeFeed, made_defs};
use std::alloc::Global;
use std::sync::Wait;
use std::thread::Threads;
use stream_base::{NoMemory, Row};

/// Keeps the steps of a made run apart from those of others.
struct Standing;

/// The rows that stand at the end of a made run, in the order of keys, windows, starts and ends.
/// They are the final rows of the generated sources, in every schedule.
pub fn make_rows<G: Gate, R: Threads + Wait + Sync>(
    alloc: Global,
    rt: &R,
    made: &MadeWords,
    gate: &G,
) -> Result<Vec<Row>, NoMemory>
    ensures { IfOk result (λ rows. rows.items ≡ final_rows made_definitions
        (made_sources made.now.seed made.now.rows made.now.sources)) }
{
    let shards = make_shards(alloc, rt, made, gate)?;
    let mut steps: Steps<Standing> = Steps::start(rt);
    let mut rows = standing_rows(alloc, &shards, &mut steps)?;
    sort_rows(rows.as_mut_slice());
    Ok(rows)
}

// The shards of a made run. Its sources have no refused record, and are too short to fill a shard, so
// what troubles one of them is want of memory.
fn make_shards<G: Gate, R: Threads + Wait + Sync>(
    alloc: Global,
    rt: &R,
    made: &MadeWords,
    gate: &G,
) -> Result<Vec<Shard>, NoMemory>
    ensures { IfOk result (λ shards. AreMadeShards made.now shards.items) }
{
    let feeds = make_feeds(alloc, made)?;
    let plan = Plan {
        defs: made_defs(alloc)?,
        sources: made.sources,
        shards: made.shards,
    };
    match gather(made.way, rt, alloc, &plan, feeds, gate) {
        Ok(Gathered { shards, ends }) => match trouble_of(&ends) {
            None => Ok(shards),
            Some(_) => Err(NoMemory),
        },
        Err(Unstarted { .. }) => Err(NoMemory),
    }
}

// The feeds of the generated sources, in their order.
fn make_feeds(alloc: Global, made: &MadeWords) -> Result<Vec<MadeFeed>, NoMemory>
    ensures many { IfOk result (λ feeds. length feeds.items ≡ made.now.sources) }
    ensures feeds { IfOk result (λ feeds. AreMadeFeeds made.now feeds.items) }
{
    let mut feeds = Vec::with_capacity(alloc, usize::from(made.sources))?;
    for source in 0..made.sources {
        feeds.push_reserved(MadeFeed::new(made.seed, made.rows, made.sources, source));
    }
    Ok(feeds)
}

// The rows that stand in all shards, one shard's behind another's.
fn standing_rows<L>(
    alloc: Global,
    shards: &[Shard],
    steps: &mut Steps<L>,
) -> Result<Vec<Row>, NoMemory>
    ensures { (sources : ℕ) → AreOfDefinitions sources shards.now → IfOk result (λ rows. rows.items
        ≡ rows_of_shards made_definitions sources (map (λ s. s.journal) shards.now)) }
{
    let mut rows = Vec::new(alloc);
    for shard in shards {
        let own = shard.standing(steps)?;
        rows.extend_from_slice(&own)?;
    }
    Ok(rows)
}

/// The summary of the rows of a made run is written.
pub fn print_summary<K: Sink>(tuples: u64, rows: &[Row], sink: &mut K) -> Status
    ensures either { (result ≡ Status.Done) ⊎ (result ≡ Status.WriteFault) }
    ensures done { result ≡ Status.Done
        → Appends K.taken K.faults (summary_of tuples 5 rows.now) sink.old sink.new }
    ensures failed { result ≡ Status.WriteFault
        → Fails K.taken K.faults (summary_of tuples 5 rows.now) sink.old sink.new }
{
    match write_summary(tuples, 5, rows, sink) {
        Ok(()) => Status::Done,
        Err(_) => Status::WriteFault,
    }
}
