//! Rows of gathering generated feeds.
ghost use Rattle.std.specs.Prelude.{IfOk};
ghost use Rattle.fan_in.specs.Gathering.{AreFreshFeeds};

use crate::Calls;
use crate::shards::standing_again;
use crate::tell::tell_shards;
use crate::trouble::Trouble;
use crate::way::{Way, plan_of};
use agg_laws::Steps;
use emission_text::write_summary;
use final_rows::sort_rows;
use outside::Sink;
use shard_core::Shard;
use source_feed::MadeFeed;
use std::alloc::Global;
use std::sync::Wait;
use std::thread::Threads;
use stream_base::Row;

/// One generated tuple is gathered into one shard, by turns and by mail.
pub fn gathers<R: Threads + Wait + Sync, K: Sink>(
    rt: &R,
    alloc: Global,
    sink: &mut K,
) -> Result<(), Trouble> {
    let by_turns = one_tuple(rt, alloc, Way::Turns)?;
    let by_mail = one_tuple(rt, alloc, Way::Mail)?;
    tell_shards(&by_turns, sink)?;
    tell_shards(&by_mail, sink)
}

fn one_tuple<R: Threads + Wait + Sync>(
    rt: &R,
    alloc: Global,
    way: Way,
) -> Result<Vec<Shard>, Trouble> {
    let plan = plan_of(alloc, 1, 1)?;
    let feeds = vec![in alloc; MadeFeed::new(0, 1, 1, 0)]?;
    way.gather(rt, alloc, &plan, feeds)
}

/// A hundred generated tuples of two sources are gathered into two shards, and what stands in these is summed up.
pub fn made<R: Threads + Wait + Sync, K: Sink>(
    rt: &R,
    alloc: Global,
    way: Way,
    sink: &mut K,
) -> Result<(), Trouble> {
    let shards = made_shards(rt, alloc, way)?;
    let mut steps: Steps<Calls> = Steps::start(rt);
    let mut rows = Vec::new(alloc);
    add_standing(&mut rows, &shards, &mut steps)?;
    sort_rows(rows.as_mut_slice());
    Ok(write_summary(100, 5, &rows, sink)?)
}

fn made_shards<R: Threads + Wait + Sync>(
    rt: &R,
    alloc: Global,
    way: Way,
) -> Result<Vec<Shard>, Trouble> {
    let plan = plan_of(alloc, 2, 2)?;
    let feeds = two_feeds(alloc)?;
    way.gather(rt, alloc, &plan, feeds)
}

fn two_feeds(alloc: Global) -> Result<Vec<MadeFeed>, Trouble>
    ensures { IfOk result (λ feeds. AreFreshFeeds (λ f. f) 2 feeds.items) }
{
    let first = MadeFeed::new(0, 100, 2, 0);
    let second = MadeFeed::new(0, 100, 2, 1);
    Ok(vec![in alloc; first, second]?)
}

fn add_standing(
    rows: &mut Vec<Row>,
    shards: &[Shard],
    steps: &mut Steps<Calls>,
) -> Result<(), Trouble> {
    for shard in shards {
        add_rows(rows, &standing_again(shard, steps)?)?;
    }
    Ok(())
}

// Adds rows, once more where memory is refused.
fn add_rows(rows: &mut Vec<Row>, more: &[Row]) -> Result<(), Trouble> {
    if rows.extend_from_slice(more).is_ok() {
        return Ok(());
    }
    Ok(rows.extend_from_slice(more)?)
}
