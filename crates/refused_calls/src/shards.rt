//! Rows of calls of shards.
ghost use Rattle.std.specs.Prelude.{◌≤◌};

use crate::Calls;
use crate::difference::Difference;
use crate::history::History;
use crate::said::Said;
use crate::tell::{tell_rows, tell_shards};
use crate::trouble::Trouble;
use crate::twins::Twins;
use agg_laws::Steps;
use outside::Sink;
use shard_core::Shard;
use source_feed::goes_to;
use std::alloc::Global;
use std::thread::Threads;
use stream_base::Row;

/// One shard takes all that was said, and its rows that stand are asked for.
pub fn one_shard<R: Threads, K: Sink>(
    rt: &R,
    alloc: Global,
    history: &History,
    sink: &mut K,
) -> Result<(), Trouble> {
    let mut steps: Steps<Calls> = Steps::start(rt);
    let shard = follow(alloc, history, 0, 1, &mut steps)?;
    let rows = standing_again(&shard, &mut steps)?;
    tell_shards(&[shard], sink)?;
    tell_rows(&rows, sink)
}

/// Each of two shards takes what is routed to it.
pub fn two_shards<R: Threads, K: Sink>(
    rt: &R,
    alloc: Global,
    history: &History,
    sink: &mut K,
) -> Result<(), Trouble> {
    let mut steps: Steps<Calls> = Steps::start(rt);
    let first = follow(alloc, history, 0, 2, &mut steps)?;
    let second = follow(alloc, history, 1, 2, &mut steps)?;
    tell_shards(&[first, second], sink)
}

/// The rows that stand, asked for once more where memory is refused.
pub fn standing_again(shard: &Shard, steps: &mut Steps<Calls>) -> Result<Vec<Row>, Trouble> {
    if let Ok(rows) = shard.standing(steps) {
        return Ok(rows);
    }
    match shard.standing(steps) {
        Ok(rows) => Ok(rows),
        Err(_) => Err(Trouble::Differs(Difference::Twice)),
    }
}

// The shard of this number, among so many, which has taken what is routed to it.
fn follow(
    alloc: Global,
    history: &History,
    number: u16,
    shards: u16,
    steps: &mut Steps<Calls>,
) -> Result<Shard, Trouble>
    requires { 1 ≤ shards }
{
    let mut twins = Twins::new(alloc, history)?;
    take_all(&mut twins, history.said, number, shards, steps)?;
    Ok(twins.into_shard())
}

fn take_all(
    twins: &mut Twins,
    all: &[Said],
    number: u16,
    shards: u16,
    steps: &mut Steps<Calls>,
) -> Result<(), Trouble>
    requires { 1 ≤ shards }
{
    for said in all {
        take_routed(twins, said, number, shards, steps)?;
    }
    Ok(())
}

fn take_routed(
    twins: &mut Twins,
    said: &Said,
    number: u16,
    shards: u16,
    steps: &mut Steps<Calls>,
) -> Result<(), Trouble>
    requires { 1 ≤ shards }
{
    let entry = said.entry()?;
    if goes_to(&entry.what, shards, number) {
        twins.take(&entry, steps)
    } else {
        Ok(())
    }
}
