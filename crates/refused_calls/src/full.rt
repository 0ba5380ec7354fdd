//! The row of a journal that is full.
ghost use Rattle.std.specs.Prelude.{◌≡◌};
ghost use Rattle.shard_core.specs.Shard.{IsKnown};

use crate::Calls;
use crate::apply::apply_twice;
use crate::history::TUMBLING;
use crate::said::Said;
use crate::trouble::Trouble;
use agg_laws::Steps;
use shard_core::Shard;
use std::alloc::Global;
use std::thread::Threads;
use stream_base::{Entry, JOURNAL_MAX};

/// A shard takes as many entries as a journal holds, and is told one more.
pub fn full<R: Print + Threads>(rt: &R, alloc: Global) -> Result<(), Trouble> {
    let mut steps: Steps<Calls> = Steps::start(rt);
    let mut shard = TUMBLING.shard(alloc)?;
    let entry = Said::Water { time: 0 }.entry()?;
    fill(&mut shard, &entry, &mut steps)?;
    let entries = shard.journal_len();
    let answer = shard.apply(&entry, &mut steps);
    let then = shard.journal_len();
    println!(rt; "{entries} entries, {answer:?}, {then} entries")?;
    Ok(())
}

fn fill(shard: &mut Shard, entry: &Entry, steps: &mut Steps<Calls>) -> Result<(), Trouble>
    requires { IsKnown shard.old.sources entry.now }
    ensures { shard.new.sources ≡ shard.old.sources }
{
    for _number in 0..JOURNAL_MAX {
        apply_twice(shard, entry, steps)?;
    }
    Ok(())
}
