ghost use Rattle.std.specs.Prelude.{◌≡◌, length, IfOk, IfErr};
ghost use Rattle.fan_in.specs.Floors.{IsFloorOf};
ghost use Rattle.fan_in.specs.Gathering.{AreFreshFeeds, AreGathered};
ghost use Rattle.fan_in.specs.Works.{HasRoom};

use crate::gathered::{Gathered, Unstarted};
use crate::plan::Plan;
use crate::turns::by_source::BySource;
use crate::turns::floor::{Floor, open_floor};
use crate::turns::hand_back::hand_back;
use crate::turns::read_out::read_out;
use crate::work::{Work, make_room};
use outside::Gate;
use shard_core::Shard;
use source_feed::Feed;
use std::alloc::Global;
use std::sync::Wait;
use std::thread::Threads;
use stream_base::NoMemory;
use turnstile::Pass;

/// Gathering by turns: each shard stands at a desk, and each feed offers its entries there.
pub struct TurnFeeds;

impl TurnFeeds {
    /// Reads all feeds side by side, each in a thread of its own where one can be started, and
    /// applies their entries to the shards of their keys. A feed that met a full shard, or want of
    /// memory, is read on to its end, so that the trouble of a later record is still found.
    pub fn gather<F: Feed + Send, G: Gate, R: Threads + Wait + Sync>(
        &self,
        rt: &R,
        alloc: Global,
        plan: &Plan,
        feeds: Vec<F>,
        gate: &G,
    ) -> Result<Gathered<F>, Unstarted<F>>
        requires fresh { AreFreshFeeds F.state plan.now.sources feeds.items }
        ensures gathered { IfOk result (λ g. AreGathered F.state F.faults plan.now.defs
            plan.now.sources plan.now.shards feeds.items g.shards.items g.ends.items) }
        ensures unstarted { IfErr result (λ u. u.feeds ≡ feeds) }
    {
        match prepare(alloc, plan) {
            Ok((floor, rows, work)) => {
                let (ends, rows) = read_out(rt, gate, &floor.desks, work, feeds, rows);
                Ok(hand_back(rt, alloc, plan, floor, rows, ends))
            }
            Err(NoMemory) => Err(Unstarted { feeds }),
        }
    }
}

// All that wants memory before a feed is read: the desks with their passes, and room for the
// readers.
fn prepare<F>(
    alloc: Global,
    plan: &Plan,
) -> Result<(Floor, Vec<Vec<Pass<BySource>>>, Work<F, Pass<BySource>>), NoMemory>
    ensures shards { IfOk result (λ r. length r.0.desks.items ≡ plan.now.shards) }
    ensures open { IfOk result (λ r. IsFloorOf plan.now r.0 r.1.items) }
    ensures room { IfOk result (λ r. HasRoom plan.now.sources r.2) }
{
    let (floor, rows) = open_floor(alloc, plan)?;
    let work = make_room(alloc, usize::from(plan.sources))?;
    Ok((floor, rows, work))
}
