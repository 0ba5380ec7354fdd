ghost use Rattle.std.specs.Prelude.{◌≡◌, length, IfOk, IfErr};
ghost use Rattle.fan_in.specs.Gathering.{AreFreshFeeds, AreGathered};
ghost use Rattle.fan_in.specs.Posts.{IsPostOf};
ghost use Rattle.fan_in.specs.Works.{HasRoom, IsReserved};

use crate::gathered::{Gathered, Unstarted};
use crate::mail::outbox::Outbox;
use crate::mail::post::{Post, open_post};
use crate::mail::send_out::send_out;
use crate::mail::settling::settle_all;
use crate::plan::Plan;
use crate::work::{Work, make_room};
use outside::Gate;
use shard_core::Shard;
use source_feed::Feed;
use std::alloc::Global;
use std::sync::Wait;
use std::thread::Threads;
use stream_base::NoMemory;

/// Gathering by mail: each shard has a lane and an owner, and each feed sends its entries there.
pub struct MailFeeds;

impl MailFeeds {
    /// Reads all feeds side by side, and beside them applies their entries to the shards of their
    /// keys: each feed and each owner in a thread of its own where one can be started. A feed for
    /// which memory ran out, or that sent a lane more than a journal holds, is read on to its end,
    /// so that the trouble of a later record is still found.
    pub fn gather<F: Feed + Send, G: Gate, R: Threads + Wait + Sync>(
        &self,
        rt: &R,
        alloc: Global,
        plan: &Plan,
        feeds: Vec<F>,
        gate: &G,
    ) -> Result<Gathered<F>, Unstarted<F>>
        requires fresh { AreFreshFeeds F.state plan.now.sources feeds.items }
        ensures gathered { IfOk result (λ g. AreGathered F.state F.faults plan.now.defs
            plan.now.sources plan.now.shards feeds.items g.shards.items g.ends.items) }

        // Shards are handed back always.
        ensures all_shards { IfOk result (λ g. length g.shards.items ≡ plan.now.shards) }
        ensures unstarted { IfErr result (λ u. u.feeds ≡ feeds) }
    {
        match prepare(alloc, plan) {
            Ok((post, rows, work, mut shards)) => {
                let Post { lanes, mut owners } = post;
                let (mut ends, rows) = send_out(
                    rt,
                    gate,
                    plan,
                    &lanes,
                    owners.as_mut_slice(),
                    work,
                    feeds,
                    rows,
                );
                settle_all(
                    rt,
                    gate,
                    alloc,
                    plan,
                    lanes,
                    owners,
                    rows,
                    &mut shards,
                    ends.as_mut_slice(),
                );
                Ok(Gathered { shards, ends })
            }
            Err(NoMemory) => Err(Unstarted { feeds }),
        }
    }
}

// All that wants memory before a feed is read: the lanes with their senders, and room for the
// readers and the shards.
fn prepare<F>(
    alloc: Global,
    plan: &Plan,
) -> Result<(Post, Vec<Vec<Outbox>>, Work<F, Outbox>, Vec<Shard>), NoMemory>
    ensures open { IfOk result (λ r. IsPostOf plan.now plan.now.shards r.0 r.1.items) }
    ensures room { IfOk result (λ r. HasRoom plan.now.sources r.2) }
    ensures shards { IfOk result (λ r. IsReserved plan.now.shards r.3) }
{
    let (post, rows) = open_post(alloc, plan)?;
    let shards = Vec::with_capacity(alloc, usize::from(plan.shards))?;
    let work = make_room(alloc, usize::from(plan.sources))?;
    Ok((post, rows, work, shards))
}
