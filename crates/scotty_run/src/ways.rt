ghost use Rattle.std.specs.Prelude.{◌≡◌, IfOk, IfErr};
ghost use Rattle.fan_in.specs.Gathering.{AreFreshFeeds, AreGathered};

use command_words::Way;
use fan_in::{Gathered, MailFeeds, Plan, TurnFeeds, Unstarted};
use outside::Gate;
use source_feed::Feed;
use std::alloc::Global;
use std::sync::Wait;
use std::thread::Threads;

/// Gathers feeds into shards in a way. What comes of it is the same in both.
pub fn gather<F: Feed + Send, G: Gate, R: Threads + Wait + Sync>(
    way: Way,
    rt: &R,
    alloc: Global,
    plan: &Plan,
    feeds: Vec<F>,
    gate: &G,
) -> Result<Gathered<F>, Unstarted<F>>
    requires fresh { AreFreshFeeds F.state plan.now.sources feeds.items }
    ensures gathered { IfOk result (λ g. AreGathered F.state F.faults plan.now.defs
        plan.now.sources plan.now.shards feeds.items g.shards.items g.ends.items) }
    ensures unstarted { IfErr result (λ u. u.feeds ≡ feeds) }
{
    match way {
        Way::Turns => TurnFeeds.gather(rt, alloc, plan, feeds, gate),
        Way::Mail => MailFeeds.gather(rt, alloc, plan, feeds, gate),
    }
}
