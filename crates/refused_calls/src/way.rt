//! Gathering generated feeds, once more with those that come back.
ghost use Rattle.std.specs.Prelude.{◌≡◌, ◌≤◌, IfErr, IfOk};
ghost use Rattle.fan_in.specs.Gathering.{AreFreshFeeds};

use crate::difference::Difference;
use crate::trouble::Trouble;
use fan_in::{FeedEnd, Gathered, MailFeeds, Outcome, Plan, TurnFeeds, Unstarted};
use outside::OpenGate;
use shard_core::Shard;
use source_feed::{FeedFault, MadeFeed, made_defs};
use std::alloc::Global;
use std::sync::Wait;
use std::thread::Threads;

/// How feeds are gathered.
#[derive(Clone, Copy)]
pub enum Way {
    Turns,
    Mail,
}

impl Way {
    /// The shards into which these feeds are gathered. Where memory is refused before a feed is read, those that
    /// come back are.
    pub fn gather<R: Threads + Wait + Sync>(
        self,
        rt: &R,
        alloc: Global,
        plan: &Plan,
        feeds: Vec<MadeFeed>,
    ) -> Result<Vec<Shard>, Trouble>
        requires { AreFreshFeeds (λ f. f) plan.now.sources feeds.items }
    {
        match self.gather_once(rt, alloc, plan, feeds) {
            Ok(gathered) => shards_of(gathered),
            Err(Unstarted { feeds }) => match self.gather_once(rt, alloc, plan, feeds) {
                Ok(gathered) => shards_of(gathered),
                Err(_) => Err(Trouble::Differs(Difference::Twice)),
            },
        }
    }

    fn gather_once<R: Threads + Wait + Sync>(
        self,
        rt: &R,
        alloc: Global,
        plan: &Plan,
        feeds: Vec<MadeFeed>,
    ) -> Result<Gathered<MadeFeed>, Unstarted<MadeFeed>>
        requires { AreFreshFeeds (λ f. f) plan.now.sources feeds.items }
        ensures { IfErr result (λ unstarted. unstarted.feeds ≡ feeds) }
    {
        match self {
            Way::Turns => TurnFeeds.gather(rt, alloc, plan, feeds, &OpenGate),
            Way::Mail => MailFeeds.gather(rt, alloc, plan, feeds, &OpenGate),
        }
    }
}

/// A plan under the definitions of the generated input.
pub fn plan_of(alloc: Global, sources: u16, shards: u16) -> Result<Plan, Trouble>
    requires sources { (1 ≤ sources) × (sources ≤ 16) }
    requires shards { (1 ≤ shards) × (shards ≤ 16) }
    ensures { IfOk result (λ plan. plan.sources ≡ sources) }
{
    Ok(Plan {
        defs: made_defs(alloc)?,
        sources,
        shards,
    })
}

// The shards, where all feeds are done. A feed that was being read can't be read anew.
fn shards_of(gathered: Gathered<MadeFeed>) -> Result<Vec<Shard>, Trouble> {
    let Gathered { shards, ends } = gathered;
    match trouble_of(&ends) {
        Some(trouble) => Err(trouble),
        None => Ok(shards),
    }
}

fn trouble_of(ends: &[FeedEnd<MadeFeed>]) -> Option<Trouble> {
    for end in ends {
        match end.outcome {
            Outcome::Done => {}
            Outcome::Fault(FeedFault::NoMemory) => return Some(Trouble::Memory),
            _ => return Some(Trouble::Differs(Difference::Outcome)),
        }
    }
    None
}
