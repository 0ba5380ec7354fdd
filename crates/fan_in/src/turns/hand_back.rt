ghost use Rattle.std.specs.Prelude.{◌≡◌, ◌<◌, ◌⊎◌, [], length};
ghost use Rattle.fan_in.specs.Closings.{AreClosed, IsStandingOf};
ghost use Rattle.fan_in.specs.Floors.{known_in};
ghost use Rattle.fan_in.specs.Gathering.{AreSameFeeds};
ghost use Rattle.fan_in.specs.Works.{AreSameOutcomes, OutcomesAre, without_shards};

use crate::gathered::{FeedEnd, Gathered};
use crate::outcome::Outcome;
use crate::plan::Plan;
use crate::turns::by_source::BySource;
use crate::turns::closing::close_all;
use crate::turns::floor::Floor;
use source_feed::FeedFault;
use std::alloc::Global;
use std::sync::Wait;
use stream_base::NoMemory;
use turnstile::Pass;

// Closes the desks, and hands the shards and the feeds out.
pub(crate) fn hand_back<F, R: Wait>(
    rt: &R,
    alloc: Global,
    plan: &Plan,
    floor: Floor,
    mut rows: Vec<Vec<Pass<BySource>>>,
    mut ends: Vec<FeedEnd<F>>,
) -> Gathered<F>
    requires standing { IsStandingOf plan.now floor rows.items }
    ensures same { AreSameFeeds ends.items result.ends.items }
    ensures outcomes { ((result.shards.items ≡ [])
        × OutcomesAre without_shards ends.items result.ends.items)
        ⊎ ((length result.shards.items ≡ length floor.desks.items)
        × AreSameOutcomes ends.items result.ends.items) }
    ensures closed { AreClosed (known_in plan.now) rows.items result.shards.items }
{
    match close_all(rt, alloc, plan, floor, rows.as_mut_slice()) {
        Ok(shards) => Gathered { shards, ends },
        Err(NoMemory) => {
            give_up(ends.as_mut_slice());
            Gathered {
                shards: Vec::new(alloc),
                ends,
            }
        }
    }
}

// No shard can be handed out: each feed without a fault of its own has want of memory.
fn give_up<F>(ends: &mut [FeedEnd<F>])
    ensures same { AreSameFeeds ends.old ends.new }
    ensures outcomes { OutcomesAre without_shards ends.old ends.new }
{
    for end in ends.iter_mut() {
        end.outcome = without_shards(end.outcome);
    }
}

// The outcome of a feed where no shard can be handed out.
fn without_shards(outcome: Outcome) -> Outcome
    ensures { result ≡ without_shards outcome }
{
    match outcome {
        Outcome::Fault(fault) => Outcome::Fault(fault),
        Outcome::Done | Outcome::Full { .. } => Outcome::Fault(FeedFault::NoMemory),
    }
}
