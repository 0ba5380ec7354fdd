ghost use Rattle.std.specs.Prelude.{◌≡◌, IfOk};

use agg_laws::Steps;
use fan_in::{Booked, FeedEnd, Gathered, MailFeeds, Outcome, Plan, TurnFeeds, offer};
use outside::OpenGate;
use shard_core::{Applied, Shard};
use source_feed::{MadeFeed, made_defs};
use std::alloc::Global;
use std::test::Fail;
use stream_base::{Entry, NoMemory, What};
use turnstile::{PassEnd, Turnstile};

// Keeps the steps of a test apart.
struct Offers;

#[test]
fn offers_of_two_passes_stand_under_their_numbers(rt: HostRuntime) -> Result<(), Fail> {
    let alloc: Global = rt.alloc();
    let entry = Entry {
        source: 0,
        what: What::Water { time: 1 },
    };
    assert!(rt; entry.is_within_limits());
    let shard = Shard::new(alloc, made_defs(alloc)?, 1)?;
    let (desk, mut zero) = Turnstile::new(alloc, Booked::new(shard))?;
    let mut one = desk.split(&mut zero)?;
    let mut steps: Steps<Offers> = Steps::start(&rt);
    assert_eq!(rt; (zero.number(), one.number()), (0, 1));
    let first = offer(&rt, &desk, &mut zero, &entry, &mut steps);
    let second = offer(&rt, &desk, &mut one, &entry, &mut steps);
    assert_eq!(rt; first, Ok(at(0)));
    assert_eq!(rt; second, Ok(at(1)));
    desk.meet(&mut zero, &mut one)?;
    let passes = vec![in alloc; zero, one]?;
    let (booked, ends) = desk
        .close(&rt, alloc, passes)
        .map_err(|_| "no memory to close with")?;
    assert_eq!(rt;
        ends.as_slice(),
        [PassEnd { number: 0 }, PassEnd { number: 1 }].as_slice()
    );
    assert_eq!(rt; booked.shard().journal_len(), 2);
    Ok(())
}

// An entry at this position, which caused no change.
fn at(position: u64) -> Applied {
    Applied {
        position,
        changes: 0,
    }
}

// One source and one shard.
fn plan_of_one(alloc: Global) -> Result<Plan, NoMemory>
    ensures { IfOk result (λ plan. (plan.sources ≡ 1) × (plan.shards ≡ 1)) }
{
    Ok(Plan {
        defs: made_defs(alloc)?,
        sources: 1,
        shards: 1,
    })
}

// One shard with a tuple and the end of its source, whose feed is done.
fn is_whole(shards: &[Shard], ends: &[FeedEnd<MadeFeed>]) -> bool {
    shards.len() == 1
        && shards[0].journal_len() == 2
        && ends.len() == 1
        && ends[0].outcome == Outcome::Done
}

#[test]
fn a_generated_tuple_is_gathered_at_a_desk(rt: HostRuntime) -> Result<(), Fail> {
    let alloc: Global = rt.alloc();
    let plan = plan_of_one(alloc)?;
    let feeds = vec![in alloc; MadeFeed::new(0, 1, 1, 0)]?;
    let Gathered { shards, ends } = TurnFeeds
        .gather(&rt, alloc, &plan, feeds, &OpenGate)
        .map_err(|_| "no memory to start with")?;
    assert!(rt; is_whole(&shards, &ends));
    Ok(())
}

#[test]
fn a_generated_tuple_is_gathered_by_mail(rt: HostRuntime) -> Result<(), Fail> {
    let alloc: Global = rt.alloc();
    let plan = plan_of_one(alloc)?;
    let feeds = vec![in alloc; MadeFeed::new(0, 1, 1, 0)]?;
    let Gathered { shards, ends } = MailFeeds
        .gather(&rt, alloc, &plan, feeds, &OpenGate)
        .map_err(|_| "no memory to start with")?;
    assert!(rt; is_whole(&shards, &ends));
    Ok(())
}
