//! The row of a desk with two passes.
ghost use Rattle.std.specs.Prelude.{◌≡◌, IfSome};
ghost use Rattle.fan_in.specs.Offers.{MayOffer};
ghost use Rattle.shard_core.specs.Shard.{IsKnown};
ghost use Rattle.turnstile.specs.Passes.{fixed, IsPassOf};

use crate::Calls;
use crate::alike::alike;
use crate::apply::apply_twice;
use crate::difference::Difference;
use crate::history::TUMBLING;
use crate::look::Look;
use crate::said::Said;
use crate::tell::tell_shards;
use crate::trouble::{Trouble, refusal};
use agg_laws::Steps;
use fan_in::{Booked, Desk, offer};
use outside::Sink;
use shard_core::{Applied, ApplyFault, Shard};
use std::alloc::Global;
use std::sync::Wait;
use std::thread::Threads;
use stream_base::Entry;
use turnstile::{Pass, PassEnd, Turnstile, Unclosed};

const FIRST: Said = Said::Tuple {
    key: b'a',
    time: 1,
    value: 5,
};

const SECOND: Said = Said::Water { time: 10 };

/// Each of two passes offers an entry, they meet, and the desk is closed with both.
pub fn desk<R: Print + Threads + Wait, K: Sink>(
    rt: &R,
    alloc: Global,
    sink: &mut K,
) -> Result<(), Trouble> {
    let first = FIRST.entry()?;
    let second = SECOND.entry()?;
    let shard = TUMBLING.shard(alloc)?;
    let (desk, mut zero) = Turnstile::new(alloc, Booked::new(shard))?;
    let mut one = desk.split(&mut zero)?;
    let twin = offer_both(rt, alloc, &desk, &mut zero, &mut one, &first, &second)?;
    let (booked, ends) = close_again(rt, alloc, desk, zero, one)?;
    tell_closed(rt, booked, &ends, &twin, &second, sink)
}

// The first pass offers an entry, the second another, and they meet. A shard that took the same is answered.
fn offer_both<R: Threads + Wait>(
    rt: &R,
    alloc: Global,
    desk: &Desk,
    zero: &mut Pass<Booked>,
    one: &mut Pass<Booked>,
    first: &Entry,
    second: &Entry,
) -> Result<Shard, Trouble>
    requires own { IsPassOf desk.now zero.old × IsPassOf desk.now one.old }
    requires first { IfSome (fixed zero.old) (MayOffer first.now) }
    requires second { IfSome (fixed one.old) (MayOffer second.now) }
    requires known { IsKnown 1 first.now × IsKnown 1 second.now }
    ensures zero { IsPassOf desk.now zero.new }
    ensures one { IsPassOf desk.now one.new }
{
    let mut steps: Steps<Calls> = Steps::start(rt);
    let mut twin = TUMBLING.shard(alloc)?;
    offer_again(rt, desk, zero, &mut twin, first, &mut steps)?;
    offer_again(rt, desk, one, &mut twin, second, &mut steps)?;
    desk.meet(zero, one)?;
    Ok(twin)
}

// Offers an entry, which the twin then takes too, to the same effect.
fn offer_again<R: Wait>(
    rt: &R,
    desk: &Desk,
    pass: &mut Pass<Booked>,
    twin: &mut Shard,
    entry: &Entry,
    steps: &mut Steps<Calls>,
) -> Result<(), Trouble>
    requires own { IsPassOf desk.now pass.old }
    requires may { IfSome (fixed pass.old) (MayOffer entry.now) }
    requires known { IsKnown 1 entry.now }
    requires twin { twin.old.sources ≡ 1 }
    ensures own { IsPassOf desk.now pass.new }
    ensures twin { twin.new.sources ≡ 1 }
{
    let applied = offer_and_look(rt, desk, pass, twin, entry, steps)?;
    if apply_twice(twin, entry, steps)? == applied {
        Ok(())
    } else {
        Err(Trouble::Differs(Difference::Applied))
    }
}

// Offers an entry. Where that is refused memory, a turn looks whether the shard is as its twin, and the
// entry is offered once more.
fn offer_and_look<R: Wait>(
    rt: &R,
    desk: &Desk,
    pass: &mut Pass<Booked>,
    twin: &Shard,
    entry: &Entry,
    steps: &mut Steps<Calls>,
) -> Result<Applied, Trouble>
    requires own { IsPassOf desk.now pass.old }
    requires may { IfSome (fixed pass.old) (MayOffer entry.now) }
    ensures { IsPassOf desk.now pass.new }
{
    match offer(rt, desk, pass, entry, steps) {
        Ok(applied) => Ok(applied),
        Err(ApplyFault::NoMemory) => {
            desk.turn(rt, pass, Look { other: twin, entry })?;
            offer_now(rt, desk, pass, entry, steps)
        }
        Err(fault) => Err(refusal(fault)),
    }
}

// Offers an entry that may not be refused.
fn offer_now<R: Wait>(
    rt: &R,
    desk: &Desk,
    pass: &mut Pass<Booked>,
    entry: &Entry,
    steps: &mut Steps<Calls>,
) -> Result<Applied, Trouble>
    requires own { IsPassOf desk.now pass.old }
    requires may { IfSome (fixed pass.old) (MayOffer entry.now) }
    ensures { IsPassOf desk.now pass.new }
{
    match offer(rt, desk, pass, entry, steps) {
        Ok(applied) => Ok(applied),
        Err(fault) => Err(refusal(fault)),
    }
}

// Closes the desk, with what came back where memory was refused.
fn close_again<R: Wait>(
    rt: &R,
    alloc: Global,
    desk: Desk,
    zero: Pass<Booked>,
    one: Pass<Booked>,
) -> Result<(Booked, Vec<PassEnd>), Trouble>
    requires zero { IsPassOf desk zero }
    requires one { IsPassOf desk one }
{
    let passes = vec![in alloc; zero, one]?;
    match desk.close(rt, alloc, passes) {
        Ok(closed) => Ok(closed),
        Err(Unclosed { turnstile, passes }) => match turnstile.close(rt, alloc, passes) {
            Ok(closed) => Ok(closed),
            Err(_) => Err(Trouble::Differs(Difference::Twice)),
        },
    }
}

// Prints the ends of the passes and the report of the shard, which has to be as its twin is.
fn tell_closed<R: Print, K: Sink>(
    rt: &R,
    booked: Booked,
    ends: &[PassEnd],
    twin: &Shard,
    entry: &Entry,
    sink: &mut K,
) -> Result<(), Trouble> {
    let shard = booked.into_shard();
    alike(&shard, twin, entry)?;
    println!(rt; "{ends:?}")?;
    tell_shards(&[shard], sink)
}
