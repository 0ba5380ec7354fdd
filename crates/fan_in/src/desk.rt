ghost use Rattle.std.specs.Prelude.{IfSome, IsErrOf};
ghost use Rattle.shard_core.specs.declared.applied.ApplyFault.TheVariants.{Ended};
ghost use Rattle.turnstile.specs.Passes.{number, fixed, IsPassOf};
ghost use Rattle.fan_in.specs.Offers.{FoundEnded, IsAnswered, MayOffer};

use crate::booked::{Booked, BookedBy};
use crate::door::{Door, NoDoor};
use crate::numbering::Numbering;
use agg_laws::Steps;
use shard_core::{Applied, ApplyFault};
use std::sync::Wait;
use stream_base::Entry;
use turnstile::{Call, Pass, Turnstile};

/// A shard that callers share: each holds a pass, and takes turns.
pub type Desk = Turnstile<Booked>;

// The call of one offer, which passes a door inside its turn.
struct OfferTurn<'a, 'b, D, L> {
    door: &'a D,
    entry: &'a Entry,
    steps: &'b mut Steps<L>,
}

impl<N: Numbering, D: Door, L> Call<BookedBy<N>> for OfferTurn<'_, '_, D, L> {
    ghost use Rattle.std.specs.Prelude.{All};
    ghost use Rattle.fan_in.specs.Desks.{items_of};
    ghost use Rattle.fan_in.specs.Offers.{Books, MayOffer};

    type Reply = Result<Applied, ApplyFault>;

    ghost may_run = { λ call fixed number. MayOffer call.entry.now fixed
        × N.may number call.entry.now };

    ghost does = { λ call before after number reply.
        Books call.entry.now before after number reply
        × All (λ item. N.may item.0 item.1) (items_of before) };

    fn run(self, value: &mut BookedBy<N>, number: u64) -> Result<Applied, ApplyFault> {
        let OfferTurn { door, entry, steps } = self;
        door.pass();
        value.book(entry, number, steps)
    }
}

/// One turn that applies the entry. It is refused where its source has ended already, or else where
/// the journal is full, as it stands at that turn, or for want of memory.
pub fn offer<L, R: Wait>(
    rt: &R,
    desk: &Desk,
    pass: &mut Pass<Booked>,
    entry: &Entry,
    steps: &mut Steps<L>,
) -> Result<Applied, ApplyFault>
    requires own { IsPassOf desk.now pass.old }
    requires may { IfSome (fixed pass.old) (MayOffer entry.now) }
    ensures answered { IsAnswered entry.now pass.old pass.new result }
{
    offer_through(rt, &NoDoor, desk, pass, entry, steps)
}

// The same at any desk, through a door. Where the source has ended, the turn found its end.
pub(crate) fn offer_through<N: Numbering, D: Door, L, R: Wait>(
    rt: &R,
    door: &D,
    desk: &Turnstile<BookedBy<N>>,
    pass: &mut Pass<BookedBy<N>>,
    entry: &Entry,
    steps: &mut Steps<L>,
) -> Result<Applied, ApplyFault>
    requires own { IsPassOf desk.now pass.old }
    requires may { IfSome (fixed pass.old) (MayOffer entry.now) }
    requires numbered { N.may (number pass.old) entry.now }
    ensures answered { IsAnswered entry.now pass.old pass.new result }
    ensures ended { IsErrOf result Ended → FoundEnded N.may entry.now pass.old }
{
    let call = OfferTurn { door, entry, steps };
    desk.turn(rt, pass, call)
}
