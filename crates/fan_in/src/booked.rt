ghost use Rattle.std.specs.Prelude.{◌≡◌, [], All, length};
ghost use Rattle.fan_in.specs.Desks.{fixed_of, items_of};
ghost use Rattle.fan_in.specs.Offers.{Books, MayOffer};
ghost use Rattle.shard_core.specs.Shard.{IsJournal};

use crate::fixed_part::FixedPart;
use crate::number_log::{NumberLog, with_number};
use crate::numbering::{AnyPass, Numbering};
use agg_laws::Steps;
use shard_core::{Applied, ApplyFault, Shard};
use std::marker::{Model, PhantomData};
use stream_base::Entry;
use turnstile::Keeps;

/// A shard, and for each entry of its journal the number of the pass that made it. Contracts see
/// the shard and the numbers, as many as the journal has entries.
pub type Booked = BookedBy<AnyPass>;

/// The same, where each entry has a number that `N` allows it.
#[derive(Drop)]
pub struct BookedBy<N: Numbering> {
    shard: Shard,
    // No code reads them.
    numbers: NumberLog,
    by: PhantomData<N>,
}

impl<N: Numbering> Model for BookedBy<N> {
    ghost use Rattle.fan_in.specs.Desks.{BookedState};

    ghost Value = { BookedState };

    ghost use Rattle.fan_in.specs.BookedView.{booked_state, IsBooked};

    ghost view = { booked_state };

    ghost invariant = { IsBooked N.may };
}

impl<N: Numbering> BookedBy<N> {
    /// A shard with no entry yet.
    pub fn new(shard: Shard) -> BookedBy<N>
        requires { shard.journal ≡ [] }
        ensures { result ≡ record { shard = shard; numbers = [] } }
    {
        BookedBy {
            shard,
            numbers: NumberLog::Start,
            by: PhantomData,
        }
    }

    /// The shard.
    pub fn shard(&self) -> &Shard
        ensures value { result.now ≡ (self.now).shard }
        ensures numbered { length (self.now).numbers ≡ length ((self.now).shard).journal }
    {
        &self.shard
    }

    /// The shard, handed out.
    pub fn into_shard(self) -> Shard
        ensures value { result ≡ self.shard }
        ensures numbered { length self.numbers ≡ length (self.shard).journal }
        ensures journal { IsJournal (self.shard).sources (self.shard).journal }
    {
        let BookedBy {
            shard,
            numbers: _,
            by: _,
        } = self;
        shard
    }

    // Applies an entry, under the number of a pass.
    pub(crate) fn book<L>(
        &mut self,
        entry: &Entry,
        number: u64,
        steps: &mut Steps<L>,
    ) -> Result<Applied, ApplyFault>
        requires may { MayOffer entry.now (fixed_of self.old) }
        requires numbered { N.may number entry.now }
        ensures books { Books entry.now self.old self.new number result }
        ensures before { All (λ item. N.may item.0 item.1) (items_of self.old) }
    {
        let applied = self.shard.apply(entry, steps)?;
        self.numbers = with_number(&self.numbers, number);
        Ok(applied)
    }
}

impl<N: Numbering> Keeps for BookedBy<N> {
    type Item = Entry;

    type Fixed = FixedPart;

    ghost items = { items_of };

    ghost fixed = { fixed_of };
}
