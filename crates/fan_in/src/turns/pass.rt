ghost use Rattle.std.specs.Prelude.{◌≡◌, ◌<◌, ◌+◌, length, IfSome};
ghost use Rattle.stream_base.specs.declared.limits.TheConstants.{JOURNAL_MAX};
ghost use Rattle.turnstile.specs.Passes.{number, fixed, made, seen, IsPassOf, IsSamePass};
ghost use Rattle.fan_in.specs.Seating.{pass_laws};

use crate::desk::offer_through;
use crate::outcome::Outcome;
use crate::port::Port;
use crate::turns::by_source::{BySource, SourceDesk};
use agg_laws::Steps;
use outside::Gate;
use shard_core::ApplyFault;
use source_feed::FeedFault;
use std::sync::Wait;
use std::thread::Threads;
use stream_base::Entry;
use turnstile::Pass;

impl Port for Pass<BySource> {
    type Inlet = SourceDesk;

    ghost is_at = { λ desk pass. IsPassOf desk pass };

    ghost is_of = { λ source pass. (number pass ≡ source + 1)
        × IfSome (fixed pass) (λ f. source < f.sources) };

    ghost is_same = { λ old new. IsSamePass old new };

    ghost handed = { λ pass. made pass };

    ghost is_full = { λ pass. length (seen pass) ≡ JOURNAL_MAX };

    ghost laws = { pass_laws };

    fn hand_in<G: Gate, R: Threads + Wait>(
        &mut self,
        rt: &R,
        gate: &G,
        inlet: &SourceDesk,
        shard: u16,
        entry: &Entry,
    ) -> Outcome {
        let mut steps = Steps::<()>::start(rt);
        let door = (gate, 16 + shard);
        match offer_through(rt, &door, inlet, self, entry, &mut steps) {
            Ok(_) => Outcome::Done,
            Err(ApplyFault::Full) => Outcome::Full { shard },
            // This pass alone makes entries of the source, and hasn't made its end.
            Err(ApplyFault::Ended) => unreachable!(),
            Err(ApplyFault::NoMemory) => Outcome::Fault(FeedFault::NoMemory),
        }
    }
}
