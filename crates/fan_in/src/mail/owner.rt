ghost use Rattle.std.specs.Prelude.{◌≡◌, ◌≤◌, ◌<◌};
ghost use Rattle.shard_core.specs.Shard.{IsJournal};

use crate::mail::message::Message;
use crate::outcome::Outcome;
use crate::plan::Plan;
use agg_laws::Steps;
use outside::Gate;
use shard_core::{ApplyFault, Shard};
use source_feed::FeedFault;
use std::thread::Threads;

// The owner of a shard: it applies the entries of the shard's lane, and notes of each source
// whether one of its entries was refused, or was left once memory had run out.
#[derive(Drop)]
pub(crate) struct Owner {
    pub(crate) number: u16,
    pub(crate) sources: u16,
    pub(crate) shard: Shard,
    pub(crate) notes: [Outcome; 16],
    // Whether memory ran out. Nothing is applied then.
    pub(crate) stopped: bool,
    // Whether an entry came that no feed sends.
    pub(crate) stray: bool,
    ghost few: { number < 16 },
    ghost few_sources: { sources ≤ 16 },
    ghost alike: { shard.sources ≡ sources },
    ghost journal: { IsJournal shard.sources shard.journal },
}

impl Owner {
    ghost use Rattle.std.specs.Prelude.{◌++◌, ℕ, List, [], ◌∷◌};
    ghost use Rattle.stream_base.specs.Limits.{Definitions};
    ghost use Rattle.stream_base.specs.declared.entry.Entry.{Entry};
    ghost use Rattle.fan_in.specs.Owning.{OwnsAfter};

    pub(crate) fn new(shard: Shard, number: u16, plan: &Plan) -> Owner
        requires few { number < 16 }
        requires alike { shard.sources ≡ plan.now.sources }
        requires blank { shard.journal ≡ [] }
        ensures nothing { OwnsAfter shard.defs plan.now.sources number [] result }
    {
        Owner {
            number,
            sources: plan.sources,
            shard,
            notes: [Outcome::Done; 16],
            stopped: false,
            stray: false,
        }
    }

    // Applies an entry, unless memory ran out before. The gate is passed with 16 and the number of
    // the shard.
    pub(crate) fn take_in<G: Gate, R: Threads>(&mut self, rt: &R, gate: &G, message: &Message)
        ensures after { (d : Definitions) (sources k : ℕ) (got : List Entry)
            → OwnsAfter d sources k got self.old
            → OwnsAfter d sources k (got ++ message.now ∷ []) self.new }
    {
        let entry = message.entry();
        if entry.source >= self.sources {
            self.stray = true;
            return;
        }
        let source = usize::from(entry.source);
        if self.stopped {
            self.notes[source] = Outcome::Fault(FeedFault::NoMemory);
            return;
        }
        gate.pass(16 + self.number);
        match self.shard.apply(entry, &mut Steps::<()>::start(rt)) {
            Ok(_) => {}
            Err(ApplyFault::Ended) => self.stray = true,
            Err(ApplyFault::Full) => {
                self.notes[source] = Outcome::Full { shard: self.number };
            }
            Err(ApplyFault::NoMemory) => {
                self.stopped = true;
                self.notes[source] = Outcome::Fault(FeedFault::NoMemory);
            }
        }
    }
}
