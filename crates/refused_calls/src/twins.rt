ghost use Rattle.std.specs.Prelude.{◌≡◌};

use crate::Calls;
use crate::alike::alike;
use crate::apply::{apply_again, apply_twice};
use crate::difference::Difference;
use crate::history::History;
use crate::trouble::Trouble;
use agg_laws::Steps;
use shard_core::Shard;
use std::alloc::Global;
use stream_base::Entry;

/// Two shards that take the same entries, one after the other. So while the first is refused an
/// entry, the second stands as the first did before.
#[derive(Drop)]
pub struct Twins {
    shard: Shard,
    twin: Shard,
    ghost one_source: { shard.sources ≡ 1 },
    ghost twin_source: { twin.sources ≡ 1 },
}

impl Twins {
    ghost use Rattle.shard_core.specs.Shard.{IsKnown};

    /// Two shards under the definitions of a history, with no entry yet.
    pub fn new(alloc: Global, history: &History) -> Result<Twins, Trouble> {
        let shard = history.shard(alloc)?;
        let twin = history.shard(alloc)?;
        Ok(Twins { shard, twin })
    }

    /// Both take an entry of the one source, to the same effect.
    pub fn take(&mut self, entry: &Entry, steps: &mut Steps<Calls>) -> Result<(), Trouble>
        requires { IsKnown 1 entry.now }
    {
        let applied = apply_again(&mut self.shard, &self.twin, entry, steps)?;
        let by_twin = apply_twice(&mut self.twin, entry, steps)?;
        if applied != by_twin {
            return Err(Trouble::Differs(Difference::Applied));
        }
        alike(&self.shard, &self.twin, entry)
    }

    /// The first of them.
    pub fn into_shard(self) -> Shard {
        let Twins { shard, twin: _ } = self;
        shard
    }
}
