//! Applying an entry, once more where memory is refused.
ghost use Rattle.std.specs.Prelude.{◌≡◌};
ghost use Rattle.shard_core.specs.Shard.{IsKnown};

use crate::Calls;
use crate::alike::alike;
use crate::trouble::{Trouble, refusal};
use agg_laws::Steps;
use shard_core::{Applied, ApplyFault, Shard};
use stream_base::Entry;

/// Applies an entry. Where that is refused memory, the shard has to be as this other one, and the
/// entry is applied once more.
pub fn apply_again(
    shard: &mut Shard,
    before: &Shard,
    entry: &Entry,
    steps: &mut Steps<Calls>,
) -> Result<Applied, Trouble>
    requires { IsKnown shard.old.sources entry.now }
    ensures { shard.new.sources ≡ shard.old.sources }
{
    match apply(shard, entry, steps) {
        Ok(applied) => Ok(applied),
        Err(ApplyFault::NoMemory) => {
            alike(shard, before, entry)?;
            apply_now(shard, entry, steps)
        }
        Err(fault) => Err(refusal(fault)),
    }
}

/// Applies an entry, and once more where that is refused memory.
pub fn apply_twice(
    shard: &mut Shard,
    entry: &Entry,
    steps: &mut Steps<Calls>,
) -> Result<Applied, Trouble>
    requires { IsKnown shard.old.sources entry.now }
    ensures { shard.new.sources ≡ shard.old.sources }
{
    match apply(shard, entry, steps) {
        Ok(applied) => Ok(applied),
        Err(ApplyFault::NoMemory) => apply_now(shard, entry, steps),
        Err(fault) => Err(refusal(fault)),
    }
}

// Applies an entry that may not be refused.
fn apply_now(shard: &mut Shard, entry: &Entry, steps: &mut Steps<Calls>) -> Result<Applied, Trouble>
    requires { IsKnown shard.old.sources entry.now }
    ensures { shard.new.sources ≡ shard.old.sources }
{
    match apply(shard, entry, steps) {
        Ok(applied) => Ok(applied),
        Err(fault) => Err(refusal(fault)),
    }
}

// One call, which keeps the number of sources whatever it answers.
fn apply(shard: &mut Shard, entry: &Entry, steps: &mut Steps<Calls>) -> Result<Applied, ApplyFault>
    requires { IsKnown shard.old.sources entry.now }
    ensures { shard.new.sources ≡ shard.old.sources }
{
    match shard.apply(entry, steps) {
        Ok(applied) => Ok(applied),
        Err(fault) => Err(fault),
    }
}
