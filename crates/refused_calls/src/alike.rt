//! Whether a shard is as another one.
ghost use Rattle.std.specs.Prelude.{◌<◌, length};

use crate::difference::Difference;
use crate::trouble::Trouble;
use compact_log::ChangeRange;
use shard_core::Shard;
use stream_base::{Entry, What};

/// Whether two shards have the same journal, the same changes under each of its entries, and as many
/// slices of each key in it and of the key of this entry. If not, what differs is answered.
pub fn alike(shard: &Shard, other: &Shard, entry: &Entry) -> Result<(), Trouble> {
    if shard.journal_len() != other.journal_len() {
        return Err(Trouble::Differs(Difference::Journal));
    }
    for position in 0..shard.journal_len() {
        alike_at(shard, other, position)?;
    }
    alike_in_slices(shard, other, entry)
}

fn alike_at(shard: &Shard, other: &Shard, position: u64) -> Result<(), Trouble>
    requires shard { position < length shard.now.journal }
    requires other { position < length other.now.journal }
{
    let entry = shard.entry_at(position);
    if entry != other.entry_at(position) {
        return Err(Trouble::Differs(Difference::Entry));
    }
    if !are_same(&shard.changes_at(position), &other.changes_at(position)) {
        return Err(Trouble::Differs(Difference::Changes));
    }
    alike_in_slices(shard, other, &entry)
}

// Whether the same changes come in the same order.
fn are_same(changes: &ChangeRange<'_>, others: &ChangeRange<'_>) -> bool {
    if changes.len() != others.len() {
        return false;
    }
    for at in 0..changes.len() {
        if changes.get(at) != others.get(at) {
            return false;
        }
    }
    true
}

fn alike_in_slices(shard: &Shard, other: &Shard, entry: &Entry) -> Result<(), Trouble> {
    match entry.what {
        What::Tuple { key, .. } | What::Mark { key, .. } => {
            if shard.slice_count(&key) == other.slice_count(&key) {
                Ok(())
            } else {
                Err(Trouble::Differs(Difference::Slices))
            }
        }
        What::Water { .. } | What::Idle | What::End => Ok(()),
    }
}
