//! The plain program of parts, over a list of entries.
ghost use Rattle.std.specs.Prelude.{◌≡◌, ◌≤◌, IfOk};
ghost use Rattle.part_laws.specs.Parts.{part_text};

use crate::event::own_bytes;
use std::alloc::Global;
use stream_base::{Entry, NoMemory};

/// The part of a source's entries for a shard, written out as a source.
pub fn part_bytes(
    alloc: Global,
    entries: &[Entry],
    shards: u16,
    shard: u16,
) -> Result<Vec<u8>, NoMemory>
    requires { 1 ≤ shards }
    ensures { IfOk result (λ bytes. bytes.items ≡ part_text shards shard entries.now) }
{
    let mut bytes = Vec::new(alloc);
    for entry in entries {
        bytes.extend_from_slice(&own_bytes(alloc, &entry.what, shards, shard)?)?;
    }
    Ok(bytes)
}
