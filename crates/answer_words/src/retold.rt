ghost use Rattle.std.specs.Prelude.{◌≡◌};

use agg_laws::Steps;
use shard_core::Shard;
use std::alloc::Global;
use std::thread::Threads;
use stream_base::{Defs, Entry};

// A shard into which the entries of a report's journal go once more.
#[derive(Drop)]
pub struct Retold {
    shard: Shard,
    sources: u16,
    ghost alike: { shard.sources ≡ sources },
}

impl Retold {
    // With no entry yet, where there are 1 to 16 sources, and memory.
    pub fn new(alloc: Global, defs: &Defs, sources: u16) -> Option<Retold> {
        if sources == 0 || sources > 16 {
            return None;
        }
        let copy = defs.copy(alloc).ok()?;
        let shard = Shard::new(alloc, copy, sources).ok()?;
        Some(Retold { shard, sources })
    }

    // Applies an entry, and answers whether it may stand there.
    pub fn take_in<R: Threads>(&mut self, rt: &R, entry: &Entry) -> bool {
        if entry.source >= self.sources || !entry.is_within_limits() {
            return false;
        }
        self.shard.apply(entry, &mut Steps::<()>::start(rt)).is_ok()
    }

    pub fn into_shard(self) -> Shard {
        let Retold { shard, sources: _ } = self;
        shard
    }
}
