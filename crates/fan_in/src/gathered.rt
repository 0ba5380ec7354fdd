use crate::outcome::Outcome;
use shard_core::Shard;

/// A feed as it is handed back, with its outcome. It can be let go where the feed can.
#[derive(Drop)]
pub struct FeedEnd<F> {
    pub feed: F,
    pub outcome: Outcome,
}

/// The shards in the order of their numbers, and the feeds in the order of their sources. There are
/// no shards where memory ran out to hand them back.
pub struct Gathered<F> {
    pub shards: Vec<Shard>,
    pub ends: Vec<FeedEnd<F>>,
}

/// Memory ran out before any feed was read. The feeds come back as they were.
#[derive(Drop)]
pub struct Unstarted<F> {
    pub feeds: Vec<F>,
}
