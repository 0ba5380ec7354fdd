use crate::tally::Tally;
use shard_core::Shard;

/// What was watched: the shard with all entries, and what each reader has read.
#[derive(Drop)]
pub struct Watched {
    pub shard: Shard,
    /// One list for each reader, in their order.
    pub reads: Vec<Vec<Tally>>,
}
