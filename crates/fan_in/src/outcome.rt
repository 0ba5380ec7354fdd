use source_feed::FeedFault;

/// What became of one feed.
#[derive(Clone, Copy, Debug, PartialEq, Eq)]
pub enum Outcome {
    /// It gave its end, and each of its entries was applied.
    Done,
    /// It answered this fault; or memory ran out for one of its entries, or to hand shards back.
    Fault(FeedFault),
    /// It gave its end, and an entry of it was refused by this shard, which was full.
    Full { shard: u16 },
}
