use shard_core::Shard;
use tail_windows::TailChange;

/// What a run of tails comes to: its shards, and the changes for each position of their journals.
#[derive(Drop)]
pub struct Tailed {
    pub shards: Vec<Shard>,
    pub tails: Vec<Vec<Vec<TailChange>>>,
}
