/// How feeds hand on their entries to shards.
#[derive(Clone, Copy, Debug, PartialEq, Eq)]
pub enum Way {
    /// Each shard stands at a desk, and feeds take turns there.
    Turns,
    /// Each shard has an owner, and feeds send it mail.
    Mail,
}
