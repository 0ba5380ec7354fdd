use crate::outcome::Outcome;

// The reader of one feed: how it stands with the entries so far, and a port of each shard.
pub(crate) struct Reader<F, P> {
    pub(crate) feed: F,
    pub(crate) outcome: Outcome,
    pub(crate) ports: Vec<P>,
}
