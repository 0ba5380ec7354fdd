use crate::stood::Stood;

/// How far a walk over the ends of periods goes, and what it finds there.
#[derive(Clone, Copy, Debug, PartialEq, Eq)]
pub struct Reach {
    /// The greatest number of tuples before an end that is changed.
    pub most: usize,
    /// The watermark: no later end is reached.
    pub water: u64,
    pub stood: Stood,
}
