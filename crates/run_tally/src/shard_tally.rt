use std::fmt;

// What was told of a shard.
#[derive(Clone, Copy, Debug, PartialEq, Eq, Default)]
pub struct ShardTally {
    pub tuples: u64,
    pub marks: u64,
    pub dropped: u64,
    pub latest: u64,
    pub emissions: u64,
    pub updates: u64,
    pub retractions: u64,
}

impl ShardTally {
    // This and another together.
    pub fn with(self, other: ShardTally) -> ShardTally {
        ShardTally {
            tuples: self.tuples.saturating_add(other.tuples),
            marks: self.marks.saturating_add(other.marks),
            dropped: self.dropped.saturating_add(other.dropped),
            latest: self.latest.max(other.latest),
            emissions: self.emissions.saturating_add(other.emissions),
            updates: self.updates.saturating_add(other.updates),
            retractions: self.retractions.saturating_add(other.retractions),
        }
    }

    // Whether more than half of the tuples and marks were dropped.
    pub fn is_mostly_dropped(&self) -> bool {
        let taken = self.tuples.saturating_add(self.marks);
        self.dropped > taken / 2
    }
}

impl fmt::Display for ShardTally {
    fn fmt<W: fmt::Write>(&self, f: &mut fmt::Formatter<W>) -> fmt::Result {
        let ShardTally {
            tuples,
            marks,
            dropped,
            latest,
            emissions,
            updates,
            retractions,
        } = *self;
        write!(f, "{tuples} tuples, {marks} marks; {dropped} dropped")?;
        if dropped > 0 {
            write!(f, " (the latest {latest} behind the watermark)")?;
        }
        write!(
            f,
            "; {emissions} results, {updates} updates, {retractions} taken back"
        )
    }
}
