/// Where a tuple went.
#[derive(Clone, Copy, Debug, PartialEq, Eq)]
pub struct Shifted {
    /// The rank that it got among the tuples of its key in event order: each tuple that had this
    /// rank or a later one has the next one now.
    pub from_rank: u64,
}
