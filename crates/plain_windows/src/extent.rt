/// An instance of a window by its extent: its start and end, the bound that the watermark must reach,
/// and which tuples it selects, by their places among those kept of the key in event order.
#[derive(Clone, Copy, Debug, PartialEq, Eq)]
pub struct Extent {
    pub low: u64,
    pub high: u64,
    pub bound: u64,
    /// The place of its first tuple.
    pub first: usize,
    /// How many tuples it selects.
    pub count: usize,
}
