use stream_base::{KeyText, Shown};

/// What stands of a key at the end of a period.
#[derive(Clone, Copy, Debug, PartialEq, Eq)]
pub struct TailRow {
    pub key: KeyText,
    /// The end of the period.
    pub at: u64,
    /// How many tuples are selected.
    pub number: u64,
    pub shown: Shown,
}
