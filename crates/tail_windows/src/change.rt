use crate::row::TailRow;

/// One change, caused by one entry.
#[derive(Clone, Copy, Debug, PartialEq, Eq)]
pub enum TailChange {
    /// The row newly stands.
    New(TailRow),
    /// It stood, and selects other tuples now.
    Again(TailRow),
    /// The entry was late, and was dropped.
    Dropped,
}
