use crate::former::Former;
use crate::row::Row;

/// One change of the results, caused by one entry. Whoever booked a result can undo it: a
/// retraction and an update say what stood before.
#[derive(Clone, Copy, Debug, PartialEq, Eq)]
pub enum Change {
    /// A retraction: this row stands no longer.
    Gone(Row),
    /// An emission: this row newly stands.
    New(Row),
    /// An update: the instance stood and showed `former`, still stands, and selects other tuples.
    Again { row: Row, former: Former },
    /// The entry was late beyond the allowed lateness, and was dropped.
    Dropped,
}
