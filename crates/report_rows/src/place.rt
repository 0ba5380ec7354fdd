/// Where the next line of a text stands.
#[derive(Clone, Copy, Debug, PartialEq, Eq)]
pub enum Place {
    /// It is the first.
    First,
    /// It is within a report, which tells in full what stood before or doesn't.
    Inside(bool),
    /// It is behind the last.
    Behind,
}
