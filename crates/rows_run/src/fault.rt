/// Why no rows are written.
#[derive(Clone, Copy, Debug, PartialEq, Eq)]
pub enum RowsFault {
    /// The words aren't in the grammar of the command line.
    Usage,
    /// The report couldn't be opened.
    Open,
    /// A read of it failed.
    Read,
    /// It is no report: the line of this number may not stand where it does, or is lacking.
    Line(u64),
    /// Memory ran out.
    NoMemory,
}
