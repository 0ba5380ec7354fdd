use stream_base::Func;

/// A window of the last tuples before each multiple of a period.
#[derive(Clone, Copy, Debug, PartialEq, Eq)]
pub struct TailDef {
    /// How many tuples are selected at most.
    pub count: u64,
    /// The period, in the sources' own unit.
    pub period: u64,
    pub func: Func,
}
