/// An aggregate function of a window.
#[derive(Clone, Copy, Debug, PartialEq, Eq)]
pub enum Func {
    /// How many tuples there are.
    Count,
    /// The sum of the values.
    Sum,
    /// The least value.
    Min,
    /// The greatest value.
    Max,
    /// The mean value, shown as the sum and the count.
    Mean,
    /// The value that is first in event order.
    First,
    /// The value that is last in event order.
    Last,
    /// How often, in event order, a value is greater than the one before it.
    Rises,
    /// The values in event order as one polynomial hash, modulo 2^64.
    Trace,
}
