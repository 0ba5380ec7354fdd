/// The value of a window instance, as a report shows it.
#[derive(Clone, Copy, Debug, PartialEq, Eq)]
pub enum Shown {
    /// A whole number.
    Whole(i128),
    /// A mean, as its sum over its count.
    Ratio { sum: i128, count: u64 },
}
