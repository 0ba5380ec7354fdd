/// A kept tuple of a key, without its place in the journal: its time and its value.
#[derive(Clone, Copy, Debug, PartialEq, Eq)]
pub struct Sample {
    pub time: u64,
    pub value: i64,
}
