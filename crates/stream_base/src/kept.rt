/// An accepted tuple of one key: its position in the journal, its time and its value.
#[derive(Clone, Copy, Debug, PartialEq, Eq)]
pub struct Kept {
    pub position: u64,
    pub time: u64,
    pub value: i64,
}
