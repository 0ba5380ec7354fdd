use crate::key_text::KeyText;
use crate::shown::Shown;

/// The result of one window instance.
#[derive(Clone, Copy, Debug, PartialEq, Eq)]
pub struct Row {
    /// The window's place among the definitions.
    pub window: u32,
    pub key: KeyText,
    /// The instance's start: a time, or for an events window a rank.
    pub low: u64,
    /// The instance's end, which is not in it.
    pub high: u64,
    /// How many tuples it selects.
    pub number: u64,
    pub shown: Shown,
}
