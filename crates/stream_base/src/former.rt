use crate::shown::Shown;

/// What an updated result showed before.
#[derive(Clone, Copy, Debug, PartialEq, Eq)]
pub struct Former {
    /// How many tuples the instance selected.
    pub number: u64,
    pub shown: Shown,
}
