use crate::climbed::Climbed;
use fiba_nodes::Root;

/// A tree after an insertion: its root, the highest node that was written, and how many nodes were
/// split.
#[derive(Clone, Copy)]
pub struct Raised {
    pub root: Root,
    pub top: Climbed,
    pub splits: u32,
}
