/// The root of a tree and how many levels of nodes the tree has.
#[derive(Clone, Copy)]
pub struct Root {
    pub at: usize,
    pub height: u32,
}
