/// A node on the right edge, and how many levels of nodes lie below it.
#[derive(Clone, Copy)]
pub struct Climbed {
    pub at: usize,
    pub below: u32,
}
