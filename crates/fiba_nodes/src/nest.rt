use crate::open::Open;

/// A row and one of its children, which is opened.
#[derive(Clone, Copy)]
pub struct Nest<M> {
    pub row: Open<M>,
    pub at: usize,
    pub child: Open<M>,
}
