/// An item of a queue, and what some of the items around it come to.
#[derive(Clone, Copy)]
pub(crate) struct Cell<M> {
    pub(crate) value: M,
    pub(crate) aggregate: M,
}
