/// A key and the partial aggregate under it.
#[derive(Clone, Copy)]
pub struct Item<M> {
    pub key: u64,
    pub value: M,
}
