use crate::item::Item;

/// A child of a node and the item behind it.
#[derive(Clone, Copy)]
pub struct Slot<M> {
    pub kid: usize,
    pub item: Item<M>,
}
