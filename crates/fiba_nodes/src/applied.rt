use crate::item::Item;
use crate::open::Open;

/// A change was made to a tree, whose root is opened: its items and children, and the item that
/// went out.
#[derive(Clone, Copy)]
pub struct Applied<M> {
    pub open: Open<M>,
    pub taken: Option<Item<M>>,
}
