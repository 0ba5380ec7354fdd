use crate::item::Item;
use crate::root::Root;

/// The root of a tree after a change, and the item that went out.
#[derive(Clone, Copy)]
pub struct Changed<M> {
    pub root: Root,
    pub taken: Option<Item<M>>,
}
