ghost use Rattle.std.specs.Prelude.{◌≡◌, Some, None, IfSome, IfNone};
ghost use Rattle.fiba_nodes.specs.Changes.{added_of, is_first, item_of, meets, stands_before};

use crate::item::Item;

/// What is to happen to a tree.
#[derive(Clone, Copy)]
pub enum Change<M> {
    /// An item comes in, or in the place of one with its key.
    Insert(Item<M>),
    /// An item comes in the place of the one with its key, if there is one.
    Set(Item<M>),
    /// The item with this key goes, if there is one.
    Remove(u64),
    /// The first item goes.
    First,
}

impl<M: Copy> Change<M> {
    /// The item that comes in.
    pub fn item(&self) -> Option<Item<M>>
        ensures { result ≡ item_of self.now }
    {
        match *self {
            Change::Insert(item) | Change::Set(item) => Some(item),
            Change::Remove(_) | Change::First => None,
        }
    }

    /// The item that comes in where none goes out.
    pub fn added(&self) -> Option<Item<M>>
        ensures { result ≡ added_of self.now }
    {
        match *self {
            Change::Insert(item) => Some(item),
            Change::Set(_) => None,
            Change::Remove(_) => None,
            Change::First => None,
        }
    }

    /// Whether the first item is to go.
    pub fn is_first(&self) -> bool
        ensures { result ≡ is_first self.now }
    {
        match *self {
            Change::Insert(_) => false,
            Change::Set(_) => false,
            Change::Remove(_) => false,
            Change::First => true,
        }
    }

    /// Whether an item with this key stands before the place of the change.
    pub fn is_behind(&self, key: u64) -> bool
        ensures { result ≡ stands_before self.now key }
    {
        match *self {
            Change::Insert(item) | Change::Set(item) => key < item.key,
            Change::Remove(at) => key < at,
            Change::First => false,
        }
    }

    /// Whether the change is one of an item with this key, where none with a lower key is left.
    pub fn meets(&self, key: u64) -> bool
        ensures { result ≡ meets self.now key }
    {
        match *self {
            Change::Insert(item) | Change::Set(item) => key == item.key,
            Change::Remove(at) => key == at,
            Change::First => true,
        }
    }
}
