ghost use Rattle.std.specs.Prelude.{◌≡◌, ◌≤◌, ◌<◌, ◌+◌, ◌&&◌, ◌==◌, length};
ghost use Rattle.fiba_nodes.specs.Rows.{listed};
ghost use Rattle.fiba_nodes.specs.Kids.{kid_of, left_of, right_of, spliced, spliced_last, thinned, thinned_last, with_item};

use crate::item::Item;
use crate::place::Place;
use crate::row::Row;
use crate::slot::Slot;

/// The items and children of a node that was opened, or of what it became: each item with the
/// child before it, and the child behind the last item.
#[derive(Clone, Copy)]
pub struct Open<M> {
    pub slots: Row<Slot<M>>,
    pub last: usize,
}

impl<M: Copy> Open<M> {
    /// The child at a place, which is the last one from the end on.
    pub fn kid(&self, at: usize) -> usize
        ensures { result ≡ kid_of (listed self.now.slots) self.now.last at }
    {
        if at < self.slots.len() {
            self.slots.peek(at).kid
        } else {
            self.last
        }
    }

    /// Where the child at a place stands.
    pub fn place(&self, at: usize, place: Place) -> Place
        ensures left { result.left ≡ left_of place.left (listed self.now.slots) at }
        ensures right { result.right ≡ right_of place.right (listed self.now.slots) at }
    {
        Place {
            left: place.left && (at == 0 || self.slots.len() == 0),
            right: place.right && self.slots.len() <= at,
        }
    }

    /// The row with nodes in place of the child at a place.
    pub fn spliced(&self, at: usize, nodes: Open<M>) -> Open<M>
        requires within { at ≤ length (listed self.now.slots) }
        requires room { length (listed self.now.slots) + length (listed nodes.slots) ≤ 4 }
        ensures slots { listed result.slots ≡ spliced (listed self.now.slots) at
            (listed nodes.slots) nodes.last }
        ensures last { result.last ≡ spliced_last (listed self.now.slots) self.now.last at
            nodes.last }
    {
        if self.slots.len() <= at {
            return Open {
                slots: self.slots.joined(&nodes.slots),
                last: nodes.last,
            };
        }
        let behind = Slot {
            kid: nodes.last,
            item: self.slots.peek(at).item,
        };
        let front = self.slots.first(at).joined(&nodes.slots);
        Open {
            slots: front.pushed(behind).joined(&self.slots.rest(at + 1)),
            last: self.last,
        }
    }

    /// The row without an item and the child behind it.
    pub fn thinned(&self, at: usize) -> Open<M>
        requires { at < length (listed self.now.slots) }
        ensures slots { listed result.slots ≡ thinned (listed self.now.slots) at }
        ensures last { result.last ≡ thinned_last (listed self.now.slots) self.now.last at }
    {
        let kid = self.slots.peek(at).kid;
        let front = self.slots.first(at);
        if at + 1 == self.slots.len() {
            return Open {
                slots: front,
                last: kid,
            };
        }
        let item = self.slots.peek(at + 1).item;
        Open {
            slots: front
                .pushed(Slot { kid, item })
                .joined(&self.slots.rest(at + 2)),
            last: self.last,
        }
    }

    /// The row with another item at a place.
    pub fn with_item(&self, at: usize, item: Item<M>) -> Open<M>
        requires { at < length (listed self.now.slots) }
        ensures slots { listed result.slots ≡ with_item (listed self.now.slots) at item }
        ensures last { result.last ≡ self.now.last }
    {
        let kid = self.slots.peek(at).kid;
        Open {
            slots: self
                .slots
                .first(at)
                .pushed(Slot { kid, item })
                .joined(&self.slots.rest(at + 1)),
            last: self.last,
        }
    }
}
