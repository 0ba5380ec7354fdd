ghost use Rattle.std.specs.Prelude.{◌≡◌, ◌≤◌, ◌<◌, IsTrue, length};
ghost use Rattle.fiba_nodes.specs.Rows.{listed};
ghost use Rattle.fiba_nodes.specs.Places.{IsPlace, is_under};

use crate::row::Row;
use crate::slot::Slot;

/// An end of a range of keys.
#[derive(Clone, Copy)]
pub enum Bound {
    /// Before all keys.
    Start,
    /// Before this key.
    Key(u64),
    /// Behind all keys.
    End,
}

impl Bound {
    /// Whether a key lies before the bound.
    pub fn is_over(self, key: u64) -> bool
        ensures { result ≡ is_under self key }
    {
        match self {
            Bound::Start => false,
            Bound::Key(at) => key < at,
            Bound::End => true,
        }
    }

    /// How many slots have a key that lies before the bound.
    pub fn place<M: Copy>(self, slots: &Row<Slot<M>>) -> usize
        ensures { IsPlace (is_under self) (listed slots.now) result }
    {
        for i in 0..slots.len() {
            if !self.is_over(slots.peek(i).item.key) {
                return i;
            }
        }
        slots.len()
    }
}
