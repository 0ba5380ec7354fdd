ghost use Rattle.std.specs.Prelude.{◌≡◌, ◌≤◌, ◌-◌, Some, length, slice_get};
ghost use Rattle.fiba_nodes.specs.Rows.{FitsNode, listed, slots_of, last_of, plain_node};
ghost use Rattle.fiba_nodes.specs.Kids.{kid_of};

use crate::item::Item;
use crate::open::Open;
use crate::row::Row;
use crate::slot::Slot;

/// A node of a tree: one to three items with a child before, between and behind them. A leaf's
/// children are empty trees, whatever their numbers. `up` is the number of the parent, and `agg`
/// what the node's part of the tree comes to.
#[derive(Clone, Copy)]
pub struct Node<M> {
    pub first: Item<M>,
    pub second: Option<Item<M>>,
    pub third: Option<Item<M>>,
    pub kids: [usize; 4],
    pub leaf: bool,
    pub up: Option<usize>,
    pub agg: M,
}

impl<M: Copy> Node<M> {
    /// The node's items, each with the child before it.
    pub fn slots(&self) -> Row<Slot<M>>
        ensures slots { listed result ≡ slots_of self.now }
        ensures few { length (listed result) ≤ 3 }
    {
        let first = Slot {
            kid: self.kids[0],
            item: self.first,
        };
        match (&self.second, &self.third) {
            (None, _) => Row::One(first),
            (Some(item), None) => Row::Two(
                first,
                Slot {
                    kid: self.kids[1],
                    item: *item,
                },
            ),
            (Some(item), Some(third)) => Row::Three(
                first,
                Slot {
                    kid: self.kids[1],
                    item: *item,
                },
                Slot {
                    kid: self.kids[2],
                    item: *third,
                },
            ),
        }
    }

    /// The child behind the last item.
    pub fn last(&self) -> usize
        ensures { result ≡ last_of self.now }
    {
        match (&self.second, &self.third) {
            (None, _) => self.kids[1],
            (Some(_), None) => self.kids[2],
            (Some(_), Some(_)) => self.kids[3],
        }
    }

    /// The last item, with the child before it.
    pub fn last_slot(&self) -> Slot<M>
        ensures { slice_get (slots_of self.now) (length (slots_of self.now) - 1) ≡ Some result }
    {
        let (kid, item) = match (&self.second, &self.third) {
            (None, _) => (self.kids[0], self.first),
            (Some(item), None) => (self.kids[1], *item),
            (Some(_), Some(item)) => (self.kids[2], *item),
        };
        Slot { kid, item }
    }

    /// The child before the first item.
    pub fn first_kid(&self) -> usize
        ensures { result ≡ kid_of (slots_of self.now) (last_of self.now) 0 }
    {
        self.kids[0]
    }

    /// The node's items and children.
    pub fn opened(&self) -> Open<M>
        ensures slots { listed result.slots ≡ slots_of self.now }
        ensures few { length (listed result.slots) ≤ 3 }
        ensures last { result.last ≡ last_of self.now }
    {
        Open {
            slots: self.slots(),
            last: self.last(),
        }
    }

    /// The node with these items and children.
    pub fn made(slots: &Row<Slot<M>>, last: usize, leaf: bool, up: Option<usize>, agg: M) -> Node<M>
        requires { FitsNode (listed slots.now) }
        ensures plain { plain_node result ≡ record {
          slots = listed slots.now;
          last = last;
          agg = agg;
          leaf = leaf;
        } }
        ensures up { result.up ≡ up }
    {
        match slots {
            Row::One(a) => Node {
                first: a.item,
                second: None,
                third: None,
                kids: [a.kid, last, 0, 0],
                leaf,
                up,
                agg,
            },
            Row::Two(a, b) => Node {
                first: a.item,
                second: Some(b.item),
                third: None,
                kids: [a.kid, b.kid, last, 0],
                leaf,
                up,
                agg,
            },
            Row::Three(a, b, c) => Node {
                first: a.item,
                second: Some(b.item),
                third: Some(c.item),
                kids: [a.kid, b.kid, c.kid, last],
                leaf,
                up,
                agg,
            },
            _ => unreachable!(),
        }
    }
}
