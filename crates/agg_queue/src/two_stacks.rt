//! A queue as two stacks, which is folklore: to turn a stack over makes what was last come first.
//!
//! The cells lie in one deque, front first, and one place parts the front stack from the back stack:
//!
//! ```text
//!  first                               end
//!    |  front stack   |   back stack    |
//!    0              front              len
//!
//!         i..front         front..len
//! ```
//!
//! The last line says which values are combined: beside each cell of the front those from its own
//! place `i` to the end of the front, and for the whole back one running aggregate. A fold combines
//! the first cell's aggregate with the running one.
//!
//! Where the front is empty, a `pop` turns the back over first: from the last cell to the first,
//! each one's aggregate is made from its value and the aggregate behind it. Then all cells are front.
//! Since each item is turned over once, its push can pay for that.
ghost use Rattle.std.specs.Prelude.{◌≤◌, ◌+◌};
ghost use Rattle.agg_queue.specs.Queue.{HasRoom, Pops, Pushes};

use crate::cells::Cells;
use crate::turning::turn_over;
use agg_laws::{AggQueue, Monoid, Steps};
use std::alloc::Global;
use std::marker::Model;
use stream_base::NoMemory;

/// A queue of two stacks.
///
/// On credit `push` makes at most 2 steps and `pop` none, and `fold` makes at most 1. A single `pop`
/// may make as many steps as there are items. Contracts see its items, for how many more there is
/// room, and the credit: one step for each item of the back.
#[derive(Drop)]
pub struct TwoStacks<M: Monoid> {
    cells: Cells<M>,
    // How many of the cells are in the front stack.
    front: usize,
    // What the values of the back stack come to.
    back: M,
}

impl<M: Monoid> Model for TwoStacks<M> {
    ghost use Rattle.std.specs.Prelude.{◌-◌, length};
    ghost use Rattle.agg_queue.specs.Lanes.{queue_of};
    ghost use Rattle.agg_queue.specs.Queue.{QueueOnCredit};
    ghost use Rattle.agg_queue.specs.Stacks.{AreStacked};

    ghost Value = { QueueOnCredit M };

    ghost view = { λ q. record {
      queue = queue_of q.cells;
      credit = length q.cells.values - q.front;
    } };

    ghost invariant = { λ q. AreStacked M.is_value M.empty M.op
        q.cells.values q.cells.aggregates q.front q.back };
}

impl<M: Monoid> AggQueue<M> for TwoStacks<M> {
    ghost items = { λ q. q.queue.items };

    ghost spare = { λ q. q.queue.spare };

    ghost credit = { λ q. q.credit };

    fn fresh(alloc: Global) -> TwoStacks<M> {
        TwoStacks {
            cells: Cells::new(alloc),
            front: 0,
            back: M::unit(),
        }
    }

    fn reserve(&mut self, room: u64) -> Result<(), NoMemory> {
        self.cells.reserve(room)?;
        Ok(())
    }

    /// Appends an item at the back. Uses one spare.
    fn push<L>(&mut self, value: M, steps: &mut Steps<L>)
        requires { HasRoom self.old.queue }
        ensures pushes { Pushes value self.old.queue self.new.queue }
        ensures cost { steps.new + self.new.credit ≤ steps.old + self.old.credit + 2 }
    {
        value.vouch();
        self.back = self.back.combine(&value, steps);
        // The aggregate beside the value is made where the back is turned over.
        self.cells.push(value, value);
    }

    /// Removes the item at the front, `None` exactly where there is none.
    fn pop<L>(&mut self, steps: &mut Steps<L>) -> Option<M>
        ensures pops { Pops result self.old.queue self.new.queue }
        ensures cost { steps.new + self.new.credit ≤ steps.old + self.old.credit }
    {
        if self.front == 0 {
            turn_over(&mut self.cells, steps);
            self.front = self.cells.len();
            self.back = M::unit();
        }
        let value = self.cells.pop()?;
        self.front -= 1;
        Some(value)
    }

    fn fold<L>(&self, steps: &mut Steps<L>) -> M {
        if self.front == 0 {
            return self.back;
        }
        self.cells.aggregate(0).combine(&self.back, steps)
    }

    fn clear(&mut self) {
        self.cells.clear();
        self.front = 0;
        self.back = M::unit();
    }

    fn len(&self) -> u64 {
        self.cells.len() as u64
    }
}
