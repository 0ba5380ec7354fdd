ghost use Rattle.std.specs.Prelude.{◌≡◌, ◌≤◌, ◌<◌, [], ◌∷◌, ◌++◌, length, drop, slice_set, slice_index_or};
ghost use Rattle.agg_queue.specs.Lanes.{KeepsValues, queue_of};
ghost use Rattle.agg_queue.specs.Queue.{HasRoom, Pops, Pushes, Reserves};

use crate::cell::Cell;
use std::alloc::{AllocError, Global};
use std::collections::VecDeque;
use std::marker::Model;

/// The items of a queue and an aggregate beside each, front first, in one deque. Contracts see the
/// list of the values, the list of the aggregates, and for how many more there is room.
#[derive(Drop)]
pub(crate) struct Cells<M> {
    deque: VecDeque<Cell<M>>,
}

impl<M> Model for Cells<M> {
    ghost use Rattle.std.specs.Prelude.{◌-◌, map};
    ghost use Rattle.std.specs.VecDeque.{deque_len, deque_capacity};
    ghost use Rattle.agg_queue.specs.Lanes.{Lanes};

    ghost Value = { Lanes M };

    ghost view = { λ c. record {
      values = map (λ cell. cell.value) c.deque.items;
      aggregates = map (λ cell. cell.aggregate) c.deque.items;
      spare = deque_capacity c.deque - deque_len c.deque;
    } };
}

impl<M: Copy> Cells<M> {
    pub(crate) fn new(alloc: Global) -> Cells<M>
        ensures values { result.values ≡ [] }
        ensures aggregates { result.aggregates ≡ [] }
    {
        Cells {
            deque: VecDeque::new(alloc),
        }
    }

    /// Makes room for `room` more, and at first for no more than these.
    pub(crate) fn reserve(&mut self, room: u64) -> Result<(), AllocError>
        ensures reserves { Reserves room result (queue_of self.old) (queue_of self.new) }
        ensures aggregates { self.new.aggregates ≡ self.old.aggregates }
    {
        if self.deque.capacity() == 0 {
            return self.deque.reserve_exact(room as usize);
        }
        self.deque.reserve(room as usize)
    }

    /// How many there are.
    pub(crate) fn len(&self) -> usize
        ensures values { result ≡ length self.now.values }
        ensures aggregates { result ≡ length self.now.aggregates }
    {
        self.deque.len()
    }

    /// The value at a place.
    pub(crate) fn value(&self, at: usize) -> M
        requires { at < length self.now.values }
        ensures { (d : M) → result ≡ slice_index_or self.now.values at d }
    {
        self.deque[at].value
    }

    /// The aggregate at a place.
    pub(crate) fn aggregate(&self, at: usize) -> M
        requires { at < length self.now.values }
        ensures { (d : M) → result ≡ slice_index_or self.now.aggregates at d }
    {
        self.deque[at].aggregate
    }

    /// Another aggregate at a place.
    pub(crate) fn set_aggregate(&mut self, at: usize, aggregate: M)
        requires { at < length self.old.values }
        ensures kept { KeepsValues self.old self.new }
        ensures aggregates { self.new.aggregates ≡ slice_set self.old.aggregates at aggregate }
    {
        self.deque[at].aggregate = aggregate;
    }

    /// One more at the back.
    pub(crate) fn push(&mut self, value: M, aggregate: M)
        requires { HasRoom (queue_of self.old) }
        ensures pushes { Pushes value (queue_of self.old) (queue_of self.new) }
        ensures aggregates { self.new.aggregates ≡ self.old.aggregates ++ aggregate ∷ [] }
    {
        self.deque.push_back_reserved(Cell { value, aggregate });
    }

    /// Takes out the one at the front and gives its value.
    pub(crate) fn pop(&mut self) -> Option<M>
        ensures pops { Pops result (queue_of self.old) (queue_of self.new) }
        ensures aggregates { self.new.aggregates ≡ drop 1 self.old.aggregates }
    {
        let cell = self.deque.pop_front()?;
        Some(cell.value)
    }

    /// Takes out all.
    pub(crate) fn clear(&mut self)
        ensures values { self.new.values ≡ [] }
        ensures aggregates { self.new.aggregates ≡ [] }
        ensures spare { self.old.spare ≤ self.new.spare }
    {
        self.deque.clear();
    }
}
