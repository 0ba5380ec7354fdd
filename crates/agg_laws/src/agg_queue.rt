ghost use Rattle.std.specs.Prelude.{◌≡◌, ◌≤◌, ◌+◌, ◌↔◌, ℕ, List, [], ◌∷◌, ◌++◌, length, OnOk, IfSome, None};
ghost use Rattle.agg_laws.specs.Laws.{total};

use crate::monoid::Monoid;
use crate::steps::Steps;
use std::alloc::Global;
use stream_base::NoMemory;

/// A queue of partial aggregates that can fold all of them at any time.
///
/// Its work is counted on credit: over any run from a fresh queue, the steps are at most 5 for each
/// `push`, 4 for each `pop` and 1 for each `fold`.
pub trait AggQueue<M: Monoid> {
    // The list that the queue stands for, front first.
    ghost items: { Self → List M };

    // For how many more items room is made.
    ghost spare: { Self → ℕ };

    // Steps that were paid for and not yet made.
    ghost credit: { Self → ℕ };

    /// An empty queue.
    fn fresh(alloc: Global) -> Self
        ensures empty { items result ≡ [] }
        ensures credit { credit result ≡ 0 };

    /// Makes room for `room` more items.
    fn reserve(&mut self, room: u64) -> Result<(), NoMemory>
        ensures room { OnOk result (room ≤ spare self.new) }
        ensures spare { spare self.old ≤ spare self.new }
        ensures kept { items self.new ≡ items self.old }
        ensures credit { credit self.new ≡ credit self.old };

    /// Appends an item at the back. Uses one spare.
    fn push<L>(&mut self, value: M, steps: &mut Steps<L>)
        requires { 1 ≤ spare self.old }
        ensures appended { items self.new ≡ items self.old ++ value ∷ [] }
        ensures spare { spare self.new + 1 ≡ spare self.old }
        ensures cost { steps.new + credit self.new ≤ steps.old + credit self.old + 5 };

    /// Removes the item at the front, `None` exactly where there is none.
    fn pop<L>(&mut self, steps: &mut Steps<L>) -> Option<M>
        ensures first { IfSome result (λ value. items self.old ≡ value ∷ items self.new) }
        ensures none { (result ≡ None) ↔ (items self.old ≡ []) }
        ensures empty { result ≡ None → items self.new ≡ [] }
        ensures spare { spare self.old ≤ spare self.new }
        ensures cost { steps.new + credit self.new ≤ steps.old + credit self.old + 4 };

    /// The items combined from front to back, from the unit.
    fn fold<L>(&self, steps: &mut Steps<L>) -> M
        ensures value { result ≡ total M.empty M.op (items self.now) }
        ensures cost { steps.new ≤ steps.old + 1 };

    /// Empties the queue, and leaves no credit.
    fn clear(&mut self)
        ensures empty { items self.new ≡ [] }
        ensures spare { spare self.old ≤ spare self.new }
        ensures credit { credit self.new ≡ 0 };

    /// How many items there are: at least as many as steps are left on credit.
    fn len(&self) -> u64
        ensures number { result ≡ length (items self.now) }
        ensures credit { credit self.now ≤ length (items self.now) };
}
