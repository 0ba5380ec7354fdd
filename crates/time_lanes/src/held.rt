//! The slices that a lane holds.
ghost use Rattle.std.specs.Prelude.{◌≡◌, ◌≤◌, ◌+◌, ◌*◌, ◌++◌, [], ◌∷◌, OnOk, drop, length, max};
ghost use Rattle.agg_laws.specs.Laws.{total};
ghost use Rattle.slice_lists.specs.Runs.{AreInOrder};
ghost use Rattle.agg_store.specs.Stored.{IsStore};
ghost use Rattle.time_lanes.specs.Held.{HasMoreRoom, HoldsOn, LetsGo, left_without, not_held, partials_of};

use crate::next::next_partial;
use agg_laws::{AggQueue, Steps};
use agg_store::AggStore;
use aggregates::Partial;
use std::alloc::Global;
use std::marker::{Model, PhantomData};
use stream_base::NoMemory;

/// The partials of slices in a row, and up to where they go. Each slice that is taken up pays for
/// being let go: so a lane's credit is that of its queue, and 4 for each slice that it holds.
#[derive(Drop)]
pub struct Held<M: Partial, Q: AggQueue<M>> {
    queue: Q,
    to: u64,
    of: PhantomData<M>,
}

impl<M: Partial, Q: AggQueue<M>> Model for Held<M, Q> {
    ghost use Rattle.std.specs.Prelude.{◌+◌, ◌*◌, length};
    ghost use Rattle.time_lanes.specs.Held.{Holding};

    ghost Value = { Holding M };

    ghost view = { λ h. record {
      partials = Q.items h.queue;
      to = h.to;
      spare = Q.spare h.queue;
      credit = Q.credit h.queue + 4 * length (Q.items h.queue);
    } };
}

impl<M: Partial, Q: AggQueue<M>> Held<M, Q> {
    /// Nothing.
    pub fn new(alloc: Global) -> Held<M, Q>
        ensures partials { (result).partials ≡ [] }
        ensures to { (result).to ≡ 0 }
        ensures credit { (result).credit ≡ 0 }
    {
        Held {
            queue: Q::fresh(alloc),
            to: 0,
            of: PhantomData,
        }
    }

    /// Makes room for so many slices more.
    pub fn reserve(&mut self, room: u64) -> Result<(), NoMemory>
        ensures room { OnOk result (room ≤ (self.new).spare) }
        ensures same { HasMoreRoom self.old self.new }
    {
        self.queue.reserve(room)
    }

    /// Up to where the slices go.
    pub fn to(&self) -> u64
        ensures { result ≡ (self.now).to }
    {
        self.to
    }

    /// Changes nothing, and tells a proof that at most 5 steps are left on credit for each slice.
    pub fn vouch(&self)
        ensures { (self.now).credit ≤ 5 * length (self.now).partials }
    {
        self.queue.len();
    }

    /// Lets all slices go, without a step, and leaves no credit.
    pub fn clear(&mut self)
        ensures lets_go { LetsGo [] self.old self.new 0 0 }
        ensures to { (self.new).to ≡ 0 }
        ensures credit { (self.new).credit ≡ 0 }
    {
        self.queue.clear();
        self.to = 0;
    }

    /// The partials combined, oldest first.
    pub fn fold<L>(&self, steps: &mut Steps<L>) -> M
        ensures value { result ≡ total M.empty M.op (self.now).partials }
        ensures cost { steps.new ≤ steps.old + 1 }
    {
        self.queue.fold(steps)
    }

    /// Takes up the slices from a time on, of those that aren't yet held, up to another.
    pub fn pull<S: AggStore<M>, L>(&mut self, store: &S, from: u64, to: u64, steps: &mut Steps<L>)
        requires { length (not_held (S.stored store.now) from to self.old) ≤ (self.old).spare }
        ensures partials { (self.new).partials ≡ (self.old).partials
            ++ partials_of M.of_values (not_held (S.stored store.now) from to self.old) }
        ensures held { HoldsOn M.of_values (S.stored store.now) from from self.old self.new }
        ensures to { (self.new).to ≡ max (self.old).to to }
        ensures spare { (self.new).spare + length (not_held (S.stored store.now) from to self.old)
            ≡ (self.old).spare }
        ensures cost { steps.new + (self.new).credit ≤ steps.old + (self.old).credit
            + 10 * length (not_held (S.stored store.now) from to self.old) }
        ensures holds { IsStore (S.stored store.now) }
    {
        let mut at = from.max(self.to);
        while let Some((slice, partial)) = next_partial(store, at, to, steps) {
            self.take(partial, steps);
            at = slice.high + 1;
        }
        self.to = self.to.max(to);
    }

    /// Lets the slices go that begin from a time on, up to another.
    pub fn shed<S: AggStore<M>, L>(&mut self, store: &S, from: u64, to: u64, steps: &mut Steps<L>)
        ensures lets_go { LetsGo (left_without (S.stored store.now) from to self.old) self.old
            self.new steps.old steps.new }
        ensures held { from ≤ to
            → HoldsOn M.of_values (S.stored store.now) from to self.old self.new }
        ensures to { (self.new).to ≡ (self.old).to }
        ensures ordered { AreInOrder (S.stored store.now).slices }
    {
        let end = to.min(self.to);
        let many = store.slices_within(from, end);
        for _k in 0..many {
            self.let_go(steps);
        }
    }

    fn take<L>(&mut self, partial: M, steps: &mut Steps<L>)
        requires { 1 ≤ (self.old).spare }
        ensures partials { (self.new).partials ≡ (self.old).partials ++ partial ∷ [] }
        ensures to { (self.new).to ≡ (self.old).to }
        ensures spare { (self.new).spare + 1 ≡ (self.old).spare }
        ensures cost { steps.new + (self.new).credit ≤ steps.old + (self.old).credit + 9 }
    {
        self.queue.push(partial, steps);
    }

    fn let_go<L>(&mut self, steps: &mut Steps<L>)
        ensures lets_go { LetsGo (drop 1 (self.old).partials)
            self.old self.new steps.old steps.new }
        ensures to { (self.new).to ≡ (self.old).to }
    {
        if self.queue.len() > 0 {
            self.queue.pop(steps);
        }
    }
}
