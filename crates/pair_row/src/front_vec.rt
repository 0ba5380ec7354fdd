ghost use Rattle.std.specs.Prelude.{◌≡◌, ◌≤◌, ◌<◌, ◌+◌, [], drop, length, set, vec_len, vec_capacity};
ghost use Rattle.std.specs.List.{remove};
ghost use Rattle.pair_row.specs.Fronts.{Inserts, MakesRoom, MayInsert, Removes};

use std::alloc::Global;
use std::marker::Model;
use stream_base::NoMemory;

/// A vector whose first elements leave without a move of the others: the places of those that have left
/// are given back at once where they are more than the elements that stand.
#[derive(Drop)]
pub struct FrontVec<T> {
    items: Vec<T>,
    // So many of the items, the first ones, have left: at most as many as stand.
    gone: usize,
}

impl<T> Model for FrontVec<T> {
    ghost use Rattle.std.specs.Prelude.{◌-◌, ◌≤◌, ◌+◌, drop, length, vec_len, vec_capacity};
    ghost use Rattle.pair_row.specs.Fronts.{Front};

    ghost Value = { Front T };

    ghost view = { λ v. record {
      items = drop v.gone v.items.items;
      spare = vec_capacity v.items - vec_len v.items;
    } };

    ghost invariant = { λ v. v.gone + v.gone ≤ length v.items.items };
}

impl<T: Copy> FrontVec<T> {
    /// No element.
    pub fn new(alloc: Global) -> FrontVec<T>
        ensures { result.items ≡ [] }
    {
        FrontVec {
            items: Vec::new(alloc),
            gone: 0,
        }
    }

    /// The elements in their order.
    pub fn as_slice(&self) -> &[T]
        ensures { result.now ≡ self.now.items }
    {
        &self.items[self.gone..]
    }

    /// Makes room for `room` more, and at first for no more than these.
    pub fn reserve(&mut self, room: usize) -> Result<(), NoMemory>
        ensures { MakesRoom room result self.old self.new }
    {
        if self.items.capacity() == 0 {
            self.items.reserve_exact(room)?;
            return Ok(());
        }
        self.items.reserve(room)?;
        Ok(())
    }

    /// Puts an element at a place, before the one that stands there.
    pub fn insert(&mut self, at: usize, item: T)
        requires { MayInsert at self.old }
        ensures { Inserts at item self.old self.new }
    {
        self.items.insert(self.gone + at, item).unwrap();
    }

    /// Puts another element in the place of one.
    pub fn set(&mut self, at: usize, item: T)
        requires within { at < length self.old.items }
        ensures items { self.new.items ≡ set self.old.items at item }
        ensures spare { self.new.spare ≡ self.old.spare }
    {
        self.items[self.gone + at] = item;
    }

    /// Takes out the element at a place.
    pub fn remove(&mut self, at: usize) -> T
        requires within { at < length self.old.items }
        ensures { Removes at result self.old self.new }
    {
        let item = self.items[self.gone + at];
        let gone = take_out(&mut self.items, self.gone, at);
        self.gone = close_up(&mut self.items, gone);
        item
    }
}

// An element leaves, too. Where it is the first that stands, nothing moves. Answers how many places of
// those that have left are held then.
fn take_out<T: Copy>(items: &mut Vec<T>, gone: usize, at: usize) -> usize
    requires { gone + at < length items.old.items }
    ensures items { drop result items.new.items ≡ remove (drop gone items.old.items) at }
    ensures within { result ≤ length items.new.items }
    ensures capacity { vec_capacity items.old ≤ vec_capacity items.new }
    ensures len { vec_len items.new ≤ vec_len items.old }
{
    if at == 0 {
        return gone + 1;
    }
    items.remove(gone + at);
    gone
}

// Gives back the places of the elements that have left, where they are more than those that stand.
// Answers how many of them are held then.
fn close_up<T: Copy>(items: &mut Vec<T>, gone: usize) -> usize
    requires { gone ≤ length items.old.items }
    ensures items { drop result items.new.items ≡ drop gone items.old.items }
    ensures few { result + result ≤ length items.new.items }
    ensures capacity { vec_capacity items.old ≤ vec_capacity items.new }
    ensures len { vec_len items.new ≤ vec_len items.old }
{
    let stand = items.len() - gone;
    if gone <= stand {
        return gone;
    }
    items.rotate_left(gone);
    items.truncate(stand);
    0
}
