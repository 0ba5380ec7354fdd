ghost use Rattle.std.specs.Prelude.{◌≡◌, ◌≤◌, ◌+◌, ◌++◌, true, length, Some, IfSome, IfNone, take, drop};
ghost use Rattle.fiba_nodes.specs.Rows.{FitsNode, listed};
ghost use Rattle.fiba_nodes.specs.Trees.{AreValues};
ghost use Rattle.fiba_nodes.specs.Changes.{Applies, leaf_pairs, leaf_slots, CarriesValue, growth, IsItemAt, IsRank, IsUnmet, meets};

use crate::applied::Applied;
use crate::change::Change;
use crate::item::Item;
use crate::open::Open;
use crate::row::Row;
use crate::slot::Slot;
use agg_laws::Monoid;

/// How many slots stand before the place of a change.
pub fn rank<M: Copy>(slots: &Row<Slot<M>>, change: &Change<M>) -> usize
    ensures { IsRank change.now (listed slots.now) result }
{
    for i in 0..slots.len() {
        if !change.is_behind(slots.peek(i).item.key) {
            return i;
        }
    }
    slots.len()
}

/// The item at a place, if the change is about it.
pub fn met<M: Copy>(slots: &Row<Slot<M>>, at: usize, change: &Change<M>) -> Option<Item<M>>
    ensures some { IfSome result (λ item. meets change.now item.key ≡ true) }
    ensures there { IfSome result (λ item. IsItemAt (listed slots.now) at item) }
    ensures none { IfNone result (IsUnmet change.now (listed slots.now) at) }
{
    if slots.len() <= at {
        return None;
    }
    let slot = slots.peek(at);
    if change.meets(slot.item.key) {
        Some(slot.item)
    } else {
        None
    }
}

/// A change of a leaf.
pub fn leaf_applied<M: Monoid>(open: &Open<M>, change: &Change<M>) -> Applied<M>
    requires items { AreValues M.is_value (listed open.now.slots) }
    requires value { CarriesValue M.is_value change.now }
    requires fits { FitsNode (listed open.now.slots) }
    ensures some { 1 ≤ growth change.now → 1 ≤ length (listed result.open.slots) }
    ensures items { AreValues M.is_value (listed result.open.slots) }
    ensures applies { Applies change.now result.taken (leaf_pairs (listed open.now.slots))
        (leaf_pairs (listed result.open.slots)) }
{
    let at = rank(&open.slots, change);
    match met(&open.slots, at, change) {
        Some(old) => Applied {
            open: leaf_with(open, at, change.item(), at + 1),
            taken: Some(old),
        },
        None => Applied {
            open: leaf_with(open, at, change.added(), at),
            taken: None,
        },
    }
}

// The first slots of a leaf, an item if there is one, and the slots from a place on.
fn leaf_with<M: Copy>(open: &Open<M>, at: usize, item: Option<Item<M>>, rest: usize) -> Open<M>
    requires order { at ≤ rest }
    requires few { length (listed open.now.slots) ≤ 3 }
    ensures { listed result.slots ≡ take at (listed open.now.slots) ++ leaf_slots item
        ++ drop rest (listed open.now.slots) }
{
    let front = with_item(&open.slots.first(at), item);
    Open {
        slots: front.joined(&open.slots.rest(rest)),
        last: 0,
    }
}

// A row of a leaf, and an item behind it if there is one.
fn with_item<M: Copy>(slots: &Row<Slot<M>>, item: Option<Item<M>>) -> Row<Slot<M>>
    requires { length (listed slots.now) ≤ 3 }
    ensures { listed result ≡ listed slots.now ++ leaf_slots item }
{
    match item {
        Some(item) => slots.pushed(Slot { kid: 0, item }),
        None => *slots,
    }
}
