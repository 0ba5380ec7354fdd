//! The state of a key.
ghost use Rattle.std.specs.Prelude.{◌≡◌, ◌≤◌, ◌+◌, ◌-◌, [], ℕ, length, true, All, IfNone, IfSome, OnOk, vec_capacity, vec_len};
ghost use Rattle.std.specs.List.{list_all};
ghost use Rattle.stream_base.specs.Kinds.{is_events, is_timed};
ghost use Rattle.stream_base.specs.Model.Journal.{put_in_order};
ghost use Rattle.stream_base.specs.Model.Moments.{IsWater};
ghost use Rattle.partials.specs.Apart.{IsReachOver};
ghost use Rattle.agg_store.specs.Stored.{tuples_of};
ghost use Rattle.slice_lists.specs.Slices.{joined};
ghost use Rattle.key_parts.specs.Moves.{Comes, all_count_events};
ghost use Rattle.key_slicer.specs.States.{IsFirstTime, MayEnter, needs_no_part};
ghost use Rattle.key_slicer.specs.Work.{enter_work};
ghost use Rattle.key_slicer.specs.Joining.{JoinsLast};

use crate::parts::Parts;
use agg_laws::{AggTree, Steps};
use agg_store::AggStore;
use aggregates::Partial;
use key_parts::KeyPart;
use slice_store::{Placed, SliceStore};
use stream_base::{Change, Defs, FINAL, Kept, KeyText, Kind, NoMemory, TIME_MAX};

/// The windows of one key. Its tuples lie in slices that all windows share, and each window has a
/// part of its own. Settled slices leave.
#[derive(Drop)]
pub struct KeyState<M: Partial, T: AggTree<M>, P: KeyPart<M>> {
    pub(crate) key: KeyText,
    pub(crate) store: SliceStore<M, T>,
    pub(crate) parts: Parts<M, P>,
    /// The next tuple has at least this position.
    pub(crate) next: u64,
    pub(crate) promise: u64,
    /// The changes of the coming call, window by window.
    pub(crate) scratch: Vec<Change>,
}

impl<M: Partial, T: AggTree<M>, P: KeyPart<M>> KeyState<M, T, P> {
    // Makes room for so many changes to be put together, and promises them.
    pub fn make_room(&mut self, room: u64) -> Result<(), NoMemory>
        ensures key { self.new.key ≡ self.old.key }
        ensures next { self.new.next ≡ self.old.next }
        ensures store { self.new.store ≡ self.old.store }
        ensures parts { self.new.parts ≡ self.old.parts }
        ensures promised { OnOk result (self.new.promise ≡ room) }
        ensures empty { OnOk result (self.new.scratch.items ≡ []) }
        ensures fits_in { OnOk result
            (room ≤ vec_capacity self.new.scratch - vec_len self.new.scratch) }
    {
        self.scratch.clear();
        self.scratch.reserve(room as usize)?;
        self.promise = room;
        Ok(())
    }
}

// The time of the first tuple in a store.
pub fn first_time<M: Partial, T: AggTree<M>>(store: &SliceStore<M, T>) -> Option<u64>
    ensures none { IfNone result (store.now.slices ≡ []) }
    ensures first { IfSome result (IsFirstTime store.now) }
{
    let first = store.slice_from(0)?;
    Some(first.low)
}

// Changes nothing, and tells a proof how the reach of a store is bounded by its slices.
pub fn vouch_reach<M: Partial, T: AggTree<M>>(store: &SliceStore<M, T>)
    ensures { IsReachOver T.bounded (length store.now.slices) store.now.reach }
{
    store.slice_count();
}

// Whether a number is a watermark: a time, or the final one.
pub fn is_water(number: u64) -> bool
    ensures yes { result ≡ true → IsWater number }
    ensures no { IsWater number → result ≡ true }
{
    number <= TIME_MAX || number == FINAL
}

// Whether each window counts events.
pub fn all_count_events(defs: &Defs) -> bool
    ensures { result ≡ list_all (λ w. is_events w.kind) (defs.now).windows }
{
    defs.windows()
        .iter()
        .all(|def| matches!(def.kind, Kind::Events { .. }))
}

// Whether what is due stays with a tuple, by whether it joined the last slice: each interval of a
// tumbling or sliding window that holds it then held a tuple before.
pub fn leaves_due(defs: &Defs, joined: bool) -> bool
    ensures joined { result ≡ true → joined ≡ true }
    ensures timed { result ≡ true → All (λ w. is_timed w.kind ≡ true) (defs.now).windows }
{
    joined && all_timed(defs)
}

// Whether no part need be told of a tuple at a time: each window is tumbling or sliding, and the time
// isn't before the watermark.
pub fn needs_no_part(defs: &Defs, time: u64, water: u64) -> bool
    ensures answer { result ≡ needs_no_part defs.now time water }
    ensures behind { result ≡ true → water ≤ time }
    ensures timed { result ≡ true → All (λ w. is_timed w.kind ≡ true) (defs.now).windows }
{
    water <= time && all_timed(defs)
}

// Whether each window is tumbling or sliding.
fn all_timed(defs: &Defs) -> bool
    ensures answer { result ≡ list_all (λ w. is_timed w.kind) (defs.now).windows }
    ensures timed { result ≡ true → All (λ w. is_timed w.kind ≡ true) (defs.now).windows }
{
    defs.windows().iter().all(|def| matches!(
        def.kind,
        Kind::Tumbling { .. } | Kind::Sliding { .. }
    ))
}

// Puts a tuple into the store, unless each window counts events: then it is settled at once.
// Answers whether the tuple came behind all others and joined their last slice.
pub fn put_in<M: Partial, T: AggTree<M>, L>(
    store: &mut SliceStore<M, T>,
    defs: &Defs,
    x: Kept,
    steps: &mut Steps<L>,
) -> bool
    requires { MayEnter defs.now x.time store.old }
    ensures comes { (n : ℕ) → (more : ℕ) × Comes defs.now n store.old x more store.new }
    ensures bare { all_count_events defs.now → store.new.slices ≡ [] }
    ensures reach { store.new.reach ≤ store.old.reach + 1 }
    ensures work { steps.new ≤ steps.old + enter_work defs.now x.time store.old }
    ensures joined { result ≡ true → JoinsLast defs.now x.time store.old }
    ensures enters { result ≡ true → tuples_of store.new ≡ put_in_order (tuples_of store.old) x }
{
    if !all_count_events(defs) {
        store.put(defs, x, steps) == Placed::Appended
    } else {
        false
    }
}
