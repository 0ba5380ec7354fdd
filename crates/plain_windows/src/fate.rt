//! What becomes of one instance from one moment to the next.
ghost use Rattle.std.specs.Prelude.{◌≡◌, ◌≤◌, ◌-◌, ◌++◌, ◌==◌, ◌&&◌, ℕ, List, length, nat_le, vec_len, vec_capacity};
ghost use Rattle.std.specs.List.{find};
ghost use Rattle.stream_base.specs.Model.Changes.{are_same_tuples, standing_at};
ghost use Rattle.stream_base.specs.Vectors.{Appends, room};
ghost use Rattle.plain_windows.specs.Changing.{come_of, gone_of, is_over, window_of};
ghost use Rattle.plain_windows.specs.Extents.{IsExtentIn, Tells, instance_in};

use crate::extent::Extent;
use crate::fold::{Owner, former_of, row_of, tuples_of};
use crate::kinds::first_from;
use crate::view::View;
use crate::window::Window;
use agg_laws::Steps;
use stream_base::{Change, Kept};

/// Appends the retraction of an instance that stood, if none stands with its start and end.
pub fn gone<L>(
    owner: &Owner,
    old: &View,
    extent: &Extent,
    new: &View,
    out: &mut Vec<Change>,
    steps: &mut Steps<L>,
)
    requires inside { IsExtentIn old.now.kept extent.now }
    requires spare { length (gone_of owner.now.key.now new.now (window_of owner.now)
        (instance_in old.now.kept extent.now))
        ≤ room out.old }
    ensures { Appends (gone_of owner.now.key.now new.now (window_of owner.now)
        (instance_in old.now.kept extent.now)) out.old out.new }
{
    match standing_over(&owner.window, new, extent) {
        Some(_) => {}
        None => out.push_reserved(Change::Gone(row_of(owner, old, extent, steps))),
    }
}

/// Appends the emission of an instance that stands, if none stood with its start and end, or its
/// update, if that one selected other tuples.
pub fn come<L>(
    owner: &Owner,
    new: &View,
    extent: &Extent,
    old: &View,
    out: &mut Vec<Change>,
    steps: &mut Steps<L>,
)
    requires inside { IsExtentIn new.now.kept extent.now }
    requires spare { length (come_of owner.now.key.now old.now (window_of owner.now)
        (instance_in new.now.kept extent.now))
        ≤ room out.old }
    ensures { Appends (come_of owner.now.key.now old.now (window_of owner.now)
        (instance_in new.now.kept extent.now)) out.old out.new }
{
    match standing_over(&owner.window, old, extent) {
        Some(before) => {
            if !are_same_tuples(tuples_of(old, &before), tuples_of(new, extent)) {
                let former = former_of(owner.window.func(), old, &before, steps);
                let row = row_of(owner, new, extent, steps);
                out.push_reserved(Change::Again { row, former });
            }
        }
        None => out.push_reserved(Change::New(row_of(owner, new, extent, steps))),
    }
}

/// How many changes `gone` appends.
pub fn count_gone(window: &Window, old: &View, extent: &Extent, new: &View) -> u64
    ensures value { (place : ℕ) (key : List ℕ) → result
        ≡ length (gone_of key new.now (place, window.now) (instance_in old.now.kept extent.now)) }
    ensures few { result ≤ 1 }
{
    match standing_over(window, new, extent) {
        Some(_) => 0,
        None => 1,
    }
}

/// How many changes `come` appends.
pub fn count_come(window: &Window, new: &View, extent: &Extent, old: &View) -> u64
    requires inside { IsExtentIn new.now.kept extent.now }
    ensures value { (place : ℕ) (key : List ℕ) → result
        ≡ length (come_of key old.now (place, window.now) (instance_in new.now.kept extent.now)) }
    ensures few { result ≤ 1 }
{
    match standing_over(window, old, extent) {
        Some(before) => {
            if are_same_tuples(tuples_of(old, &before), tuples_of(new, extent)) {
                0
            } else {
                1
            }
        }
        None => 1,
    }
}

// The instance that stands and starts and ends as the extent does, if there is one.
fn standing_over(window: &Window, view: &View, extent: &Extent) -> Option<Extent>
    ensures { Tells view.now.kept result
        (find (is_over extent.now) (standing_at window.now view.now)) }
{
    window.vouch();
    view.vouch();
    match first_from(window, view, extent.low) {
        Some(there) => {
            if stands_over(&there, view.water, extent) {
                Some(there)
            } else {
                None
            }
        }
        None => None,
    }
}

fn stands_over(there: &Extent, water: u64, extent: &Extent) -> bool
    ensures { result
        ≡ ((((extent.now).low == (there.now).low) && ((extent.now).high == (there.now).high))
        && nat_le (there.now).bound water) }
{
    extent.low == there.low && extent.high == there.high && there.bound <= water
}

// Whether two selections have the same positions.
fn are_same_tuples(before: &[Kept], now: &[Kept]) -> bool
    ensures { result ≡ are_same_tuples before.now now.now }
{
    if before.len() != now.len() {
        return false;
    }
    for i in 0..before.len() {
        if before[i].position != now[i].position {
            return false;
        }
    }
    true
}
