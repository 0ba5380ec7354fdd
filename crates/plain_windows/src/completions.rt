//! What a move of the watermark brings.
ghost use Rattle.std.specs.Prelude.{◌≡◌, ◌≤◌, ◌-◌, ◌+◌, ◌++◌, ◌<◌, [], ℕ, List, IfSome, length, min, vec_len, vec_capacity};
ghost use Rattle.std.specs.List.{enumerate_from, flat_map, fold};
ghost use Rattle.stream_base.specs.declared.limits.TheConstants.{TIME_MAX};
ghost use Rattle.stream_base.specs.Laws.{completions};
ghost use Rattle.stream_base.specs.Vectors.{Appends, room};
ghost use Rattle.plain_windows.specs.Changing.{IsAhead, IsDue, KeepsAhead, KeepsDue, all_completions, bounds_ahead, window_of};

use crate::fold::{Owner, row_of};
use crate::kinds::{bound_above, bound_of};
use crate::time::EventTime;
use crate::view::View;
use crate::walk::{due_from, first_left};
use crate::window::{Window, windows_of};
use agg_laws::Steps;
use stream_base::{Change, Defs, KeyText};

/// Appends what a move of the watermark to `new` brings of a key: the emission of each instance that
/// becomes complete, by window, start and end. Takes no memory.
pub fn append_completions<L>(
    defs: &Defs,
    key: &KeyText,
    view: &View,
    new: u64,
    out: &mut Vec<Change>,
    steps: &mut Steps<L>,
)
    requires spare { length (all_completions (defs.now).windows key.now view.now new)
        ≤ room out.old }
    ensures { Appends (all_completions (defs.now).windows key.now view.now new)
        out.old out.new }
{
    let windows = windows_of(defs);
    for (place, def) in windows.iter().enumerate() {
        let owner = Owner {
            place: place as u32,
            window: Window { def },
            key,
        };
        complete_window(&owner, view, new, out, steps);
    }
}

// Appends those of one window.
fn complete_window<L>(
    owner: &Owner,
    view: &View,
    new: u64,
    out: &mut Vec<Change>,
    steps: &mut Steps<L>,
)
    requires spare { length (completions owner.now.key.now view.now new (window_of owner.now))
        ≤ room out.old }
    ensures { Appends (completions owner.now.key.now view.now new (window_of owner.now))
        out.old out.new }
{
    let window = &owner.window;
    let mut from = due_from(window, view);
    while let Some(extent) = first_left(window, view, from, new) {
        out.push_reserved(Change::New(row_of(owner, view, &extent, steps)));
        from = extent.low + 1;
    }
}

/// How many changes `append_completions` appends, for every key.
pub fn count_completions(defs: &Defs, view: &View, new: u64) -> u64
    ensures { (key : List ℕ) → result
        ≡ length (all_completions (defs.now).windows key view.now new) }
{
    let windows = windows_of(defs);
    let mut count = 0;
    for def in windows {
        count += count_window(&Window { def }, view, new);
    }
    count
}

fn count_window(window: &Window, view: &View, new: u64) -> u64
    ensures value { (place : ℕ) (key : List ℕ) → result
        ≡ length (completions key view.now new (place, window.now)) }
    ensures few { result ≤ TIME_MAX + 1 }
{
    let mut count = 0;
    let mut from = due_from(window, view);
    while let Some(extent) = first_left(window, view, from, new) {
        count += 1;
        from = extent.low + 1;
    }
    count
}

/// The least bound above the watermark, over all windows: the first watermark at which something
/// becomes complete. `u64::MAX` where there is none.
pub fn next_bound(defs: &Defs, view: &View) -> u64
    ensures least { result
        ≡ fold min u64.MAX (flat_map (bounds_ahead view.now) (defs.now).windows) }

    // No bound lies between the watermark and it.
    ensures ahead { IsAhead (defs.now).windows view.now.kept view.now.marks
        view.now.water result }

    // And up to the final watermark it is the bound of an instance.
    ensures due { IsDue (defs.now).windows view.now.kept view.now.marks
        view.now.water result }

    // A move to below it completes nothing.
    ensures nothing { (key : List ℕ) (new : ℕ) → new < result
        → all_completions (defs.now).windows key view.now new ≡ [] }
{
    let windows = windows_of(defs);
    let mut least = u64::MAX;
    for def in windows {
        least = next_of_window(&Window { def }, view, least);
    }
    least
}

// The least of a number and the bounds of one window above the watermark: as bounds don't fall, the
// first of them is the least.
fn next_of_window(window: &Window, view: &View, least: u64) -> u64
    ensures { result ≡ fold min least (bounds_ahead view.now window.now) }
{
    window.vouch();
    view.vouch();
    match bound_above(window, view, view.water) {
        Some(bound) => least_of(least, bound),
        None => least,
    }
}

/// A number below which a tuple at this time brings no bound, whatever the lists: with it among them,
/// no bound lies between the watermark and the less of it and a number for which that held before.
/// None where the time alone doesn't tell, as with sessions, marks and event counts.
pub fn bound_from(defs: &Defs, time: u64) -> Option<u64>
    requires time { time ≤ TIME_MAX }
    ensures ahead { IfSome result (λ bound. KeepsAhead (defs.now).windows time bound) }

    // And the less of the two is still the least bound, where the tuple comes after the watermark.
    ensures due { IfSome result (λ bound. KeepsDue (defs.now).windows time bound) }
{
    let windows = windows_of(defs);
    let mut least = u64::MAX;
    for def in windows {
        least = least_of(least, bound_of(&Window { def }, EventTime { time })?);
    }
    Some(least)
}

fn least_of(a: u64, b: u64) -> u64
    ensures { result ≡ min a b }
{
    if b < a { b } else { a }
}
