//! The changes of a key from one moment to the next.
ghost use Rattle.std.specs.Prelude.{◌≡◌, ◌≤◌, ◌-◌, ◌+◌, ◌*◌, ◌++◌, ℕ, List, length, vec_len, vec_capacity};
ghost use Rattle.std.specs.List.{enumerate_from, flat_map};
ghost use Rattle.stream_base.specs.declared.limits.TheConstants.{TIME_MAX, WINDOWS_MAX};
ghost use Rattle.stream_base.specs.Model.Changes.{changes_between, emissions, retractions};
ghost use Rattle.stream_base.specs.Vectors.{Appends, room};
ghost use Rattle.plain_windows.specs.Changing.{all_emissions, all_retractions, window_of};

use crate::fate::{come, count_come, count_gone, gone};
use crate::fold::Owner;
use crate::view::View;
use crate::walk::first_standing;
use crate::window::{Window, windows_of};
use agg_laws::Steps;
use stream_base::{Change, Defs, KeyText};

/// Appends the changes of a key from one moment to the next: all retractions, then all emissions and
/// updates, each by window, start and end. Takes no memory.
#[tactic(auto, unfolding(stream_base::specs::Model::Changes::changes_between))]
pub fn append_changes<L>(
    defs: &Defs,
    key: &KeyText,
    old: &View,
    new: &View,
    out: &mut Vec<Change>,
    steps: &mut Steps<L>,
)
    requires spare { length (changes_between (defs.now).windows key.now old.now new.now)
        ≤ room out.old }
    ensures { Appends (changes_between (defs.now).windows key.now old.now new.now)
        out.old out.new }
{
    append_retractions(defs, key, old, new, out, steps);
    append_emissions(defs, key, old, new, out, steps);
}

fn append_retractions<L>(
    defs: &Defs,
    key: &KeyText,
    old: &View,
    new: &View,
    out: &mut Vec<Change>,
    steps: &mut Steps<L>,
)
    requires spare { length (all_retractions (defs.now).windows key.now old.now new.now)
        ≤ room out.old }
    ensures { Appends (all_retractions (defs.now).windows key.now old.now new.now)
        out.old out.new }
{
    let windows = windows_of(defs);
    for (place, def) in windows.iter().enumerate() {
        let owner = Owner {
            place: place as u32,
            window: Window { def },
            key,
        };
        retract_window(&owner, old, new, out, steps);
    }
}

fn append_emissions<L>(
    defs: &Defs,
    key: &KeyText,
    old: &View,
    new: &View,
    out: &mut Vec<Change>,
    steps: &mut Steps<L>,
)
    requires spare { length (all_emissions (defs.now).windows key.now old.now new.now)
        ≤ room out.old }
    ensures { Appends (all_emissions (defs.now).windows key.now old.now new.now)
        out.old out.new }
{
    let windows = windows_of(defs);
    for (place, def) in windows.iter().enumerate() {
        let owner = Owner {
            place: place as u32,
            window: Window { def },
            key,
        };
        emit_window(&owner, old, new, out, steps);
    }
}

#[tactic(auto, using(crate::proofs::Appending::append_option, crate::proofs::Appending::option_lengths))]
fn retract_window<L>(
    owner: &Owner,
    old: &View,
    new: &View,
    out: &mut Vec<Change>,
    steps: &mut Steps<L>,
)
    requires spare { length (retractions owner.now.key.now old.now new.now
        (window_of owner.now))
        ≤ room out.old }
    ensures { Appends (retractions owner.now.key.now old.now new.now (window_of owner.now))
        out.old out.new }
{
    let window = &owner.window;
    let mut from = 0;
    while let Some(extent) = first_standing(window, old, from) {
        gone(owner, old, &extent, new, out, steps);
        from = extent.low + 1;
    }
}

#[tactic(auto, using(crate::proofs::Appending::append_option, crate::proofs::Appending::option_lengths))]
fn emit_window<L>(
    owner: &Owner,
    old: &View,
    new: &View,
    out: &mut Vec<Change>,
    steps: &mut Steps<L>,
)
    requires spare { length (emissions owner.now.key.now old.now new.now
        (window_of owner.now))
        ≤ room out.old }
    ensures { Appends (emissions owner.now.key.now old.now new.now (window_of owner.now))
        out.old out.new }
{
    let window = &owner.window;
    let mut from = 0;
    while let Some(extent) = first_standing(window, new, from) {
        come(owner, new, &extent, old, out, steps);
        from = extent.low + 1;
    }
}

/// How many changes `append_changes` appends, for every key.
#[tactic(auto, using(crate::proofs::Appending::both_lengths), unfolding(stream_base::specs::Model::Changes::changes_between))]
pub fn count_changes(defs: &Defs, old: &View, new: &View) -> u64
    ensures { (key : List ℕ) → result
        ≡ length (changes_between (defs.now).windows key old.now new.now) }
{
    count_retractions(defs, old, new) + count_emissions(defs, old, new)
}

fn count_retractions(defs: &Defs, old: &View, new: &View) -> u64
    ensures value { (key : List ℕ) → result
        ≡ length (all_retractions (defs.now).windows key old.now new.now) }
    ensures few { result ≤ WINDOWS_MAX * (TIME_MAX + 1) }
{
    let windows = windows_of(defs);
    let mut count = 0;
    for def in windows {
        count += count_retracted(&Window { def }, old, new);
    }
    count
}

fn count_emissions(defs: &Defs, old: &View, new: &View) -> u64
    ensures value { (key : List ℕ) → result
        ≡ length (all_emissions (defs.now).windows key old.now new.now) }
    ensures few { result ≤ WINDOWS_MAX * (TIME_MAX + 1) }
{
    let windows = windows_of(defs);
    let mut count = 0;
    for def in windows {
        count += count_emitted(&Window { def }, old, new);
    }
    count
}

#[tactic(auto, using(crate::proofs::Appending::append_option, crate::proofs::Appending::option_lengths))]
fn count_retracted(window: &Window, old: &View, new: &View) -> u64
    ensures value { (place : ℕ) (key : List ℕ) → result
        ≡ length (retractions key old.now new.now (place, window.now)) }
    ensures few { result ≤ TIME_MAX + 1 }
{
    let mut count = 0;
    let mut from = 0;
    while let Some(extent) = first_standing(window, old, from) {
        count += count_gone(window, old, &extent, new);
        from = extent.low + 1;
    }
    count
}

#[tactic(auto, using(crate::proofs::Appending::append_option, crate::proofs::Appending::option_lengths))]
fn count_emitted(window: &Window, old: &View, new: &View) -> u64
    ensures value { (place : ℕ) (key : List ℕ) → result
        ≡ length (emissions key old.now new.now (place, window.now)) }
    ensures few { result ≤ TIME_MAX + 1 }
{
    let mut count = 0;
    let mut from = 0;
    while let Some(extent) = first_standing(window, new, from) {
        count += count_come(window, new, &extent, old);
        from = extent.low + 1;
    }
    count
}
