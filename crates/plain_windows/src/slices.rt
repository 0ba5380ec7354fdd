//! How many slices the unsettled tuples of a key have.
ghost use Rattle.std.specs.Prelude.{◌≡◌, ◌≤◌, drop, length};
ghost use Rattle.std.specs.List.{list_all};
ghost use Rattle.stream_base.specs.Model.Slices.{is_settled_in, runs_of, unsettled};
ghost use Rattle.window_laws.specs.Positions.{HaveDistinctPositions};
ghost use Rattle.plain_windows.specs.Turns.{IsTurnOf};

use crate::cuts::{Times, has_cut};
use crate::kinds::{counts_events, first_above};
use crate::view::View;
use crate::window::{Window, windows_of};
use stream_base::Defs;

/// How many slices the tuples have that aren't settled, under these definitions: the maximal
/// stretches of them with no cut between neighbours. Settled tuples come first, so it looks for the
/// first that isn't, and counts the cuts from there on. Takes no memory.
pub fn slice_count(defs: &Defs, view: &View) -> u64
    requires distinct { HaveDistinctPositions view.now.kept }
    ensures { result
        ≡ length (runs_of (defs.now).windows view.now.marks (unsettled defs.now view.now)) }
{
    count_slices(defs, view, first_unsettled(defs, view))
}

// The place of the first tuple that isn't settled, and the number of tuples where all are.
fn first_unsettled(defs: &Defs, view: &View) -> usize
    requires distinct { HaveDistinctPositions view.now.kept }
    ensures { IsTurnOf (λ x. list_all (is_settled_in (defs.now).lateness view.now x)
        (defs.now).windows) view.now.kept result }
{
    let windows = windows_of(defs);
    let lateness = defs.lateness();
    let mut first = view.len();
    for def in windows {
        first = first.min(first_unsettled_in(&Window { def }, lateness, view));
    }
    first
}

// The same of one window: instances come by their starts and their ends, so it is the first tuple
// of the first instance that ends after the watermark minus the lateness.
fn first_unsettled_in(window: &Window, lateness: u64, view: &View) -> usize
    requires distinct { HaveDistinctPositions view.now.kept }
    ensures { IsTurnOf (λ x. is_settled_in lateness view.now x window.now) view.now.kept result }
{
    window.vouch();
    view.vouch();
    if counts_events(window) {
        return view.len();
    }
    let water = view.water.saturating_sub(lateness);
    match first_above(window, view, water) {
        Some(extent) => extent.first,
        None => view.len(),
    }
}

// How many slices the tuples from a place on have: one more than there are cuts between neighbours.
fn count_slices(defs: &Defs, view: &View, first: usize) -> u64
    requires { first ≤ length view.now.kept }
    ensures { result
        ≡ length (runs_of (defs.now).windows view.now.marks (drop first view.now.kept)) }
{
    view.vouch();
    let kept = view.kept_from(first);
    if kept.is_empty() {
        return 0;
    }
    let mut count = 1;
    for place in 1..kept.len() {
        let times = Times {
            low: kept[place - 1].time,
            high: kept[place].time,
        };
        if has_cut(defs, view, times) {
            count += 1;
        }
    }
    count
}
