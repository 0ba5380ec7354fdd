//! Where slices are cut.
ghost use Rattle.std.specs.Prelude.{◌≡◌, ◌≤◌, ◌&&◌, nat_le, nat_lt};
ghost use Rattle.std.specs.List.{list_any};
ghost use Rattle.stream_base.specs.declared.limits.TheConstants.{TIME_MAX};
ghost use Rattle.stream_base.specs.Model.Cuts.{has_cut};
ghost use Rattle.stream_base.specs.Kinds.{bounds_up_to, cuts_between, has_bound};

use crate::kinds::cuts_between;
use crate::places::marks_before;
use crate::time::EventTime;
use crate::view::View;
use crate::window::{Window, windows_of};
use stream_base::Defs;

/// The times of two tuples, one behind the other.
#[derive(Clone, Copy)]
pub struct Times {
    pub low: u64,
    pub high: u64,
    ghost low_within: { low ≤ TIME_MAX },
    ghost high_within: { high ≤ TIME_MAX },
}

/// Whether there is a cut between two times: of a window, or by a mark.
pub fn has_cut(defs: &Defs, view: &View, times: Times) -> bool
    ensures { result ≡ has_cut (defs.now).windows view.now.marks times.low times.high }
{
    cuts_any(defs, times) || has_mark(view, times)
}

// Whether a mark lies after the first time and at or before the second.
fn has_mark(view: &View, times: Times) -> bool
    ensures { result ≡ list_any (λ m. nat_lt times.low m && nat_le m times.high) view.now.marks }
{
    let marks = view.marks;
    let place = marks_before(marks, times.low + 1);
    place < marks.len() && marks[place] <= times.high
}

// Whether a window cuts between two times.
fn cuts_any(defs: &Defs, times: Times) -> bool
    ensures { result
        ≡ list_any (λ w. cuts_between w.kind times.low times.high) (defs.now).windows }
{
    let windows = windows_of(defs);
    for def in windows {
        if cuts_between(&Window { def }, times) {
            return true;
        }
    }
    false
}

/// Whether one of the times offset, offset + slide, offset + 2 * slide and so on lies after the
/// first time and at or before the second.
pub fn has_bound(offset: u64, slide: u64, times: Times) -> bool
    requires { 1 ≤ slide }
    ensures { result ≡ has_bound offset slide times.low times.high }
{
    let low = EventTime { time: times.low };
    let high = EventTime { time: times.high };
    bounds_up_to(offset, slide, low) < bounds_up_to(offset, slide, high)
}

// How many of those times are at most a time.
fn bounds_up_to(offset: u64, slide: u64, at: EventTime) -> u64
    requires { 1 ≤ slide }
    ensures { result ≡ bounds_up_to offset slide at.time }
{
    if at.time < offset {
        0
    } else {
        (at.time - offset) / slide + 1
    }
}
