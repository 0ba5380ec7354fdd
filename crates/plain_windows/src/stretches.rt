//! The instances of a marks window: intervals between successive marks.
ghost use Rattle.std.specs.Prelude.{◌≡◌, ◌≤◌, ◌<◌, ℕ, IfSome, nat_le, nat_lt};
ghost use Rattle.std.specs.List.{Contains, find};
ghost use Rattle.std.specs.Option.{option_map};
ghost use Rattle.stream_base.specs.Model.Windows.{stretches};
ghost use Rattle.plain_windows.specs.Extents.{Tells};
ghost use Rattle.plain_windows.specs.Runs.{edges_of};

use crate::extent::Extent;
use crate::intervals::{Interval, interval_over};
use crate::places::{marks_before, tuples_before};
use crate::view::View;
use stream_base::FINAL;

/// The first interval between successive marks that starts at or after a time and has a tuple, if
/// there is one. Only its tuple is looked for, so the empty ones before it cost nothing.
pub fn first_from(view: &View, from: u64) -> Option<Extent>
    ensures { Tells view.now.kept result
        (find (λ i. nat_le from i.low) (stretches view.now.marks view.now.kept)) }
{
    view.vouch();
    if from == 0 {
        return first_behind(view, 0);
    }
    if from > FINAL {
        return None;
    }
    first_behind(view, edge_after(view, from - 1))
}

/// The first interval between successive marks that ends after a watermark and has a tuple, if
/// there is one.
pub fn first_above(view: &View, water: u64) -> Option<Extent>
    ensures { Tells view.now.kept result
        (find (λ i. nat_lt water i.bound) (stretches view.now.marks view.now.kept)) }
{
    view.vouch();
    if water >= FINAL {
        return None;
    }
    first_behind(view, edge_up_to(view, water))
}

// The first interval with a tuple that starts at an edge or behind it, if there is one.
fn first_behind(view: &View, edge: u64) -> Option<Extent>
    requires { Contains (edges_of view.now.marks) edge }
    ensures { Tells view.now.kept result
        (find (λ i. nat_le edge i.low) (stretches view.now.marks view.now.kept)) }
{
    let kept = view.kept;
    let place = tuples_before(kept, edge);
    if place == kept.len() {
        return None;
    }
    let time = kept[place].time;
    let low = edge_up_to(view, time);
    let high = edge_after(view, time);
    Some(interval_over(view, Interval { low, high }))
}

// The last edge at or before a time.
fn edge_up_to(view: &View, time: u64) -> u64
    requires { time < FINAL }
    ensures edge { Contains (edges_of view.now.marks) result }
    ensures up_to { result ≤ time }
    ensures last { (edge : ℕ) → Contains (edges_of view.now.marks) edge
        → edge ≤ time → edge ≤ result }
{
    let marks = view.marks;
    let place = marks_before(marks, time + 1);
    if place == 0 { 0 } else { marks[place - 1] }
}

// The first edge after a time.
fn edge_after(view: &View, time: u64) -> u64
    requires { time < FINAL }
    ensures edge { Contains (edges_of view.now.marks) result }
    ensures after { time < result }
    ensures first { (edge : ℕ) → Contains (edges_of view.now.marks) edge
        → time < edge → result ≤ edge }
{
    let marks = view.marks;
    let place = marks_before(marks, time + 1);
    if place == marks.len() {
        FINAL
    } else {
        marks[place]
    }
}
