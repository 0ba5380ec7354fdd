//! The instances of a session window: runs of tuples whose neighbours lie less than the gap apart.
ghost use Rattle.std.specs.Prelude.{◌≡◌, ◌≤◌, ◌<◌, ◌-◌, ◌∷◌, ◌++◌, ℕ, length, take, drop, nat_le, nat_lt};
ghost use Rattle.std.specs.List.{find};
ghost use Rattle.stream_base.specs.declared.kind.Kind.TheVariants.{Session};
ghost use Rattle.stream_base.specs.Kinds.{IsKindWithin};
ghost use Rattle.stream_base.specs.Model.Windows.{session, sessions};
ghost use Rattle.stream_base.specs.Places.{IsPlaceOf};
ghost use Rattle.plain_windows.specs.Extents.{IsExtentIn, Tells, instance_in};
ghost use Rattle.plain_windows.specs.Runs.{IsFirstRun, is_apart, runs_of};

use crate::extent::Extent;
use crate::places::tuples_before;
use crate::view::View;
use stream_base::Kept;

/// The first session that starts at or after a time, if there is one: behind the session of the
/// last tuple before that time.
pub fn first_from(gap: u64, view: &View, from: u64) -> Option<Extent>
    requires kind { IsKindWithin (Session gap) }
    ensures { Tells view.now.kept result
        (find (λ i. nat_le from i.low) (sessions gap view.now.kept)) }
{
    let kept = view.kept;
    let first = start_behind(gap, kept, tuples_before(kept, from));
    if first == kept.len() {
        return None;
    }
    Some(session_over(gap, view, first, end_of(gap, kept, first)))
}

/// The first session that ends after a watermark, if there is one: the session of the first tuple
/// that lies less than the gap before the watermark, or after it.
pub fn first_above(gap: u64, view: &View, water: u64) -> Option<Extent>
    requires kind { IsKindWithin (Session gap) }
    ensures { Tells view.now.kept result
        (find (λ i. nat_lt water i.bound) (sessions gap view.now.kept)) }
{
    let kept = view.kept;
    let place = tuples_before(kept, water.saturating_sub(gap - 1));
    if place == kept.len() {
        return None;
    }
    let end = end_of(gap, kept, place);
    Some(session_over(gap, view, start_of(gap, kept, place, end), end))
}

// The session of the tuples from one place up to another.
fn session_over(gap: u64, view: &View, first: usize, end: usize) -> Extent
    requires kind { IsKindWithin (Session gap) }
    requires some { first < end }
    requires there { end ≤ length view.now.kept }
    ensures is { instance_in view.now.kept result
        ≡ session gap (take (end - first) (drop first view.now.kept)) }
    ensures inside { IsExtentIn view.now.kept result }
{
    let kept = view.kept;
    let low = kept[first].time;
    let high = kept[end - 1].time + gap;
    Extent {
        low,
        high,
        bound: high,
        first,
        count: end - first,
    }
}

// The place of the first tuple of a session at a place or behind it: the end of the session of the
// tuple before.
fn start_behind(gap: u64, kept: &[Kept], place: usize) -> usize
    requires { place ≤ length kept.now }
    ensures behind { place ≤ result }
    ensures within { result ≤ length kept.now }
    ensures none_between { (from : ℕ) → IsPlaceOf (λ x. x.time) kept.now from place
        → find (λ i. nat_le from i.low) (sessions gap kept.now)
        ≡ find (λ i. nat_le from i.low) (sessions gap (drop result kept.now)) }
{
    if place == 0 {
        return 0;
    }
    end_of(gap, kept, place - 1)
}

// The place behind the run of tuples that begins at a place.
fn end_of(gap: u64, kept: &[Kept], first: usize) -> usize
    requires { first < length kept.now }
    ensures { IsFirstRun gap kept.now first result }
{
    for end in first + 1..kept.len() {
        if are_apart(gap, &kept[end - 1], &kept[end]) {
            return end;
        }
    }
    kept.len()
}

// The place at which the run of tuples begins whose rest stands from one place up to another.
fn start_of(gap: u64, kept: &[Kept], place: usize, end: usize) -> usize
    requires { IsFirstRun gap kept.now place end }
    ensures before { result ≤ place }
    ensures run { runs_of gap kept.now ≡ runs_of gap (take result kept.now)
        ++ take (end - result) (drop result kept.now) ∷ runs_of gap (drop end kept.now) }
{
    let mut first = place;
    while first > 0 {
        if are_apart(gap, &kept[first - 1], &kept[first]) {
            return first;
        }
        first -= 1;
    }
    first
}

// Whether two neighbours lie the gap or more apart.
fn are_apart(gap: u64, earlier: &Kept, later: &Kept) -> bool
    ensures { result ≡ is_apart gap earlier.now later.now }
{
    later.time.saturating_sub(earlier.time) >= gap
}
