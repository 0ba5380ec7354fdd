//! The instances of a tumbling or sliding window: intervals that start at multiples of the slide.
ghost use Rattle.std.specs.Prelude.{◌≡◌, ◌<◌, ◌≤◌, ◌+◌, [], ℕ, List, IfSome, nat_le, nat_lt};
ghost use Rattle.std.specs.List.{Contains, find};
ghost use Rattle.std.specs.Option.{option_map};
ghost use Rattle.stream_base.specs.declared.kept.Kept.{Kept};
ghost use Rattle.stream_base.specs.declared.kind.Kind.TheVariants.{Sliding};
ghost use Rattle.stream_base.specs.Kinds.{IsKindWithin};
ghost use Rattle.stream_base.specs.declared.limits.TheConstants.{TIME_MAX};
ghost use Rattle.stream_base.specs.Model.Journal.{put_in_order};
ghost use Rattle.stream_base.specs.Model.Windows.{Instance, interval, spans};
ghost use Rattle.plain_windows.specs.Changing.{HasBound, SpansBringNoneBelow};
ghost use Rattle.plain_windows.specs.Extents.{Tells};

use crate::extent::Extent;
use crate::intervals::{Interval, interval_over};
use crate::places::tuples_before;
use crate::time::EventTime;
use crate::view::View;
use stream_base::TIME_MAX;

/// The length of intervals and the slide from one start to the next, within the limits of a window.
#[derive(Clone, Copy)]
pub struct Spacing {
    pub length: u64,
    pub slide: u64,
    ghost within: { IsKindWithin (Sliding length slide) },
}

/// The first interval with a tuple that starts at or after a time, if there is one.
pub fn first_from(spacing: Spacing, view: &View, from: u64) -> Option<Extent>
    ensures { Tells view.now.kept result
        (find (λ i. nat_le from i.low) (spans spacing.length spacing.slide view.now.kept)) }
{
    let low = start_from(spacing, view, from)?;
    let high = low + spacing.length;
    Some(interval_over(view, Interval { low, high }))
}

// The start of that interval.
fn start_from(spacing: Spacing, view: &View, from: u64) -> Option<u64>
    ensures found { option_map (λ low. interval low (low + spacing.length) view.now.kept) result
        ≡ find (λ i. nat_le from i.low) (spans spacing.length spacing.slide view.now.kept) }
    ensures early { IfSome result (λ low. low ≤ TIME_MAX) }
{
    let kept = view.kept;
    if from > TIME_MAX {
        return None;
    }
    let start = (from + spacing.slide - 1) / spacing.slide;
    let place = tuples_before(kept, start * spacing.slide);
    if place == kept.len() {
        return None;
    }
    let holding = (kept[place].time + spacing.slide).saturating_sub(spacing.length) / spacing.slide;
    Some(start.max(holding) * spacing.slide)
}

/// The first interval with a tuple that ends after a watermark, if there is one.
pub fn first_above(spacing: Spacing, view: &View, water: u64) -> Option<Extent>
    ensures { Tells view.now.kept result
        (find (λ i. nat_lt water i.bound) (spans spacing.length spacing.slide view.now.kept)) }
{
    first_from(spacing, view, water.saturating_sub(spacing.length - 1))
}

/// The bound of the first interval that holds a time: none that holds it has an earlier one.
pub fn bound_holding(spacing: Spacing, at: EventTime) -> u64
    ensures none_below { SpansBringNoneBelow spacing.length spacing.slide at.time result }
    ensures later { at.time < result }
    ensures brought { (kept : List Kept) (x : Kept) → x.time ≡ at.time
        → HasBound (spans spacing.length spacing.slide (put_in_order kept x)) result }
    ensures stay { (kept : List Kept) (x : Kept) (i : Instance)
        → Contains (spans spacing.length spacing.slide kept) i
        → HasBound (spans spacing.length spacing.slide (put_in_order kept x)) i.bound }
{
    let first = (at.time + spacing.slide).saturating_sub(spacing.length) / spacing.slide;
    first * spacing.slide + spacing.length
}

/// The bound of that interval, without a search for what it selects.
pub fn bound_above(spacing: Spacing, view: &View, water: u64) -> Option<u64>
    ensures { result ≡ option_map (λ i. i.bound)
        (find (λ i. nat_lt water i.bound) (spans spacing.length spacing.slide view.now.kept)) }
{
    let low = start_from(spacing, view, water.saturating_sub(spacing.length - 1))?;
    Some(low + spacing.length)
}
