//! The instances of an events window: runs of so many tuples, told by their ranks.
ghost use Rattle.std.specs.Prelude.{◌≡◌, ◌≤◌, ◌<◌, ◌/◌, [], IfSome, length, nat_le, nat_lt};
ghost use Rattle.std.specs.List.{find};
ghost use Rattle.std.specs.Option.{option_map};
ghost use Rattle.stream_base.specs.declared.kind.Kind.TheVariants.{Events};
ghost use Rattle.stream_base.specs.Kinds.{IsKindWithin};
ghost use Rattle.stream_base.specs.Model.Windows.{counted, ranks};
ghost use Rattle.plain_windows.specs.Extents.{IsExtentIn, Tells, instance_in};

use crate::extent::Extent;
use crate::places::tuples_before;
use crate::view::View;
use stream_base::{Kept, TIME_MAX};

/// How many tuples a run has, within the limits of a window.
#[derive(Clone, Copy)]
pub struct RunLength {
    pub count: u64,
    ghost within: { IsKindWithin (Events count) },
}

/// The first run of so many tuples that starts at or after a rank, if it is all there.
pub fn first_from(run: RunLength, view: &View, from: u64) -> Option<Extent>
    ensures { Tells view.now.kept result
        (find (λ i. nat_le from i.low) (counted run.count view.now.kept)) }
{
    let kept = view.kept;
    let count = run.count;
    if from > kept.len() as u64 {
        return None;
    }
    let place = ((from + count - 1) / count) as usize;
    if place < kept.len() / count as usize {
        Some(run_at(count as usize, kept, place))
    } else {
        None
    }
}

/// The first run of so many tuples whose last lies after a watermark, if it is all there: runs of
/// tuples up to the watermark are complete.
pub fn first_above(run: RunLength, view: &View, water: u64) -> Option<Extent>
    ensures { Tells view.now.kept result
        (find (λ i. nat_lt water i.bound) (counted run.count view.now.kept)) }
{
    let kept = view.kept;
    let count = run.count;
    if water >= TIME_MAX {
        return None;
    }
    let place = tuples_before(kept, water + 1) / count as usize;
    if place < kept.len() / count as usize {
        Some(run_at(count as usize, kept, place))
    } else {
        None
    }
}

// The run of so many tuples at a place among the runs.
fn run_at(count: usize, kept: &[Kept], place: usize) -> Extent
    requires some { 1 ≤ count }
    requires there { place < length kept.now / count }
    ensures is { instance_in kept.now result ≡ ranks count kept.now place }
    ensures inside { IsExtentIn kept.now result }
{
    let first = place * count;
    let end = first + count;
    let bound = kept[end - 1].time;
    Extent {
        low: first as u64,
        high: end as u64,
        bound,
        first,
        count,
    }
}
