//! Intervals over what is kept of a key.
ghost use Rattle.std.specs.Prelude.{◌≡◌, ◌≤◌};
ghost use Rattle.stream_base.specs.Model.Windows.{interval};
ghost use Rattle.plain_windows.specs.Extents.{IsExtentIn, instance_in};

use crate::extent::Extent;
use crate::places::tuples_before;
use crate::view::View;

/// The ends of an interval, which is half open.
#[derive(Clone, Copy)]
pub struct Interval {
    pub low: u64,
    pub high: u64,
    ghost in_order: { low ≤ high },
}

/// The instance over an interval: what it selects is found by halves.
pub fn interval_over(view: &View, over: Interval) -> Extent
    ensures is { instance_in view.now.kept result ≡ interval over.low over.high view.now.kept }
    ensures inside { IsExtentIn view.now.kept result }
{
    let first = tuples_before(view.kept, over.low);
    let end = tuples_before(view.kept, over.high);
    Extent {
        low: over.low,
        high: over.high,
        bound: over.high,
        first,
        count: end - first,
    }
}
