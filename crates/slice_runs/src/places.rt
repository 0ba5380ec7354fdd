//! Places among slices, which are sorted by time.
ghost use Rattle.std.specs.Prelude.{◌≡◌, ◌+◌, length, true};
ghost use Rattle.std.specs.List.Sorted.{IsNonDecreasingBy};
ghost use Rattle.stream_base.specs.Places.{IsPlaceOf};

use slice_lists::Slice;

/// How many slices begin before a time.
pub fn slices_before(bounds: &[Slice], time: u64) -> usize
    requires { IsNonDecreasingBy (λ s. s.low) bounds.now }
    ensures { IsPlaceOf (λ s. s.low) bounds.now time result }
{
    bounds.partition_point(|s| s.low < time)
}

/// How many slices begin at or before a time. A time in the last slice or behind it takes one look.
pub fn slices_up_to(bounds: &[Slice], time: u64) -> usize
    requires { IsNonDecreasingBy (λ s. s.low) bounds.now }
    ensures { IsPlaceOf (λ s. s.low) bounds.now (time + 1) result }
{
    if begin_by(bounds, time) {
        bounds.len()
    } else {
        bounds.partition_point(|s| s.low <= time)
    }
}

// Whether all slices begin at or before a time, as the last one tells.
fn begin_by(bounds: &[Slice], time: u64) -> bool
    requires { IsNonDecreasingBy (λ s. s.low) bounds.now }
    ensures { result ≡ true
        → IsPlaceOf (λ s. s.low) bounds.now (time + 1) (length bounds.now) }
{
    bounds.is_empty() || bounds[bounds.len() - 1].low <= time
}
