//! How slices show after an edit: their times and numbers alone.
ghost use Rattle.std.specs.Prelude.{◌≡◌, ◌≤◌, ◌<◌, ◌+◌, ◌-◌, ◌^◌, ◌++◌, ◌∷◌, suc, take, drop, vec_len, vec_capacity};
ghost use Rattle.slice_lists.specs.Bounds.{both_of, entered_bounds, entered_of, shown_alone, widened};

use slice_lists::Slice;

/// Makes the slices from one place up to another one slice with a tuple more: none, one or two.
pub fn enter_bounds(bounds: &mut Vec<Slice>, from: usize, to: usize, time: u64)
    requires order { from ≤ to }
    requires within { to ≤ vec_len bounds.old }
    requires few { to ≤ from + 2 }
    requires room { vec_len bounds.old < vec_capacity bounds.old }
    requires number { (entered_of (take (to - from) (drop from bounds.old.items)) time).number
        < 2 ^ 64 }
    ensures items { bounds.new.items ≡ entered_bounds from to time bounds.old.items }
    ensures len { vec_len bounds.new + (to - from) ≡ vec_len bounds.old + 1 }
    ensures capacity { vec_capacity bounds.new ≡ vec_capacity bounds.old }
{
    if to == from {
        bounds.insert(from, shown_alone(time)).unwrap();
    } else if to == from + 1 {
        bounds[from] = widened(bounds[from], time);
    } else {
        merge_bounds(bounds, from, time);
    }
}

// Two neighbours become one.
fn merge_bounds(bounds: &mut Vec<Slice>, at: usize, time: u64)
    requires within { at + 1 < vec_len bounds.old }
    requires number { (entered_of (take 2 (drop at bounds.old.items)) time).number < 2 ^ 64 }
    ensures items { bounds.new.items ≡ entered_bounds at (at + 2) time bounds.old.items }
    ensures len { vec_len bounds.new + 1 ≡ vec_len bounds.old }
    ensures capacity { vec_capacity bounds.new ≡ vec_capacity bounds.old }
{
    bounds[at] = widened(both_of(bounds[at], bounds[at + 1]), time);
    bounds.remove(at + 1);
}

/// Puts two slices in the place of one.
pub fn split_bounds(bounds: &mut Vec<Slice>, at: usize, front: Slice, back: Slice)
    requires within { at < vec_len bounds.old }
    requires room { vec_len bounds.old < vec_capacity bounds.old }
    ensures items { bounds.new.items
        ≡ take at bounds.old.items ++ front ∷ back ∷ drop (suc at) bounds.old.items }
    ensures len { vec_len bounds.new ≡ vec_len bounds.old + 1 }
    ensures capacity { vec_capacity bounds.new ≡ vec_capacity bounds.old }
{
    bounds[at] = front;
    bounds.insert(at + 1, back).unwrap();
}

fn shown_alone(time: u64) -> Slice
    ensures { result ≡ shown_alone time }
{
    Slice {
        low: time,
        high: time,
        number: 1,
    }
}

fn widened(slice: Slice, time: u64) -> Slice
    requires { slice.number + 1 < 2 ^ 64 }
    ensures { result ≡ widened slice time }
{
    Slice {
        low: slice.low.min(time),
        high: slice.high.max(time),
        number: slice.number + 1,
    }
}

fn both_of(slice: Slice, next: Slice) -> Slice
    requires { slice.number + next.number < 2 ^ 64 }
    ensures { result ≡ both_of slice next }
{
    Slice {
        low: slice.low,
        high: next.high,
        number: slice.number + next.number,
    }
}
