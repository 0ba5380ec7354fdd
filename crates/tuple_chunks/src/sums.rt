//! Sums and ranges of tuples where there may be none.
ghost use Rattle.std.specs.Prelude.{◌≡◌, ◌≤◌, ◌<◌, ◌+◌, ◌-◌, ◌++◌, ◌∷◌, ◌^◌, ◌&&◌, ◌||◌, [], None, Some, List, length, nat_le, nat_lt};
ghost use Rattle.stream_base.specs.declared.kept.Kept.{Kept};
ghost use Rattle.tuple_chunks.specs.Sums.{IsSum, number_in, shown_joined};

use agg_laws::{Lift, Monoid, Steps};
use aggregates::Bundle;
use slice_lists::Slice;
use stream_base::Kept;

/// What the tuples of two sums come to, one behind the other. It takes a step where both have some.
pub fn joined<L>(
    left: Option<Bundle>,
    right: Option<Bundle>,
    steps: &mut Steps<L>,
) -> Option<Bundle>
    ensures sum { (xs ys : List Kept) → IsSum left xs → IsSum right ys → IsSum result (xs ++ ys) }
    ensures cost { (xs ys : List Kept) → IsSum left xs → IsSum right ys
        → steps.new + ((length xs - 1) + (length ys - 1)) ≤ steps.old + (length (xs ++ ys) - 1) }
{
    let Some(left) = left else {
        return right;
    };
    let Some(right) = right else {
        return Some(left);
    };
    Some(left.combine(&right, steps))
}

/// What tuples come to in their order: a step for each but the first.
pub fn sum_of<L>(tuples: &[Kept], steps: &mut Steps<L>) -> Option<Bundle>
    ensures sum { IsSum result tuples.now }
    ensures cost { steps.new ≤ steps.old + (length tuples.now - 1) }
{
    let mut sum = None;
    for x in tuples {
        sum = joined(sum, Some(lifted(x)), steps);
    }
    sum
}

// What a tuple alone comes to.
fn lifted(x: &Kept) -> Bundle
    ensures { IsSum (Some result) (x.now ∷ []) }
{
    Bundle::lift(x.value)
}

/// How two rows of tuples show, one behind the other.
pub fn shown_together(left: Option<Slice>, right: Option<Slice>) -> Option<Slice>
    requires { number_in left + number_in right < 2 ^ 64 }
    ensures { result ≡ shown_joined left right }
{
    let Some(left) = left else {
        return right;
    };
    let Some(right) = right else {
        return Some(left);
    };
    Some(Slice {
        low: left.low,
        high: right.high,
        number: left.number + right.number,
    })
}

/// Whether times from the first to the last all lie in a range.
pub fn covers(low: u64, high: u64, first: u64, last: u64) -> bool
    ensures { result ≡ (nat_le low first && nat_lt last high) }
{
    low <= first && last < high
}

/// Whether times from the first to the last all lie outside of a range.
pub fn misses(low: u64, high: u64, first: u64, last: u64) -> bool
    ensures { result ≡ (nat_lt last low || nat_le high first) }
{
    last < low || high <= first
}

/// Forgets a sum. Where there is none nothing is written, as in order.
pub fn forget(sum: &mut Option<Bundle>)
    ensures { sum.new ≡ None }
{
    if sum.is_some() {
        *sum = None;
    }
}
