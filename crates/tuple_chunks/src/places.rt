//! Places in tuples that are in event order.
ghost use Rattle.std.specs.Prelude.{◌≡◌, ◌≤◌, ◌<◌, nat_lt, nat_le, length, true};
ghost use Rattle.std.specs.List.{position_or_len};
ghost use Rattle.stream_base.specs.Laws.{TimesDoNotFall};
ghost use Rattle.stream_base.specs.Model.Windows.{last_time};
ghost use Rattle.stream_base.specs.Places.{IsPlaceOf};

use stream_base::Kept;

/// How many tuples lie before a time.
pub fn tuples_before(tuples: &[Kept], time: u64) -> usize
    requires { TimesDoNotFall tuples.now }
    ensures { IsPlaceOf (λ x. x.time) tuples.now time result }
{
    tuples.partition_point(|x| x.time < time)
}

/// The place of a tuple at a time in event order: before the first tuple of a later time. A tuple
/// that comes in order takes one look at the last one.
pub fn place_of(tuples: &[Kept], time: u64) -> usize
    requires { TimesDoNotFall tuples.now }
    ensures within { result ≤ length tuples.now }
    ensures value { result ≡ position_or_len (λ y. nat_lt time y.time) tuples.now }
{
    if are_by(tuples, time) {
        tuples.len()
    } else {
        tuples.partition_point(|x| x.time <= time)
    }
}

/// Whether no tuple is of a later time, as the last one tells.
pub fn are_by(tuples: &[Kept], time: u64) -> bool
    requires { TimesDoNotFall tuples.now }
    ensures end { result ≡ true
        → position_or_len (λ y. nat_lt time y.time) tuples.now ≡ length tuples.now }
    ensures last { result ≡ nat_le (last_time tuples.now) time }
{
    tuples.is_empty() || tuples[tuples.len() - 1].time <= time
}

/// Where a list that is full is divided: in half, or before its last element.
pub fn cut(len: usize, is_last: bool) -> usize
    requires { 2 ≤ len }
    ensures some { 0 < result }
    ensures within { result < len }
{
    if is_last { len - 1 } else { len / 2 }
}
