//! Where intervals between marks start and end.
ghost use Rattle.std.specs.Prelude.{◌≡◌, ◌≤◌, ◌<◌, ◌+◌, ◌*◌, true, false, ◌==◌, ◌&&◌, length, slice_index, vec_len, vec_capacity, nat_lt};
ghost use Rattle.std.specs.BTreeSet.{insert_key};
ghost use Rattle.std.specs.List.Sorted.{IsNonDecreasing, IsStrictlyIncreasing};
ghost use Rattle.std.specs.Ordering.{nat_cmp};
ghost use Rattle.stream_base.specs.Places.{IsPlaceOf};
ghost use Rattle.window_laws.specs.Stretches.{last_mark, next_mark};
ghost use Rattle.slice_lists.specs.Touched.{marks_left};
ghost use Rattle.window_spans.specs.Parted.{AreMarks, holder_of};

use crate::span::Span;
use stream_base::FINAL;

/// The interval between the marks at the sides of a time.
pub fn holder(marks: &[u64], time: u64) -> Span
    requires marks { AreMarks marks.now }
    requires time { time < u64.MAX }
    ensures { result ≡ holder_of marks.now time }
{
    let place = marks_before(marks, time + 1);
    Span {
        low: mark_before(marks, place, time),
        high: mark_behind(marks, place, time),
    }
}

// The last of so many marks that lie at or before a time.
fn mark_before(marks: &[u64], place: usize, time: u64) -> u64
    requires marks { AreMarks marks.now }
    requires place { IsPlaceOf (λ m. m) marks.now (time + 1) place }
    ensures { result ≡ last_mark marks.now time }
{
    if place == 0 { 0 } else { marks[place - 1] }
}

// The first mark behind those.
fn mark_behind(marks: &[u64], place: usize, time: u64) -> u64
    requires marks { AreMarks marks.now }
    requires place { IsPlaceOf (λ m. m) marks.now (time + 1) place }
    ensures { result ≡ next_mark marks.now time }
{
    if place < marks.len() {
        marks[place]
    } else {
        FINAL
    }
}

/// Adds a mark among marks in order, unless it is there.
pub fn add_mark(marks: &mut Vec<u64>, time: u64)
    requires in_order { IsNonDecreasing marks.old.items }
    requires room { vec_len marks.old < vec_capacity marks.old }
    ensures added { marks.new.items ≡ insert_key nat_cmp marks.old.items time }
    ensures capacity { vec_capacity marks.new ≡ vec_capacity marks.old }
    ensures number { vec_len marks.new ≤ vec_len marks.old + 1 }
{
    let place = marks_before(marks, time);
    if !is_marked(marks, place, time) {
        marks.insert(place, time).unwrap();
    }
}

/// Leaves the marks behind a time, and of those up to it the greatest.
pub fn leave_marks(marks: &mut Vec<u64>, time: u64)
    requires rising { IsStrictlyIncreasing marks.old.items }
    ensures left { marks.new.items ≡ marks_left time marks.old.items }
    ensures capacity { vec_capacity marks.new ≡ vec_capacity marks.old }
    ensures number { vec_len marks.new ≤ vec_len marks.old }
{
    let count = marks_up_to(marks, time);
    if count > 0 {
        let last = marks[count - 1];
        marks.retain(|mark| last <= *mark);
    }
}

/// Whether `leave_marks` takes away more marks than it leaves.
pub fn are_mostly_needless(marks: &[u64], time: u64) -> bool
    requires rising { IsStrictlyIncreasing marks.now }
    ensures few { result ≡ false
        → length marks.now ≤ 2 * length (marks_left time marks.now) }
    ensures many { result ≡ true
        → 2 * length (marks_left time marks.now) < length marks.now }
{
    let needless = marks_up_to(marks, time).saturating_sub(1);
    marks.len() - needless < needless
}

fn is_marked(marks: &[u64], place: usize, time: u64) -> bool
    ensures { result ≡ (nat_lt place (length marks.now) && (slice_index marks.now place == time)) }
{
    place < marks.len() && marks[place] == time
}

// How many marks lie before a time.
fn marks_before(marks: &[u64], time: u64) -> usize
    requires { IsNonDecreasing marks.now }
    ensures { IsPlaceOf (λ m. m) marks.now time result }
{
    marks.partition_point(|mark| *mark < time)
}

// How many marks lie at or before a time.
fn marks_up_to(marks: &[u64], time: u64) -> usize
    requires { IsNonDecreasing marks.now }
    ensures { IsPlaceOf (λ m. m) marks.now (time + 1) result }
{
    marks.partition_point(|mark| *mark <= time)
}
