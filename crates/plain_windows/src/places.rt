//! Places in lists that are sorted by time, found by halves.
ghost use Rattle.std.specs.List.Sorted.{IsStrictlyIncreasing};
ghost use Rattle.stream_base.specs.Laws.{TimesDoNotFall};
ghost use Rattle.stream_base.specs.Places.{IsPlaceOf};

use stream_base::Kept;

/// How many tuples lie before a time. Most searches are for times near the newest tuple, so this one
/// starts at the end: a search by halves in the part that steps back, each twice as far, have found.
pub fn tuples_before(kept: &[Kept], time: u64) -> usize
    requires { TimesDoNotFall kept.now }
    ensures { IsPlaceOf (λ x. x.time) kept.now time result }
{
    let mut start = kept.len().saturating_sub(8);
    while start > 0 && time <= kept[start].time {
        start = start.saturating_sub(kept.len() - start);
    }
    let (_before, near) = kept.split_at(start);
    start + near.partition_point(|x| x.time < time)
}

/// How many marks lie before a time.
pub fn marks_before(marks: &[u64], time: u64) -> usize
    requires { IsStrictlyIncreasing marks.now }
    ensures { IsPlaceOf (λ m. m) marks.now time result }
{
    marks.partition_point(|mark| *mark < time)
}
