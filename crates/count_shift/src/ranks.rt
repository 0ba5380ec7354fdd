//! Ranks of times among tuples in event order.
ghost use Rattle.std.specs.Prelude.{◌≡◌, ◌≤◌, ◌<◌, ◌*◌, length, slice_index_or, true, false};
ghost use Rattle.stream_base.specs.declared.kept.Kept.{Kept};
ghost use Rattle.stream_base.specs.Laws.{TimesDoNotFall};
ghost use Rattle.count_shift.specs.Counting.{IsCount, next_filled, upper, upper_after};

use stream_base::{FINAL, Kept};

// So many tuples at the end are searched by themselves: most searches lead there.
const NEAR: usize = 64;

// How many tuples have a time at or before this one: one look where all have, as in order, and else
// found by halves.
pub fn upper(items: &[Kept], time: u64) -> usize
    requires { TimesDoNotFall items.now }
    ensures value { result ≡ upper items.now time }
    ensures within { result ≤ length items.now }
{
    if are_by(items, time) {
        return items.len();
    }
    let far = items.len().saturating_sub(NEAR);
    let (before, near) = items.split_at(far);
    if starts_by(near, time) {
        far + upper_by_halves(near, time)
    } else {
        upper_by_halves(before, time)
    }
}

// Whether no tuple is of a later time, as the last one tells.
fn are_by(items: &[Kept], time: u64) -> bool
    requires { TimesDoNotFall items.now }
    ensures { result ≡ true → length items.now ≡ upper items.now time }
{
    items.is_empty() || items[items.len() - 1].time <= time
}

// Whether there is a first tuple, and it has a time at or before this one.
fn starts_by(items: &[Kept], time: u64) -> bool
    ensures yes { result ≡ true → (0 < length items.now)
        × ((d : Kept) → (slice_index_or items.now 0 d).time ≤ time) }
    ensures no { result ≡ false → 0 < length items.now
        → (d : Kept) → time < (slice_index_or items.now 0 d).time }
{
    match items.first() {
        Some(x) => x.time <= time,
        None => false,
    }
}

fn upper_by_halves(items: &[Kept], time: u64) -> usize
    requires { TimesDoNotFall items.now }
    ensures value { result ≡ upper items.now time }
    ensures within { result ≤ length items.now }
{
    items.partition_point(|x| x.time <= time)
}

// Whether more than half of the tuples may have a time at or before this one, as the middle one tells.
pub fn reaches_half(items: &[Kept], time: u64) -> bool
    requires { TimesDoNotFall items.now }
    ensures { result ≡ false → 2 * upper items.now time ≤ length items.now }
{
    match items.get(items.len() / 2) {
        Some(x) => x.time <= time,
        None => false,
    }
}

// How many have a time at or before the watermark when a tuple at a time has come, where so many have
// had before.
pub fn upper_after(items: &[Kept], reached: usize, time: u64, water: u64) -> u64
    requires reached { reached ≡ upper items.now water }
    requires within { reached ≤ length items.now }
    ensures { result ≡ upper_after items.now time water }
{
    let reached = reached.min(items.len()) as u64;
    if time <= water { reached + 1 } else { reached }
}

// The time of the tuple that fills the next instance behind those that a watermark fills, and the
// final time where there are too few.
pub fn next_filled(items: &[Kept], count: u64, water: u64) -> u64
    requires count { IsCount count }
    requires ordered { TimesDoNotFall items.now }
    ensures { result ≡ next_filled count items.now water }
{
    let stand = upper(items, water) as u64 / count * count;
    match items.get((stand + count - 1) as usize) {
        Some(x) => x.time,
        None => FINAL,
    }
}
