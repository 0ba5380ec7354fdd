//! A key's lists with one tuple or mark more.
ghost use Rattle.std.specs.Prelude.{◌≡◌, ◌<◌, ◌+◌, ◌==◌, ◌&&◌, OnOk, nat_lt, length, slice_index, vec_len, vec_capacity};
ghost use Rattle.std.specs.BTreeSet.{insert_key};
ghost use Rattle.std.specs.Ordering.{nat_cmp};
ghost use Rattle.stream_base.specs.Model.Journal.{put_in_order};
ghost use Rattle.stream_base.specs.Places.{IsPlaceOf};
ghost use Rattle.plain_keys.specs.States.{HasPlace, MayMark, stand_in};

use plain_windows::{marks_before, tuples_before};
use stream_base::{Kept, NoMemory};

/// The place of a tuple at a time in event order: before the first tuple of a later time. A tuple
/// that comes in order takes one look at the last one.
pub fn place_of(kept: &[Kept], time: u64) -> usize
    requires { HasPlace kept.now time }
    ensures { IsPlaceOf (λ y. y.time) kept.now (time + 1) result }
{
    if kept.is_empty() {
        return 0;
    }
    if kept[kept.len() - 1].time <= time {
        return kept.len();
    }
    tuples_before(kept, time + 1)
}

/// Makes a list that of the kept tuples with one more in its place.
pub fn draw_put(kept: &[Kept], x: Kept, out: &mut Vec<Kept>) -> Result<(), NoMemory>
    requires { HasPlace kept.now x.time }
    ensures { OnOk result (out.new.items ≡ put_in_order kept.now x) }
{
    out.clear();
    out.extend_from_slice(kept)?;
    out.insert(place_of(kept, x.time), x)?;
    Ok(())
}

/// Puts a tuple in its place, where there is room for one.
pub fn put_in(kept: &mut Vec<Kept>, x: Kept)
    requires place { HasPlace kept.old.items x.time }
    requires room { vec_len kept.old < vec_capacity kept.old }
    ensures { kept.new.items ≡ put_in_order kept.old.items x }
{
    let place = place_of(kept, x.time);
    if place == kept.len() {
        kept.push_reserved(x);
    } else {
        kept.insert(place, x).unwrap();
    }
}

/// Puts a tuple in the place of its stand-in.
pub fn fill_in(kept: &[Kept], x: Kept, drawn: &mut Vec<Kept>)
    requires place { HasPlace kept.now x.time }
    requires stands_in { drawn.old.items ≡ put_in_order kept.now (stand_in x.time) }
    ensures { drawn.new.items ≡ put_in_order kept.now x }
{
    let place = place_of(kept, x.time);
    drawn[place] = x;
}

/// Makes a list that of the marks with one more among them.
pub fn draw_mark(marks: &[u64], time: u64, out: &mut Vec<u64>) -> Result<(), NoMemory>
    requires { MayMark marks.now time }
    ensures { OnOk result (out.new.items ≡ insert_key nat_cmp marks.now time) }
{
    out.clear();
    out.extend_from_slice(marks)?;
    out.reserve(1)?;
    add_mark(out, time);
    Ok(())
}

/// Adds a mark among rising ones, unless it is there.
pub fn add_mark(marks: &mut Vec<u64>, time: u64)
    requires mark { MayMark marks.old.items time }
    requires room { vec_len marks.old < vec_capacity marks.old }
    ensures { marks.new.items ≡ insert_key nat_cmp marks.old.items time }
{
    let place = marks_before(marks, time);
    if !is_marked(marks, place, time) {
        marks.insert(place, time).unwrap();
    }
}

fn is_marked(marks: &[u64], place: usize, time: u64) -> bool
    ensures { result ≡ (nat_lt place (length marks.now) && (slice_index marks.now place == time)) }
{
    place < marks.len() && marks[place] == time
}
