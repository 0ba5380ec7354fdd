//! Lists with one element more in its place.
ghost use Rattle.std.specs.Prelude.{◌≡◌, ◌≤◌, IfOk, length, nat_lt};
ghost use Rattle.std.specs.BTreeSet.{insert_key};
ghost use Rattle.std.specs.List.{position, position_or_len};
ghost use Rattle.std.specs.Ordering.{nat_cmp};
ghost use Rattle.stream_base.specs.Model.Journal.{put_in_order};

use std::alloc::Global;
use std::cmp::Ordering;
use stream_base::{Kept, NoMemory};

/// Tuples in event order with one more: before the first of a later time.
pub fn with_tuple(alloc: Global, kept: &[Kept], x: Kept) -> Result<Vec<Kept>, NoMemory>
    ensures { IfOk result (λ out. out.items ≡ put_in_order kept.now x) }
{
    let mut out = Vec::from_slice(alloc, kept)?;
    let place = place_of(kept, x.time);
    out.insert(place, x)?;
    Ok(out)
}

// How many tuples stand in front of the first of a later time.
fn place_of(kept: &[Kept], time: u64) -> usize
    ensures value { result ≡ position_or_len (λ y. nat_lt time y.time) kept.now }
    ensures within { result ≤ length kept.now }
{
    first_after(kept, time).unwrap_or(kept.len())
}

fn first_after(kept: &[Kept], time: u64) -> Option<usize>
    ensures { result ≡ position (λ y. nat_lt time y.time) kept.now }
{
    kept.iter().position(|y| time < y.time)
}

/// Rising marks with one more, unless it is there.
pub fn with_mark(alloc: Global, marks: &[u64], time: u64) -> Result<Vec<u64>, NoMemory>
    ensures { IfOk result (λ out. out.items ≡ insert_key nat_cmp marks.now time) }
{
    let mut out = Vec::from_slice(alloc, marks)?;
    for place in 0..marks.len() {
        match time.cmp(&marks[place]) {
            Ordering::Less => {
                out.insert(place, time)?;
                return Ok(out);
            }
            Ordering::Equal => return Ok(out),
            Ordering::Greater => {}
        }
    }
    out.push(time)?;
    Ok(out)
}
