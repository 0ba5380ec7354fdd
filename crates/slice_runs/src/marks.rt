//! The marks of a key, rising.
ghost use Rattle.std.specs.Prelude.{◌≡◌, ◌≤◌, ◌<◌, ◌+◌, ◌*◌, ℕ, true, false, [], ◌==◌, ◌&&◌, nat_lt, nat_le, length, slice_index};
ghost use Rattle.std.specs.BTreeSet.{insert_key};
ghost use Rattle.std.specs.List.{list_any};
ghost use Rattle.std.specs.List.Sorted.{IsStrictlyIncreasing};
ghost use Rattle.std.specs.Ordering.{nat_cmp};
ghost use Rattle.stream_base.specs.Places.{IsPlaceOf};
ghost use Rattle.slice_lists.specs.Touched.{marks_left};
ghost use Rattle.slice_runs.specs.Marked.{Reserves};

use std::alloc::Global;
use std::marker::Model;
use stream_base::NoMemory;

/// The marks of a key, rising. Contracts see their times, and for how many more there is room.
#[derive(Drop)]
pub struct Marks {
    times: Vec<u64>,
}

impl Model for Marks {
    ghost use Rattle.std.specs.Prelude.{vec_len, vec_capacity, ◌-◌};
    ghost use Rattle.std.specs.List.Sorted.{IsStrictlyIncreasing};
    ghost use Rattle.slice_runs.specs.Marked.{Marked};

    ghost Value = { Marked };

    ghost view = { λ m. record {
      times = m.times.items;
      spare = vec_capacity m.times - vec_len m.times;
    } };

    ghost invariant = { λ m. IsStrictlyIncreasing m.times.items };
}

impl Marks {
    /// No mark.
    pub fn new(alloc: Global) -> Marks
        ensures { result.times ≡ [] }
    {
        Marks {
            times: Vec::new(alloc),
        }
    }

    /// Makes room for one mark more.
    pub fn reserve(&mut self) -> Result<(), NoMemory>
        ensures { Reserves result self.old self.new }
    {
        self.times.reserve(1)?;
        Ok(())
    }

    /// Adds a mark, unless it is there.
    pub fn add(&mut self, time: u64)
        requires { 1 ≤ self.old.spare }
        ensures added { self.new.times ≡ insert_key nat_cmp self.old.times time }
        ensures rising { IsStrictlyIncreasing self.new.times }
        ensures spare { self.old.spare ≤ self.new.spare + 1 }
    {
        let place = self.before(time);
        if !is_marked(&self.times, place, time) {
            self.times.insert(place, time).unwrap();
        }
    }

    /// Whether a mark lies after the first time and at or before the second.
    pub fn has_between(&self, low: u64, high: u64) -> bool
        ensures { result ≡ list_any (λ m. nat_lt low m && nat_le m high) self.now.times }
    {
        let place = self.up_to(low);
        place < self.times.len() && self.times[place] <= high
    }

    /// Leaves the marks behind a time, and of those up to it the greatest.
    pub fn keep_last(&mut self, time: u64)
        ensures left { self.new.times ≡ marks_left time self.old.times }
        ensures rising { IsStrictlyIncreasing self.new.times }
        ensures cuts { (a b : ℕ) → time ≤ a
            → list_any (λ m. nat_lt a m && nat_le m b) self.new.times
            ≡ list_any (λ m. nat_lt a m && nat_le m b) self.old.times }
        ensures spare { self.old.spare ≤ self.new.spare }
    {
        let count = self.up_to(time);
        if count > 0 {
            let last = self.times[count - 1];
            self.times.retain(|mark| last <= *mark);
        }
    }

    /// Whether `keep_last` takes away more marks than it leaves. Who asks this first has at most twice
    /// the marks that are left, and moves them up no more often than marks leave.
    pub fn are_mostly_needless(&self, time: u64) -> bool
        ensures few { result ≡ false
            → length self.now.times ≤ 2 * length (marks_left time self.now.times) }
        ensures many { result ≡ true
            → 2 * length (marks_left time self.now.times) < length self.now.times }
    {
        let needless = self.up_to(time).saturating_sub(1);
        self.times.len() - needless < needless
    }

    // How many marks lie before a time.
    fn before(&self, time: u64) -> usize
        ensures { IsPlaceOf (λ m. m) self.now.times time result }
    {
        self.times.partition_point(|mark| *mark < time)
    }

    // How many marks lie at or before a time.
    fn up_to(&self, time: u64) -> usize
        ensures { IsPlaceOf (λ m. m) self.now.times (time + 1) result }
    {
        self.times.partition_point(|mark| *mark <= time)
    }
}

fn is_marked(marks: &[u64], place: usize, time: u64) -> bool
    ensures { result ≡ (nat_lt place (length marks.now) && (slice_index marks.now place == time)) }
{
    place < marks.len() && marks[place] == time
}
