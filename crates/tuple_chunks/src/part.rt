ghost use Rattle.std.specs.Prelude.{◌≡◌, ◌≤◌, ◌<◌, ◌+◌, ◌-◌, ℕ, List, length, filter, nat_le, true};
ghost use Rattle.stream_base.specs.declared.kept.Kept.{Kept};
ghost use Rattle.stream_base.specs.Model.Journal.{put_in_order};
ghost use Rattle.stream_base.specs.Model.Windows.{first_time, last_time, within};
ghost use Rattle.tuple_chunks.specs.Parts.{IsSettled};
ghost use Rattle.tuple_chunks.specs.Sums.{IsSum, shown_of};

use agg_laws::Steps;
use aggregates::Bundle;
use slice_lists::Slice;
use stream_base::{Kept, NoMemory};

/// Some tuples of a key, one behind another, as a part of a row of them.
pub trait Part: Drop {
    // The tuples, and for how many more there is room.
    ghost tuples: { Self → List Kept };

    ghost spare: { Self → ℕ };

    /// How many tuples there are.
    fn number(&self) -> usize
        ensures { result ≡ length (tuples self.now) };

    /// The time of the first tuple.
    fn first_time(&self) -> u64
        ensures { result ≡ first_time (tuples self.now) };

    /// The time of the last tuple.
    fn last_time(&self) -> u64
        ensures { result ≡ last_time (tuples self.now) };

    /// Whether there is room for one tuple more, as far as one look tells.
    fn has_room(&self) -> bool
        ensures { result ≡ true → 1 ≤ spare self.now };

    /// Makes room for one tuple more. A part that is full keeps its first tuples and gives the others
    /// as a part of their own: half of them, or only the last where it is the last part, behind which
    /// tuples in order come.
    fn settle(&mut self, is_last: bool) -> Result<Option<Self>, NoMemory>
        requires { 0 < length (tuples self.old) }
        ensures { IsSettled tuples spare result self.old self.new };

    /// Puts a tuple in its place.
    fn put(&mut self, x: Kept)
        requires room { 1 ≤ spare self.old }
        requires some { 0 < length (tuples self.old) }
        ensures { tuples self.new ≡ put_in_order (tuples self.old) x };

    /// Drops the tuples before a time, which aren't all.
    fn drop_before(&mut self, time: u64)
        requires some { 0 < length (tuples self.old) }
        requires stays { time ≤ last_time (tuples self.old) }
        ensures tuples { tuples self.new ≡ filter (λ x. nat_le time x.time) (tuples self.old) }
        ensures spare { spare self.old ≤ spare self.new };

    /// What the tuples of a range of times come to, if there are any.
    fn fold<L>(&mut self, low: u64, high: u64, steps: &mut Steps<L>) -> Option<Bundle>
        ensures sum { IsSum result (within low high (tuples self.old)) }
        ensures kept { self.new ≡ self.old }
        ensures cost { steps.new ≤ steps.old + (length (within low high (tuples self.old)) - 1) };

    /// How the tuples of a range of times show, if there are any.
    fn shown(&self, low: u64, high: u64) -> Option<Slice>
        ensures { result ≡ shown_of (within low high (tuples self.now)) };
}
