ghost use Rattle.std.specs.Prelude.{◌≡◌, ◌≤◌};
ghost use Rattle.stream_base.specs.Kinds.{IsKindWithin, cuts_between, has_bound, is_kind_within};

use crate::limits::{JOURNAL_MAX, LENGTH_RATIO_MAX, TIME_MAX};

/// A kind of window: which instances it has. Lengths, slides and gaps are in the sources' unit of
/// time, and spans are half open.
#[derive(Clone, Copy, Debug, PartialEq, Eq)]
pub enum Kind {
    /// Spans of one length, end to end, the first from 0.
    Tumbling { length: u64 },
    /// Spans of one length that start at each multiple of the slide.
    Sliding { length: u64, slide: u64 },
    /// Runs of tuples whose neighbours lie less than the gap apart.
    Session { gap: u64 },
    /// Spans between successive marks of the key.
    Marks,
    /// Runs of so many tuples, in event order.
    Events { count: u64 },
}

impl Kind {
    /// Whether its numbers are within their limits: lengths and gaps from 1 to the greatest time, a
    /// slide from 1 to the length with at most 1,000 slides in it, and a count from 1 to the most
    /// entries of a journal.
    pub fn is_within_limits(&self) -> bool
        ensures { result ≡ is_kind_within self.now }
    {
        match *self {
            Kind::Tumbling { length } => 1 <= length && length <= TIME_MAX,
            Kind::Sliding { length, slide } => {
                1 <= length
                    && length <= TIME_MAX
                    && 1 <= slide
                    && slide <= length
                    && length <= LENGTH_RATIO_MAX * slide
            }
            Kind::Session { gap } => 1 <= gap && gap <= TIME_MAX,
            Kind::Marks => true,
            Kind::Events { count } => 1 <= count && count <= JOURNAL_MAX,
        }
    }

    /// Whether it cuts between two times: a tumbling or sliding window starts or ends after `low` and at
    /// or before `high`, or they are at least the gap apart. No interval is walked: how far the last
    /// start or end lies before `high` is the remainder of a division.
    pub fn cuts_between(&self, low: u64, high: u64) -> bool
        requires kind { IsKindWithin self.now }
        requires ordered { low ≤ high }
        ensures { result ≡ cuts_between self.now low high }
    {
        match *self {
            Kind::Tumbling { length } => has_bound(0, length, low, high),
            Kind::Sliding { length, slide } => {
                has_bound(0, slide, low, high) || has_bound(length, slide, low, high)
            }
            Kind::Session { gap } => gap <= high - low,
            Kind::Marks | Kind::Events { .. } => false,
        }
    }
}

// The last bound at or before `high` lies as far before it as the remainder says.
fn has_bound(offset: u64, slide: u64, low: u64, high: u64) -> bool
    requires slide { 1 ≤ slide }
    requires ordered { low ≤ high }
    ensures { result ≡ has_bound offset slide low high }
{
    if high < offset {
        return false;
    }
    low < offset || (high - offset) % slide < high - low
}
