//! How the intervals of a tumbling or sliding window lie.
ghost use Rattle.std.specs.Prelude.{◌≡◌, ◌≤◌, ◌+◌, ◌*◌, ◌/◌, true};
ghost use Rattle.stream_base.specs.declared.limits.TheConstants.{FINAL};
ghost use Rattle.stream_base.specs.Kinds.{IsKindWithin, is_timed, length_of, slide_of};
ghost use Rattle.window_laws.specs.Walk.{next_start};
ghost use Rattle.time_lanes.specs.Spans.{IsSpan, last_end};

use stream_base::Kind;

/// The length of each interval, and how far one starts behind the other.
#[derive(Clone, Copy)]
pub struct Span {
    pub length: u64,
    pub slide: u64,
    ghost within: { IsSpan length slide },
}

impl Span {
    /// The intervals of a tumbling or sliding window.
    pub fn of(kind: &Kind) -> Span
        requires timed { is_timed kind.now ≡ true }
        requires within { IsKindWithin kind.now }
        ensures length { result.length ≡ length_of kind.now }
        ensures slide { result.slide ≡ slide_of kind.now }
    {
        match *kind {
            Kind::Tumbling { length } => Span {
                length,
                slide: length,
            },
            Kind::Sliding { length, slide } => Span { length, slide },
            _ => unreachable!(),
        }
    }

    /// The start of the first interval that ends after a time.
    pub fn next_start(&self, time: u64) -> u64
        requires { time ≤ FINAL }
        ensures start { result ≡ next_start self.now.length self.now.slide time }
        ensures within { result ≤ time }
    {
        (time + self.slide).saturating_sub(self.length) / self.slide * self.slide
    }

    /// The end of the last interval that ends at or before a time, 0 where there is none.
    pub fn last_end(&self, time: u64) -> u64
        ensures end { result ≡ last_end self.now.length self.now.slide time }
        ensures within { result ≤ time }
    {
        if time < self.length {
            0
        } else {
            (time - self.length) / self.slide * self.slide + self.length
        }
    }

    /// The end of the last interval that holds a time.
    pub fn last_end_holding(&self, time: u64) -> u64
        requires { time ≤ FINAL }
        ensures end { result ≡ time / self.now.slide * self.now.slide + self.now.length }
        ensures within { result ≤ time + self.now.length }
    {
        time / self.slide * self.slide + self.length
    }
}
