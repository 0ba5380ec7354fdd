//! Which sessions lie near a time.
ghost use Rattle.std.specs.Prelude.{◌≡◌, ◌≤◌, ◌+◌, ◌-◌, ◌++◌, length, take, drop, filter, nat_le, nat_lt, option_to_list};
ghost use Rattle.window_spans.specs.Parted.{first_or, head_before};
ghost use Rattle.window_spans.specs.Spans.{AreApart, AreNearAt, EndInTurn, IsPlaceOf, IsRange, StartInTurn, due_of, head_standing, stands};

use crate::span::Span;

/// The sessions from one place up to another.
#[derive(Clone, Copy)]
pub struct Places {
    pub from: usize,
    pub to: usize,
}

/// Where the sessions lie that are less than the gap away from a time.
pub fn near(spans: &[Span], gap: u64, time: u64) -> Places
    requires apart { AreApart spans.now }
    requires gap { 1 ≤ gap }
    requires room { time + gap ≤ u64.MAX }
    ensures places { AreNearAt gap time spans.now (result.from) (result.to) }
{
    let from = ended_by(spans, time);
    let to = begun_before(spans, time + gap);
    Places { from, to }
}

/// Where the sessions lie that end after one watermark and at or before another.
pub fn due(spans: &[Span], old: u64, new: u64) -> Places
    requires apart { AreApart spans.now }
    ensures order { result.from ≤ result.to }
    ensures within { result.to ≤ length spans.now }
    ensures due { due_of old new spans.now
        ≡ take (result.to - result.from) (drop result.from spans.now) }
{
    let from = ended_by(spans, old);
    let to = ended_by(spans, new);
    Places {
        from,
        to: to.max(from),
    }
}

// How many sessions end at or before a time.
pub fn ended_by(spans: &[Span], time: u64) -> usize
    requires { EndInTurn spans.now }
    ensures { IsPlaceOf (λ s. nat_le s.high time) spans.now result }
{
    spans.partition_point(|s| s.high <= time)
}

// How many sessions begin before a time.
fn begun_before(spans: &[Span], time: u64) -> usize
    requires { StartInTurn spans.now }
    ensures { IsPlaceOf (λ s. nat_lt s.low time) spans.now result }
{
    spans.partition_point(|s| s.low < time)
}

// How many sessions begin at or before a time.
pub fn begun_by(spans: &[Span], time: u64) -> usize
    requires { StartInTurn spans.now }
    ensures { IsPlaceOf (λ s. nat_le s.low time) spans.now result }
{
    spans.partition_point(|s| s.low <= time)
}

/// The first two of some sessions, as far as they stand.
pub fn first_standing(near: &[Span], water: u64) -> (Option<Span>, Option<Span>)
    requires { AreApart near.now }
    ensures { option_to_list result.0 ++ option_to_list result.1
        ≡ take 2 (filter (stands water) near.now) }
{
    (standing_at(near, 0, water), standing_at(near, 1, water))
}

// The session at a place, if there is one and it stands.
fn standing_at(near: &[Span], at: usize, water: u64) -> Option<Span>
    ensures { result ≡ head_standing water (drop at near.now) }
{
    if at < near.len() && near[at].high <= water {
        Some(near[at])
    } else {
        None
    }
}

/// The sessions from one place up to another.
pub fn between(spans: &[Span], places: Places) -> &[Span]
    requires { IsRange places.from places.to (length spans.now) }
    ensures { result.now ≡ take (places.to - places.from) (drop places.from spans.now) }
{
    &spans[places.from..places.to]
}

/// The interval from one place up to another, if there is one, or else another one.
pub fn first_or(spans: &[Span], places: Places, other: Span) -> Span
    requires within { places.to ≤ length spans.now }
    ensures { result
        ≡ first_or other (take (places.to - places.from) (drop places.from spans.now)) }
{
    if places.from < places.to {
        spans[places.from]
    } else {
        other
    }
}

/// The interval from one place up to another, if there is one and it stands.
pub fn first_asked(spans: &[Span], places: Places, water: u64) -> Option<Span>
    requires within { places.to ≤ length spans.now }
    ensures { result ≡ head_standing water
        (take (places.to - places.from) (drop places.from spans.now)) }
{
    if places.from < places.to && spans[places.from].high <= water {
        Some(spans[places.from])
    } else {
        None
    }
}

/// The interval from one place up to another, if there is one and it starts before a time.
pub fn first_before(spans: &[Span], places: Places, time: u64) -> Option<Span>
    requires within { places.to ≤ length spans.now }
    ensures { result ≡ head_before time
        (take (places.to - places.from) (drop places.from spans.now)) }
{
    if places.from < places.to && spans[places.from].low < time {
        Some(spans[places.from])
    } else {
        None
    }
}
