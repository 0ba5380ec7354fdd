//! What a tuple makes of the sessions near it.
ghost use Rattle.std.specs.Prelude.{◌≡◌, ◌≤◌, ◌<◌, ◌+◌, ◌-◌, ◌++◌, ◌∷◌, take, drop, filter, length, vec_len, vec_capacity, option_to_list};
ghost use Rattle.window_spans.specs.Spans.{IsRange, changes_of_joining, goes, joined_span, over_both, span_alone};

use crate::span::Span;

/// The session of a tuple and of the sessions near it.
pub fn joined(near: &[Span], gap: u64, time: u64) -> Span
    requires { time + gap ≤ u64.MAX }
    ensures { result ≡ joined_span gap time near.now }
{
    let mut so_far = span_alone(gap, time);
    for span in near {
        so_far = over_both(so_far, *span);
    }
    so_far
}

fn span_alone(gap: u64, time: u64) -> Span
    requires { time + gap ≤ u64.MAX }
    ensures { result ≡ span_alone gap time }
{
    Span {
        low: time,
        high: time + gap,
    }
}

fn over_both(first: Span, second: Span) -> Span
    ensures { result ≡ over_both first second }
{
    Span {
        low: first.low.min(second.low),
        high: first.high.max(second.high),
    }
}

/// Puts one session in the place of those from one place up to another.
pub fn replace(spans: &mut Vec<Span>, from: usize, to: usize, span: Span)
    requires places { IsRange from to (vec_len spans.old) }
    requires room { vec_len spans.old < vec_capacity spans.old }
    ensures items { spans.new.items ≡ take from spans.old.items ++ span ∷ drop to spans.old.items }
    ensures len { vec_len spans.new + (to - from) ≡ vec_len spans.old + 1 }
    ensures capacity { vec_capacity spans.new ≡ vec_capacity spans.old }
{
    if from == to {
        spans.insert(from, span).unwrap();
    } else {
        spans[from] = span;
        remove_between(spans, from + 1, to);
    }
}

// Removes the sessions from one place up to another.
pub fn remove_between(spans: &mut Vec<Span>, from: usize, to: usize)
    requires { IsRange from to (vec_len spans.old) }
    ensures items { spans.new.items ≡ take from spans.old.items ++ drop to spans.old.items }
    ensures len { vec_len spans.new + (to - from) ≡ vec_len spans.old }
    ensures capacity { vec_capacity spans.new ≡ vec_capacity spans.old }
{
    for _at in from..to {
        spans.remove(from);
    }
}

// Whether a session that stood stands no longer, where a tuple made this one.
pub fn goes(span: Span, joined: Span, water: u64) -> bool
    ensures { result ≡ goes water joined span }
{
    !(joined.high <= water && span.low == joined.low && span.high == joined.high)
}

/// How many changes there are where a tuple made a session and these had stood.
pub fn changes_of_joining(
    first: Option<Span>,
    second: Option<Span>,
    joined: Span,
    water: u64,
) -> u64
    ensures { result
        ≡ changes_of_joining water joined (option_to_list first ++ option_to_list second) }
{
    let come = if joined.high <= water { 1 } else { 0 };
    count_going(first, joined, water) + count_going(second, joined, water) + come
}

fn count_going(stood: Option<Span>, joined: Span, water: u64) -> u64
    ensures value { result ≡ length (filter (goes water joined) (option_to_list stood)) }
    ensures few { result ≤ 1 }
{
    match stood {
        Some(span) if goes(span, joined, water) => 1,
        _ => 0,
    }
}
