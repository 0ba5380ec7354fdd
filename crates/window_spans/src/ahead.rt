//! The first span that ends after a time, and the last that starts by one.
ghost use Rattle.std.specs.Prelude.{◌≡◌, ℕ, nat_le};
ghost use Rattle.window_spans.specs.Ahead.{end_after, end_of_last_begun, first_after, start_after};
ghost use Rattle.window_spans.specs.Spans.{AreApart, EndInTurn, IsPlaceOf};

use crate::searching::{begun_by, ended_by};
use crate::span::Span;

/// When the first span ends that ends after a time, and the greatest number where there is none.
pub fn end_after(spans: &[Span], time: u64) -> u64
    requires { EndInTurn spans.now }
    ensures { result ≡ end_after time spans.now }
{
    match first_after(spans, time, ended_by(spans, time)) {
        Some(span) => span.high,
        None => u64::MAX,
    }
}

/// When the first span starts that ends after a time, and the greatest number where there is none.
pub fn start_after(spans: &[Span], time: u64) -> u64
    requires { EndInTurn spans.now }
    ensures { result ≡ start_after time spans.now }
{
    match first_after(spans, time, ended_by(spans, time)) {
        Some(span) => span.low,
        None => u64::MAX,
    }
}

// The span behind those that end by a time.
fn first_after(spans: &[Span], time: u64, place: usize) -> Option<Span>
    requires { IsPlaceOf (λ s. nat_le s.high time) spans.now place }
    ensures { result ≡ first_after time spans.now }
{
    if place < spans.len() {
        Some(spans[place])
    } else {
        None
    }
}

/// When the last span ends that starts at or before a time, and 0 where there is none.
pub fn end_of_last_begun(spans: &[Span], time: u64) -> u64
    requires { AreApart spans.now }
    ensures { result ≡ end_of_last_begun time spans.now }
{
    let place = begun_by(spans, time);
    if place > 0 { spans[place - 1].high } else { 0 }
}
