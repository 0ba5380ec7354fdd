//! What a mark makes of an interval that has a tuple.
ghost use Rattle.std.specs.Prelude.{◌≡◌, ◌≤◌, ◌<◌, ◌+◌, ◌++◌, length, take, drop, nat_lt, option_to_list, vec_len, vec_capacity};
ghost use Rattle.stream_base.specs.Model.Windows.{within};
ghost use Rattle.slice_lists.specs.Runs.{IsAligned};
ghost use Rattle.agg_store.specs.Stored.{tuples_of};
ghost use Rattle.window_spans.specs.Parted.{back_of, front_of, part_if};

use crate::joining::{remove_between, replace};
use crate::span::Span;
use agg_store::AggStore;
use aggregates::Partial;

/// The first part of an interval, where a mark comes.
pub fn front_of(span: Span, time: u64) -> Span
    ensures { result ≡ front_of time span }
{
    Span {
        low: span.low,
        high: time,
    }
}

/// The second part of an interval, where a mark comes.
pub fn back_of(span: Span, time: u64) -> Span
    ensures { result ≡ back_of time span }
{
    Span {
        low: time,
        high: span.high,
    }
}

/// Whether a tuple lies within a span. No slice is folded for it.
pub fn is_filled<M: Partial, S: AggStore<M>>(store: &S, span: Span) -> bool
    requires { IsAligned (S.stored store.now).slices span.low }
    ensures { result ≡ nat_lt 0
        (length (within span.low span.high (tuples_of (S.stored store.now)))) }
{
    match store.slice_from(span.low) {
        Some(slice) => slice.low < span.high,
        None => false,
    }
}

/// A part of an interval, if it has a tuple and isn't forgotten.
pub fn part_if(filled: bool, forgotten: u64, span: Span) -> Option<Span>
    ensures { result ≡ part_if filled forgotten span }
{
    if filled && forgotten < span.high {
        Some(span)
    } else {
        None
    }
}

/// Puts parts in the place of the interval from one place up to another.
pub fn part(spans: &mut Vec<Span>, from: usize, to: usize, front: Option<Span>, back: Option<Span>)
    requires order { from < to }
    requires within { to ≤ vec_len spans.old }
    requires room { vec_len spans.old < vec_capacity spans.old }
    ensures items { spans.new.items ≡ take from spans.old.items
        ++ ((option_to_list front ++ option_to_list back) ++ drop to spans.old.items) }
    ensures len { vec_len spans.new ≤ vec_len spans.old + 1 }
    ensures capacity { vec_capacity spans.new ≡ vec_capacity spans.old }
{
    match (front, back) {
        (Some(front), Some(back)) => {
            replace(spans, from, to, front);
            spans.insert(from + 1, back).unwrap();
        }
        (Some(front), None) => replace(spans, from, to, front),
        (None, Some(back)) => replace(spans, from, to, back),
        (None, None) => remove_between(spans, from, to),
    }
}
