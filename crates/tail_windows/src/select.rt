//! What a period's end selects of a key's samples, and the row of it.
ghost use Rattle.std.specs.List.{Contains};
ghost use Rattle.std.specs.Prelude.{◌≡◌, ◌≤◌, ◌+◌, IsTrue, false, length, map};
ghost use Rattle.stream_base.specs.declared.limits.TheConstants.{TIME_MAX};
ghost use Rattle.stream_base.specs.Model.Functions.{shown_of};
ghost use Rattle.aggregates.specs.Bundled.{bundle_of, bundle_of_number, bundles_combined};
ghost use Rattle.tail_windows.specs.Samples.{IsPlaceOf, IsTimeline, ends_in, row_of_last};
ghost use Rattle.tail_windows.specs.Tails.{end_of};
ghost use Rattle.tail_windows.specs.Walks.{IsTailDef, StoodBefore};

use crate::def::TailDef;
use crate::row::TailRow;
use crate::sample::Sample;
use crate::stood::Stood;
use agg_laws::{Lift, Monoid, Steps};
use aggregates::{Bundle, Partial};
use stream_base::{Func, KeyText, Shown};

/// The end of the period that holds a time.
pub fn end_of(def: &TailDef, time: u64) -> u64
    requires def { IsTailDef def.now }
    requires time { time ≤ TIME_MAX }
    ensures { result ≡ end_of def.now.period time }
{
    (time / def.period + 1) * def.period
}

/// How many samples lie before a time. Where all do, one look at the last one tells.
pub fn samples_before(samples: &[Sample], time: u64) -> usize
    requires { IsTimeline samples.now }
    ensures { IsPlaceOf samples.now time result }
{
    let all = samples.len();
    if all == 0 || samples[all - 1].time < time {
        return all;
    }
    searched_before(samples, time)
}

fn searched_before(samples: &[Sample], time: u64) -> usize
    requires { IsTimeline samples.now }
    ensures { IsPlaceOf samples.now time result }
{
    samples.partition_point(|s| s.time < time)
}

/// The row that these samples show at a period's end: the last ones are selected, with a step for
/// each, so at most as many as the definition's count.
pub fn row_of_last<L>(
    def: &TailDef,
    key: &KeyText,
    at: u64,
    before: &[Sample],
    steps: &mut Steps<L>,
) -> TailRow
    ensures row { result ≡ row_of_last def.now key.now at before.now }
    ensures work { steps.new ≤ steps.old + def.now.count }
{
    let chosen = &before[before.len().saturating_sub(def.count as usize)..];
    TailRow {
        key: *key,
        at,
        number: chosen.len() as u64,
        shown: shown_of(def.func, chosen, steps),
    }
}

// What a function shows of samples.
fn shown_of<L>(func: Func, samples: &[Sample], steps: &mut Steps<L>) -> Shown
    ensures shown { result ≡ shown_of func (map (λ s. s.value) samples.now) }
    ensures work { steps.new ≤ steps.old + length samples.now }
{
    folded(samples, steps).show(func)
}

// What the nine functions make of samples, one after another.
fn folded<L>(samples: &[Sample], steps: &mut Steps<L>) -> Bundle
    ensures bundle { result ≡ bundle_of (map (λ s. s.value) samples.now) }
    ensures work { steps.new ≤ steps.old + length samples.now }
{
    let mut bundle = Bundle::unit();
    for s in samples {
        bundle = with_sample(&bundle, s, steps);
    }
    bundle
}

fn with_sample<L>(bundle: &Bundle, s: &Sample, steps: &mut Steps<L>) -> Bundle
    ensures value { result ≡ bundles_combined bundle.now (bundle_of_number (s.now).value) }
    ensures work { steps.new ≤ steps.old + 1 }
{
    bundle.combine(&Bundle::lift(s.value), steps)
}

/// Whether a period ends there that holds a sample.
pub fn has_end(def: &TailDef, samples: &[Sample], at: u64) -> bool
    requires def { IsTailDef def.now }
    requires samples { IsTimeline samples.now }
    ensures found { IsTrue result → Contains (ends_in def.now.period samples.now) at }
    ensures missed { result ≡ false → ¬ Contains (ends_in def.now.period samples.now) at }
{
    let before = samples_before(samples, at);
    before > 0 && end_of(def, samples[before - 1].time) == at
}

/// Of which periods a row can have stood before a tuple comes at a time, as far as they hold a
/// sample after that.
pub fn stood_before(def: &TailDef, samples: &[Sample], time: u64) -> Stood
    requires def { IsTailDef def.now }
    requires samples { IsTimeline samples.now }
    requires time { time ≤ TIME_MAX }
    ensures { StoodBefore (ends_in def.now.period samples.now) (end_of def.now.period time) result }
{
    let at = end_of(def, time);
    if has_end(def, samples, at) {
        Stood::Each
    } else {
        Stood::AllBut { at }
    }
}
