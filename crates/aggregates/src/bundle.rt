ghost use Rattle.std.specs.Prelude.{◌≡◌, ℤ, List, [], ◌∷◌, ◌++◌, All, FitsSigned, unwrap_or, pos, false};
ghost use Rattle.std.specs.Int.{w64};
ghost use Rattle.stream_base.specs.Model.Functions.{show_value};
ghost use Rattle.agg_laws.specs.Counters.{next_count};
ghost use Rattle.aggregates.specs.Bundled.{IsBundle, empty_bundle, bundle_of, bundle_of_number, bundles_combined};
ghost use Rattle.aggregates.specs.BundleLaws.{bundle_laws, bundle_lifts, total_of_bundles};
ghost use Rattle.aggregates.specs.Order.{IsAny};
ghost use Rattle.std.proofs.lemmas.Bool.{false≢true};

use crate::count::Count;
use crate::first::First;
use crate::last::Last;
use crate::max::Max;
use crate::mean::Mean;
use crate::min::Min;
use crate::partial::Partial;
use crate::rises::Rises;
use crate::sum::Sum;
use crate::trace::Trace;
use agg_laws::{Lift, Monoid, Steps};
use std::marker::Model;
use stream_base::{Func, Shown};

/// All nine functions of the same values at once. To combine two bundles is one step. Contracts
/// see what each function keeps.
#[derive(Clone, Copy, Debug)]
pub struct Bundle {
    pub(crate) count: Count,
    pub(crate) summed: Sum,
    pub(crate) lowest: Min,
    pub(crate) highest: Max,
    mean: Mean,
    first: First,
    last: Last,
    rises: Rises,
    trace: Trace,
}

impl Model for Bundle {
    ghost use Rattle.aggregates.specs.Bundled.{Bundled};

    ghost Value = { Bundled };

    ghost view = { λ b. record {
      count = b.count.count;
      summed = b.summed.sum;
      lowest = b.lowest.least;
      highest = b.highest.most;
      mean = (b.mean.sum, b.mean.count);
      first = b.first.value;
      last = b.last.value;
      rises = b.rises.run;
      trace = (b.trace.a, b.trace.b);
    } };

    ghost inverse = { λ v. record {
      count = record { count = v.count };
      summed = record { sum = v.summed };
      lowest = record { least = v.lowest };
      highest = record { most = v.highest };
      mean = record { sum = v.mean.0; count = v.mean.1 };
      first = record { value = v.first };
      last = record { value = v.last };
      rises = record { run = v.rises };
      trace = record { a = v.trace.0; b = v.trace.1 };
    } };
}

impl Monoid for Bundle {
    ghost is_value = { IsBundle };

    ghost empty = { empty_bundle };

    ghost op = { bundles_combined };

    ghost laws = { bundle_laws };

    fn unit() -> Bundle {
        Bundle {
            count: Count::unit(),
            summed: Sum::unit(),
            lowest: Min::unit(),
            highest: Max::unit(),
            mean: Mean::unit(),
            first: First::unit(),
            last: Last::unit(),
            rises: Rises::unit(),
            trace: Trace::unit(),
        }
    }

    fn vouch(&self) {
        self.count.vouch();
        self.summed.vouch();
        self.lowest.vouch();
        self.highest.vouch();
        self.mean.vouch();
        self.first.vouch();
        self.last.vouch();
        self.rises.vouch();
        self.trace.vouch();
    }

    #[inline(always)]
    fn combine<L>(&self, right: &Bundle, steps: &mut Steps<L>) -> Bundle
        ensures value { result ≡ bundles_combined self.now right.now }
        ensures counted { steps.new ≡ next_count steps.old }

        // The bundles of two lists of values combine to the bundle of both lists together.
        ensures joined { (xs ys : List ℤ) → All (FitsSigned w64) xs → All (FitsSigned w64) ys
            → self.now ≡ bundle_of xs → right.now ≡ bundle_of ys → result ≡ bundle_of (xs ++ ys) }
    {
        steps.tick();
        Bundle {
            count: self.count.with(right.count),
            summed: self.summed.with(right.summed),
            lowest: self.lowest.with(right.lowest),
            highest: self.highest.with(right.highest),
            mean: self.mean.with(right.mean),
            first: self.first.with(right.first),
            last: self.last.with(right.last),
            rises: self.rises.with(right.rises),
            trace: self.trace.with(right.trace),
        }
    }
}

impl Lift for Bundle {
    ghost of_number = { bundle_of_number };

    ghost lifts = { bundle_lifts };

    fn lift(value: i64) -> Bundle
        ensures value { result ≡ bundle_of_number value }
        ensures one { result ≡ bundle_of (value ∷ []) }
    {
        Bundle {
            count: Count::lift(value),
            summed: Sum::lift(value),
            lowest: Min::lift(value),
            highest: Max::lift(value),
            mean: Mean::lift(value),
            first: First::lift(value),
            last: Last::lift(value),
            rises: Rises::lift(value),
            trace: Trace::lift(value),
        }
    }
}

impl Partial for Bundle {
    ghost of_values = { bundle_of };

    ghost serves = { IsAny };

    ghost any_order = { false };

    ghost partial = { record { laws = bundle_laws; lifts = bundle_lifts; totals = total_of_bundles } };

    ghost counts = { tt };

    ghost commutes = { λ e. absurd (false≢true e) };

    fn can_show(_func: Func) -> bool {
        true
    }

    fn in_any_order() -> bool {
        false
    }

    fn of_bundle(bundle: &Bundle) -> Bundle {
        *bundle
    }

    fn show(&self, func: Func) -> Shown {
        match func {
            Func::Count => Shown::Whole(i128::from(self.count.count)),
            Func::Sum => Shown::Whole(self.summed.sum),
            Func::Min => whole(self.lowest.least),
            Func::Max => whole(self.highest.most),
            Func::Mean => Shown::Ratio {
                sum: self.mean.sum,
                count: self.mean.count,
            },
            Func::First => whole(self.first.value),
            Func::Last => whole(self.last.value),
            Func::Rises => Shown::Whole(i128::from(rises_of(self.rises.run))),
            Func::Trace => Shown::Whole(i128::from(self.trace.b)),
        }
    }
}

pub(crate) fn whole(value: Option<i64>) -> Shown
    ensures { result ≡ show_value value }
{
    Shown::Whole(i128::from(value.unwrap_or(0)))
}

fn rises_of(run: Option<(i64, i64, u64)>) -> u64
    ensures { result ≡ (unwrap_or run (pos 0, pos 0, 0)).2 }
{
    match run {
        Some((_first, _last, rises)) => rises,
        None => 0,
    }
}
