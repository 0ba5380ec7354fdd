ghost use Rattle.std.specs.Prelude.{◌≡◌, true};
ghost use Rattle.stream_base.specs.Model.Functions.{show_value};
ghost use Rattle.aggregates.specs.Order.{IsOrderFree};
ghost use Rattle.aggregates.specs.Summed.{IsSummary, empty_summary, summaries_combined, summaries_commute, summary_laws, summary_lifts, summary_of, summary_of_number, total_of_summaries};

use crate::bundle::{Bundle, whole};
use crate::count::Count;
use crate::extremes::Extremes;
use crate::packed_sum::PackedSum;
use crate::partial::Partial;
use agg_laws::{Lift, Monoid, Steps};
use std::marker::Model;
use stream_base::{Func, Shown};

/// Count, sum, mean, least and greatest of the same values, in 40 bytes: the functions of which the
/// order of values makes no difference. To combine two summaries is one step.
#[derive(Clone, Copy, Debug)]
pub struct Summary {
    count: Count,
    summed: PackedSum,
    range: Extremes,
}

impl Model for Summary {
    ghost use Rattle.aggregates.specs.Summed.{Summed};

    ghost Value = { Summed };

    ghost view = { λ s. record { count = s.count.count; summed = s.summed; range = s.range } };

    ghost inverse = { λ v. record {
      count = record { count = v.count };
      summed = v.summed;
      range = v.range;
    } };
}

impl Monoid for Summary {
    ghost is_value = { IsSummary };

    ghost empty = { empty_summary };

    ghost op = { summaries_combined };

    ghost laws = { summary_laws };

    fn unit() -> Summary {
        Summary {
            count: Count::unit(),
            summed: PackedSum::new(0),
            range: Extremes::none(),
        }
    }

    fn vouch(&self) {
        self.count.vouch();
        self.summed.get();
        self.range.least();
        self.range.most();
    }

    #[inline(always)]
    fn combine<L>(&self, right: &Summary, steps: &mut Steps<L>) -> Summary {
        steps.tick();
        Summary {
            count: self.count.with(right.count),
            summed: PackedSum::new(self.summed.get().wrapping_add(right.summed.get())),
            range: self.range.with(right.range),
        }
    }
}

impl Lift for Summary {
    ghost of_number = { summary_of_number };

    ghost lifts = { summary_lifts };

    fn lift(value: i64) -> Summary {
        Summary {
            count: Count::lift(value),
            summed: PackedSum::new(i128::from(value)),
            range: Extremes::of(value),
        }
    }
}

impl Partial for Summary {
    ghost of_values = { summary_of };

    ghost serves = { IsOrderFree };

    ghost any_order = { true };

    ghost partial = { record {
      laws = summary_laws;
      lifts = summary_lifts;
      totals = total_of_summaries;
    } };

    ghost counts = { tt };

    ghost commutes = { λ _. summaries_commute };

    fn can_show(func: Func) -> bool {
        matches!(
            func,
            Func::Count | Func::Sum | Func::Min | Func::Max | Func::Mean
        )
    }

    fn in_any_order() -> bool {
        true
    }

    fn of_bundle(bundle: &Bundle) -> Summary {
        Summary {
            count: bundle.count,
            summed: PackedSum::new(bundle.summed.sum),
            range: Extremes::from(bundle.lowest.least, bundle.highest.most),
        }
    }

    fn show(&self, func: Func) -> Shown {
        match func {
            Func::Count => Shown::Whole(i128::from(self.count.count)),
            Func::Sum => Shown::Whole(self.summed.get()),
            Func::Min => whole(self.range.least()),
            Func::Max => whole(self.range.most()),
            Func::Mean => Shown::Ratio {
                sum: self.summed.get(),
                count: self.count.count,
            },
            Func::First | Func::Last | Func::Rises | Func::Trace => Shown::Whole(0),
        }
    }
}
