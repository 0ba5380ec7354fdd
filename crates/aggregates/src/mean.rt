ghost use Rattle.std.specs.Prelude.{◌≡◌, refl};
ghost use Rattle.std.proofs.Common.{lit<};
ghost use Rattle.stream_base.specs.Model.Functions.{averaging};
ghost use Rattle.aggregates.specs.Values.{IsMean};
ghost use Rattle.aggregates.specs.Shapes.{mean_of};
ghost use Rattle.agg_laws.specs.Compounds.{carried};
ghost use Rattle.aggregates.specs.Aggregates.{mean_laws, widened};

use agg_laws::{Lift, Monoid, Steps};

/// The sum and the count of the values, whose ratio is their mean.
#[derive(Clone, Copy, Debug, PartialEq, Eq)]
pub struct Mean {
    pub sum: i128,
    pub count: u64,
}

impl Monoid for Mean {
    ghost is_value = { λ x. IsMean (x.sum, x.count) };

    ghost empty = { mean_of averaging.unit };

    ghost op = { λ x y. mean_of (averaging.combine (x.sum, x.count) (y.sum, y.count)) };

    ghost laws = { carried mean_of (λ x. (x.sum, x.count)) mean_laws (λ _. refl) (λ _. refl) };

    fn unit() -> Mean {
        Mean { sum: 0, count: 0 }
    }

    fn vouch(&self) {
        let _sum = self.sum;
        let _count = self.count;
    }

    fn combine<L>(&self, right: &Mean, steps: &mut Steps<L>) -> Mean {
        steps.tick();
        self.with(*right)
    }
}

impl Mean {
    // This aggregate's values, and then those of `right`. Whoever calls it counts the step.
    pub(crate) fn with(self, right: Mean) -> Mean
        ensures { result ≡ mean_of (averaging.combine
            (self.sum, self.count) (right.sum, right.count)) }
    {
        Mean {
            sum: self.sum.wrapping_add(right.sum),
            count: self.count.wrapping_add(right.count),
        }
    }
}

impl Lift for Mean {
    ghost of_number = { λ v. mean_of (averaging.lift v) };

    ghost lifts = { λ v h. (widened v h, lit< tt) };

    fn lift(value: i64) -> Mean {
        Mean {
            sum: i128::from(value),
            count: 1,
        }
    }
}
