ghost use Rattle.std.specs.Prelude.{◌≡◌, refl};
ghost use Rattle.stream_base.specs.Model.Functions.{summing};
ghost use Rattle.aggregates.specs.Values.{IsSum};
ghost use Rattle.agg_laws.specs.Compounds.{carried};
ghost use Rattle.aggregates.specs.Aggregates.{sum_laws, widened};

use agg_laws::{Lift, Monoid, Steps};

/// The sum of the values, modulo 2^128, as a signed number.
#[derive(Clone, Copy, Debug, PartialEq, Eq)]
pub struct Sum {
    pub sum: i128,
}

impl Monoid for Sum {
    ghost is_value = { λ x. IsSum x.sum };

    ghost empty = { record { sum = summing.unit } };

    ghost op = { λ x y. record { sum = summing.combine x.sum y.sum } };

    ghost laws = { carried (λ z. record { sum = z }) (λ x. x.sum) sum_laws (λ _. refl) (λ _. refl) };

    fn unit() -> Sum {
        Sum { sum: 0 }
    }

    fn vouch(&self) {
        let _sum = self.sum;
    }

    fn combine<L>(&self, right: &Sum, steps: &mut Steps<L>) -> Sum {
        steps.tick();
        self.with(*right)
    }
}

impl Sum {
    // This aggregate's values, and then those of `right`. Whoever calls it counts the step.
    pub(crate) fn with(self, right: Sum) -> Sum
        ensures { result ≡ record { sum = summing.combine self.sum right.sum } }
    {
        Sum {
            sum: self.sum.wrapping_add(right.sum),
        }
    }
}

impl Lift for Sum {
    ghost of_number = { λ v. record { sum = summing.lift v } };

    ghost lifts = { λ v h. widened v h };

    fn lift(value: i64) -> Sum {
        Sum {
            sum: i128::from(value),
        }
    }
}
