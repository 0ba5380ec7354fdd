ghost use Rattle.std.specs.Prelude.{◌≡◌, refl};
ghost use Rattle.stream_base.specs.Model.Functions.{least};
ghost use Rattle.aggregates.specs.Values.{IsPick};
ghost use Rattle.agg_laws.specs.Compounds.{carried};
ghost use Rattle.aggregates.specs.Aggregates.{least_laws};

use agg_laws::{Lift, Monoid, Steps};

/// The least value, none of no values.
#[derive(Clone, Copy, Debug, PartialEq, Eq)]
pub struct Min {
    pub least: Option<i64>,
}

impl Monoid for Min {
    ghost is_value = { λ x. IsPick x.least };

    ghost empty = { record { least = least.unit } };

    ghost op = { λ x y. record { least = least.combine x.least y.least } };

    ghost laws = { carried (λ o. record { least = o }) (λ x. x.least) least_laws (λ _. refl) (λ _. refl) };

    fn unit() -> Min {
        Min { least: None }
    }

    fn vouch(&self) {
        match self.least {
            Some(_least) => (),
            None => (),
        }
    }

    fn combine<L>(&self, right: &Min, steps: &mut Steps<L>) -> Min {
        steps.tick();
        self.with(*right)
    }
}

impl Min {
    // This aggregate's values, and then those of `right`. Whoever calls it counts the step.
    pub(crate) fn with(self, right: Min) -> Min
        ensures { result ≡ record { least = least.combine self.least right.least } }
    {
        let least = match (self.least, right.least) {
            (Some(x), Some(y)) => Some(x.min(y)),
            (None, y) => y,
            (x, None) => x,
        };
        Min { least }
    }
}

impl Lift for Min {
    ghost of_number = { λ v. record { least = least.lift v } };

    ghost lifts = { λ v h. h };

    fn lift(value: i64) -> Min {
        Min { least: Some(value) }
    }
}
