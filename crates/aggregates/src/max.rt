ghost use Rattle.std.specs.Prelude.{◌≡◌, refl};
ghost use Rattle.stream_base.specs.Model.Functions.{greatest};
ghost use Rattle.aggregates.specs.Values.{IsPick};
ghost use Rattle.agg_laws.specs.Compounds.{carried};
ghost use Rattle.aggregates.specs.Aggregates.{greatest_laws};

use agg_laws::{Lift, Monoid, Steps};

/// The greatest value, none of no values.
#[derive(Clone, Copy, Debug, PartialEq, Eq)]
pub struct Max {
    pub most: Option<i64>,
}

impl Monoid for Max {
    ghost is_value = { λ x. IsPick x.most };

    ghost empty = { record { most = greatest.unit } };

    ghost op = { λ x y. record { most = greatest.combine x.most y.most } };

    ghost laws = { carried (λ o. record { most = o }) (λ x. x.most) greatest_laws (λ _. refl) (λ _. refl) };

    fn unit() -> Max {
        Max { most: None }
    }

    fn vouch(&self) {
        match self.most {
            Some(_most) => (),
            None => (),
        }
    }

    fn combine<L>(&self, right: &Max, steps: &mut Steps<L>) -> Max {
        steps.tick();
        self.with(*right)
    }
}

impl Max {
    // This aggregate's values, and then those of `right`. Whoever calls it counts the step.
    pub(crate) fn with(self, right: Max) -> Max
        ensures { result ≡ record { most = greatest.combine self.most right.most } }
    {
        let most = match (self.most, right.most) {
            (Some(x), Some(y)) => Some(x.max(y)),
            (None, y) => y,
            (x, None) => x,
        };
        Max { most }
    }
}

impl Lift for Max {
    ghost of_number = { λ v. record { most = greatest.lift v } };

    ghost lifts = { λ v h. h };

    fn lift(value: i64) -> Max {
        Max { most: Some(value) }
    }
}
