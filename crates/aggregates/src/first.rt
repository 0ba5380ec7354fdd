ghost use Rattle.std.specs.Prelude.{◌≡◌, refl};
ghost use Rattle.stream_base.specs.Model.Functions.{earliest};
ghost use Rattle.aggregates.specs.Values.{IsPick};
ghost use Rattle.agg_laws.specs.Compounds.{carried};
ghost use Rattle.aggregates.specs.Aggregates.{earliest_laws};

use agg_laws::{Lift, Monoid, Steps};

/// The value that is first in event order, none of no values.
#[derive(Clone, Copy, Debug, PartialEq, Eq)]
pub struct First {
    pub value: Option<i64>,
}

impl Monoid for First {
    ghost is_value = { λ x. IsPick x.value };

    ghost empty = { record { value = earliest.unit } };

    ghost op = { λ x y. record { value = earliest.combine x.value y.value } };

    ghost laws = { carried (λ o. record { value = o }) (λ x. x.value) earliest_laws (λ _. refl) (λ _. refl) };

    fn unit() -> First {
        First { value: None }
    }

    fn vouch(&self) {
        match self.value {
            Some(_value) => (),
            None => (),
        }
    }

    fn combine<L>(&self, right: &First, steps: &mut Steps<L>) -> First {
        steps.tick();
        self.with(*right)
    }
}

impl First {
    // This aggregate's values, and then those of `right`. Whoever calls it counts the step.
    pub(crate) fn with(self, right: First) -> First
        ensures { result ≡ record { value = earliest.combine self.value right.value } }
    {
        First {
            value: self.value.or(right.value),
        }
    }
}

impl Lift for First {
    ghost of_number = { λ v. record { value = earliest.lift v } };

    ghost lifts = { λ v h. h };

    fn lift(value: i64) -> First {
        First { value: Some(value) }
    }
}
