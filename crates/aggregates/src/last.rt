ghost use Rattle.std.specs.Prelude.{◌≡◌, refl};
ghost use Rattle.stream_base.specs.Model.Functions.{latest};
ghost use Rattle.aggregates.specs.Values.{IsPick};
ghost use Rattle.agg_laws.specs.Compounds.{carried};
ghost use Rattle.aggregates.specs.Aggregates.{latest_laws};

use agg_laws::{Lift, Monoid, Steps};

/// The value that is last in event order, none of no values.
#[derive(Clone, Copy, Debug, PartialEq, Eq)]
pub struct Last {
    pub value: Option<i64>,
}

impl Monoid for Last {
    ghost is_value = { λ x. IsPick x.value };

    ghost empty = { record { value = latest.unit } };

    ghost op = { λ x y. record { value = latest.combine x.value y.value } };

    ghost laws = { carried (λ o. record { value = o }) (λ x. x.value) latest_laws (λ _. refl) (λ _. refl) };

    fn unit() -> Last {
        Last { value: None }
    }

    fn vouch(&self) {
        match self.value {
            Some(_value) => (),
            None => (),
        }
    }

    fn combine<L>(&self, right: &Last, steps: &mut Steps<L>) -> Last {
        steps.tick();
        self.with(*right)
    }
}

impl Last {
    // This aggregate's values, and then those of `right`. Whoever calls it counts the step.
    pub(crate) fn with(self, right: Last) -> Last
        ensures { result ≡ record { value = latest.combine self.value right.value } }
    {
        Last {
            value: right.value.or(self.value),
        }
    }
}

impl Lift for Last {
    ghost of_number = { λ v. record { value = latest.lift v } };

    ghost lifts = { λ v h. h };

    fn lift(value: i64) -> Last {
        Last { value: Some(value) }
    }
}
