ghost use Rattle.std.specs.Prelude.{◌≡◌, ◌%◌, ◌+◌, ◌^◌, refl};
ghost use Rattle.stream_base.specs.Model.Functions.{counting};
ghost use Rattle.aggregates.specs.Values.{IsCount};
ghost use Rattle.agg_laws.specs.Compounds.{carried};
ghost use Rattle.aggregates.specs.Aggregates.{count_laws};
ghost use Rattle.std.proofs.Common.{lit<};

use agg_laws::{Lift, Monoid, Steps};

/// How many values there are, modulo 2^64.
#[derive(Clone, Copy, Debug, PartialEq, Eq)]
pub struct Count {
    pub count: u64,
}

impl Monoid for Count {
    ghost is_value = { λ x. IsCount x.count };

    ghost empty = { record { count = counting.unit } };

    ghost op = { λ x y. record { count = counting.combine x.count y.count } };

    ghost laws = { carried (λ n. record { count = n }) (λ x. x.count) count_laws (λ _. refl) (λ _. refl) };

    fn unit() -> Count {
        Count { count: 0 }
    }

    fn vouch(&self) {
        let _count = self.count;
    }

    fn combine<L>(&self, right: &Count, steps: &mut Steps<L>) -> Count {
        steps.tick();
        self.with(*right)
    }
}

impl Count {
    // This aggregate's values, and then those of `right`. Whoever calls it counts the step.
    pub(crate) fn with(self, right: Count) -> Count
        ensures { result ≡ record { count = counting.combine self.count right.count } }
    {
        Count {
            count: self.count.wrapping_add(right.count),
        }
    }
}

impl Lift for Count {
    ghost of_number = { λ v. record { count = counting.lift v } };

    ghost lifts = { λ v h. lit< tt };

    fn lift(_value: i64) -> Count {
        Count { count: 1 }
    }
}
