ghost use Rattle.std.specs.Prelude.{◌≡◌, refl};
ghost use Rattle.std.proofs.Common.{lit<};
ghost use Rattle.stream_base.specs.Model.Functions.{rising, joined_runs};
ghost use Rattle.aggregates.specs.Values.{IsRun};
ghost use Rattle.agg_laws.specs.Compounds.{carried};
ghost use Rattle.aggregates.specs.Aggregates.{rises_laws};

use agg_laws::{Lift, Monoid, Steps};

/// How often, in event order, a value is greater than the one before it, modulo 2^64.
#[derive(Clone, Copy, Debug, PartialEq, Eq)]
pub struct Rises {
    /// The first value, the last value and the rises between them, none of no values.
    pub run: Option<(i64, i64, u64)>,
}

impl Monoid for Rises {
    ghost is_value = { λ x. IsRun x.run };

    ghost empty = { record { run = rising.unit } };

    ghost op = { λ x y. record { run = rising.combine x.run y.run } };

    ghost laws = { carried (λ o. record { run = o }) (λ x. x.run) rises_laws (λ _. refl) (λ _. refl) };

    fn unit() -> Rises {
        Rises { run: None }
    }

    fn vouch(&self) {
        match self.run {
            Some(run) => vouch_run(run.0, run.1, run.2),
            None => (),
        }
    }

    fn combine<L>(&self, right: &Rises, steps: &mut Steps<L>) -> Rises {
        steps.tick();
        self.with(*right)
    }
}

impl Rises {
    // This aggregate's values, and then those of `right`. Whoever calls it counts the step.
    pub(crate) fn with(self, right: Rises) -> Rises
        ensures { result ≡ record { run = rising.combine self.run right.run } }
    {
        let run = match (self.run, right.run) {
            (Some(x), Some(y)) => Some(joined(x, y)),
            (None, y) => y,
            (x, None) => x,
        };
        Rises { run }
    }
}

impl Lift for Rises {
    ghost of_number = { λ v. record { run = rising.lift v } };

    ghost lifts = { λ v h. (h, h, lit< tt) };

    fn lift(value: i64) -> Rises {
        Rises {
            run: Some((value, value, 0)),
        }
    }
}

// Two runs as one, with one rise more where the second begins above the end of the first.
fn joined(x: (i64, i64, u64), y: (i64, i64, u64)) -> (i64, i64, u64)
    ensures { result ≡ joined_runs x y }
{
    let rise = if x.1 < y.0 { 1 } else { 0 };
    (x.0, y.1, x.2.wrapping_add(y.2).wrapping_add(rise))
}

// Tells a proof that the parts of a run lie within their types.
fn vouch_run(first: i64, last: i64, rises: u64)
    ensures { IsRun (Some (first, last, rises)) }
{}
