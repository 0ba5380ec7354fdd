ghost use Rattle.std.specs.Prelude.{◌≡◌, refl};
ghost use Rattle.std.proofs.Common.{lit<};
ghost use Rattle.stream_base.specs.Model.Functions.{tracing};
ghost use Rattle.aggregates.specs.Values.{IsTrace};
ghost use Rattle.aggregates.specs.Shapes.{trace_of};
ghost use Rattle.agg_laws.specs.Compounds.{carried};
ghost use Rattle.aggregates.specs.Aggregates.{trace_laws, bits_of_number};

use agg_laws::{Lift, Monoid, Steps};

// The factor of the FNV-1a hash of 64 bits, a prime.
const FACTOR: u64 = 1_099_511_628_211;

/// The function that takes n to `a * n + b`, modulo 2^64. A value v stands for the one with
/// `a = 1099511628211` and `b = v`, and combining composes them, the left one first, so that `b` is
/// a hash of the values in event order.
#[derive(Clone, Copy, Debug, PartialEq, Eq)]
pub struct Trace {
    pub a: u64,
    pub b: u64,
}

impl Monoid for Trace {
    ghost is_value = { λ x. IsTrace (x.a, x.b) };

    ghost empty = { trace_of tracing.unit };

    ghost op = { λ x y. trace_of (tracing.combine (x.a, x.b) (y.a, y.b)) };

    ghost laws = { carried trace_of (λ x. (x.a, x.b)) trace_laws (λ _. refl) (λ _. refl) };

    fn unit() -> Trace {
        Trace { a: 1, b: 0 }
    }

    fn vouch(&self) {
        let _a = self.a;
        let _b = self.b;
    }

    fn combine<L>(&self, right: &Trace, steps: &mut Steps<L>) -> Trace {
        steps.tick();
        self.with(*right)
    }
}

impl Trace {
    // This aggregate's values, and then those of `right`. Whoever calls it counts the step.
    pub(crate) fn with(self, right: Trace) -> Trace
        ensures { result ≡ trace_of (tracing.combine (self.a, self.b) (right.a, right.b)) }
    {
        Trace {
            a: self.a.wrapping_mul(right.a),
            b: self.b.wrapping_mul(right.a).wrapping_add(right.b),
        }
    }
}

impl Lift for Trace {
    ghost of_number = { λ v. trace_of (tracing.lift v) };

    ghost lifts = { λ v h. (lit< tt, bits_of_number v h) };

    fn lift(value: i64) -> Trace {
        Trace {
            a: FACTOR,
            b: value.cast_unsigned(),
        }
    }
}
