ghost use Rattle.std.specs.Prelude.{refl};
ghost use Rattle.agg_laws.specs.Compounds.{paired, carried};

use crate::lift::Lift;
use crate::monoid::Monoid;
use crate::steps::Steps;

/// Two aggregates of the same values, side by side. To combine two pairs is one step.
#[derive(Clone, Copy, Debug, PartialEq, Eq)]
pub struct Pair<A, B> {
    pub left: A,
    pub right: B,
}

impl<A: Monoid, B: Monoid> Monoid for Pair<A, B> {
    ghost is_value = { λ p. A.is_value p.left × B.is_value p.right };

    ghost empty = { record { left = A.empty; right = B.empty } };

    ghost op = { λ x y. record { left = A.op x.left y.left; right = B.op x.right y.right } };

    ghost laws = { carried (λ p. record { left = p.0; right = p.1 }) (λ p. (p.left, p.right)) (paired A.laws B.laws) (λ _. refl) (λ _. refl) };

    fn unit() -> Pair<A, B> {
        Pair {
            left: A::unit(),
            right: B::unit(),
        }
    }

    fn vouch(&self) {
        self.left.vouch();
        self.right.vouch();
    }

    fn combine<L>(&self, right: &Pair<A, B>, steps: &mut Steps<L>) -> Pair<A, B> {
        steps.tick();
        let mut parts: Steps<L> = Steps::aside();
        Pair {
            left: self.left.combine(&right.left, &mut parts),
            right: self.right.combine(&right.right, &mut parts),
        }
    }
}

impl<A: Lift, B: Lift> Lift for Pair<A, B> {
    ghost of_number = { λ v. record { left = A.of_number v; right = B.of_number v } };

    ghost lifts = { λ v h. (A.lifts v h, B.lifts v h) };

    fn lift(value: i64) -> Pair<A, B> {
        Pair {
            left: A::lift(value),
            right: B::lift(value),
        }
    }
}
