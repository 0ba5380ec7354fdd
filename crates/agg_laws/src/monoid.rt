ghost use Rattle.std.specs.Prelude.{◌≡◌};
ghost use Rattle.agg_laws.specs.Laws.{MonoidLaws};
ghost use Rattle.agg_laws.specs.Counters.{next_count};

use crate::steps::Steps;

/// A partial aggregate: what some values in event order come to. Two of them combine, the left
/// one's values before the right one's. Combining needn't be commutative or have an inverse.
pub trait Monoid: Copy {
    // Which numbers make a value: each part lies within its type.
    ghost is_value: { Self → Type 0 };

    // The aggregate of no values.
    ghost empty: { Self };

    // The aggregate of the left one's values and then the right one's.
    ghost op: { Self → Self → Self };

    /// The aggregate of no values.
    fn unit() -> Self
        ensures { result ≡ empty };

    /// Changes nothing, and tells a proof that this is a value.
    fn vouch(&self)
        ensures { is_value self.now };

    /// This aggregate's values, and then those of `right`. One step.
    fn combine<L>(&self, right: &Self, steps: &mut Steps<L>) -> Self
        ensures value { result ≡ op self.now right.now }
        ensures counted { steps.new ≡ next_count steps.old };

    // The unit changes nothing on either side, and grouping doesn't matter.
    ghost laws: { MonoidLaws is_value empty op };
}
