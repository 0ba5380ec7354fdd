ghost use Rattle.std.specs.Prelude.{◌≡◌, ℤ, FitsSigned};
ghost use Rattle.std.specs.Int.{w64};

use crate::monoid::Monoid;

/// An aggregate over the numbers of a stream.
pub trait Lift: Monoid {
    // The aggregate of one number.
    ghost of_number: { ℤ → Self };

    /// The aggregate of one number.
    fn lift(value: i64) -> Self
        ensures { result ≡ of_number value };

    // The aggregate of a number of 64 bits is a value.
    ghost lifts: { (v : ℤ) → FitsSigned w64 v → Self.is_value (of_number v) };
}
