//! Times and values: their digits, signs and limits.
ghost use Rattle.std.specs.Prelude.{◌≡◌, [], ◌∷◌, codes, pos, negsuc};
ghost use Rattle.stream_base.specs.Examples.{tuple, mark, water, a};
ghost use Rattle.source_feed.specs.declared.row_why.RowWhy.TheVariants.{Time, Value};
ghost use Rattle.source_examples.specs.Spelled.{refused, stream, whole};

/// A time has 1 to 19 digits, leading zeros among them, and is at most 10^15.
#[tactic(auto, unfolding(crate::proofs::Opened::sources_opened))]
pub fn times_at_their_limits()
    ensures zero { stream (codes "w,0\n") ≡ whole (water 0 ∷ []) }
    ensures nineteen_digits { stream (codes "w,0001000000000000000\n")
        ≡ whole (water 1000000000000000 ∷ []) }
    ensures twenty_digits { stream (codes "w,00000000000000000001\n") ≡ refused [] 1 Time }
    ensures no_digit { stream (codes "w,\n") ≡ refused [] 1 Time }
    ensures water { stream (codes "w,1000000000000001\n") ≡ refused [] 1 Time }
    ensures tuple { stream (codes "t,1000000000000000,5,a\nt,1000000000000001,5,a\n")
        ≡ refused (tuple 1000000000000000 (pos 5) a ∷ []) 2 Time }
    ensures mark { stream (codes "m,1000000000000000,,a\nm,1000000000000001,,a\n")
        ≡ refused (mark 1000000000000000 a ∷ []) 2 Time }
{}

/// A time has digits alone: no sign, no point, no exponent.
#[tactic(auto, unfolding(crate::proofs::Opened::sources_opened))]
pub fn times_have_digits_alone()
    ensures plus { stream (codes "w,+1\n") ≡ refused [] 1 Time }
    ensures minus { stream (codes "w,-0\n") ≡ refused [] 1 Time }
    ensures point { stream (codes "w,1.0\n") ≡ refused [] 1 Time }
    ensures exponent { stream (codes "w,1e3\n") ≡ refused [] 1 Time }
    ensures below_digits { stream (codes "w,1/\n") ≡ refused [] 1 Time }
    ensures above_digits { stream (codes "w,1:\n") ≡ refused [] 1 Time }
{}

/// A value lies from -2^63 to 2^63 - 1.
#[tactic(auto, unfolding(crate::proofs::Opened::sources_opened))]
pub fn values_at_their_limits()
    ensures least { stream (codes "t,1,-9223372036854775808,a\n")
        ≡ whole (tuple 1 (negsuc 9223372036854775807) a ∷ []) }
    ensures greatest { stream (codes "t,1,9223372036854775807,a\n")
        ≡ whole (tuple 1 (pos 9223372036854775807) a ∷ []) }
    ensures greatest_with_a_sign { stream (codes "t,1,+9223372036854775807,a\n")
        ≡ whole (tuple 1 (pos 9223372036854775807) a ∷ []) }
    ensures below { stream (codes "t,1,-9223372036854775809,a\n") ≡ refused [] 1 Value }
    ensures above { stream (codes "t,1,9223372036854775808,a\n") ≡ refused [] 1 Value }
    ensures above_with_a_sign { stream (codes "t,1,+9223372036854775808,a\n")
        ≡ refused [] 1 Value }
{}

/// A value has at most one sign, and then 1 to 19 digits, leading zeros among them.
#[tactic(auto, unfolding(crate::proofs::Opened::sources_opened))]
pub fn values_have_a_sign_and_digits()
    ensures minus { stream (codes "t,1,-5,a\n") ≡ whole (tuple 1 (negsuc 4) a ∷ []) }
    ensures plus { stream (codes "t,1,+5,a\n") ≡ whole (tuple 1 (pos 5) a ∷ []) }
    ensures minus_zero { stream (codes "t,1,-0,a\n") ≡ whole (tuple 1 (pos 0) a ∷ []) }
    ensures nineteen_digits { stream (codes "t,1,-0000000000000000005,a\n")
        ≡ whole (tuple 1 (negsuc 4) a ∷ []) }
    ensures twenty_digits { stream (codes "t,1,00000000000000000005,a\n") ≡ refused [] 1 Value }
    ensures twenty_with_a_sign { stream (codes "t,1,-00000000000000000005,a\n")
        ≡ refused [] 1 Value }
    ensures two_signs { stream (codes "t,1,+-5,a\n") ≡ refused [] 1 Value }
    ensures sign_alone { stream (codes "t,1,-,a\n") ≡ refused [] 1 Value }
    ensures sign_behind { stream (codes "t,1,5-,a\n") ≡ refused [] 1 Value }
    ensures nothing { stream (codes "t,1,,a\n") ≡ refused [] 1 Value }
    ensures point { stream (codes "t,1,5.0,a\n") ≡ refused [] 1 Value }
{}
