//! The limits, as numbers.
ghost use Rattle.std.specs.Prelude.{◌≡◌};
ghost use Rattle.stream_base.specs.declared.limits.TheConstants.{FINAL, TIME_MAX, JOURNAL_MAX, KEY_MAX, WINDOWS_MAX, LENGTH_RATIO_MAX, EVERY_MAX};

/// Each constant with its number written out.
pub fn constants_are_these_numbers()
    ensures final_time { FINAL ≡ 4611686018427387904 }
    ensures time { TIME_MAX ≡ 1000000000000000 }
    ensures journal { JOURNAL_MAX ≡ 4194304 }
    ensures key { KEY_MAX ≡ 64 }
    ensures windows { WINDOWS_MAX ≡ 32 }
    ensures ratio { LENGTH_RATIO_MAX ≡ 1000 }
    ensures every { EVERY_MAX ≡ 1000000 }
{}
