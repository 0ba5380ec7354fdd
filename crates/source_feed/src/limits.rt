//! The limits of sources, as numbers.
ghost use Rattle.std.specs.Prelude.{◌≡◌};
ghost use Rattle.source_feed.specs.declared.made_feed.TheConstants.{MADE_ROWS_MAX};
ghost use Rattle.source_feed.specs.declared.whole.TheConstants.{SOURCE_MAX};

/// Each constant with its number written out.
pub fn limits_are_these_numbers()
    ensures bytes { SOURCE_MAX ≡ 268435456 }
    ensures made_rows { MADE_ROWS_MAX ≡ 1000000 }
{}
