//! The limit of a definitions file, as a number.
ghost use Rattle.std.specs.Prelude.{◌≡◌};
ghost use Rattle.window_defs.specs.declared.read.TheConstants.{BYTES_MAX};

/// The constant with its number written out.
pub fn bytes_max_is_this_number()
    ensures { BYTES_MAX ≡ 1048576 }
{}
