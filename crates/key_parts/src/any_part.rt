//! A part that a window of any kind can have.
ghost use Rattle.std.specs.Prelude.{◌≡◌, true};
ghost use Rattle.stream_base.specs.declared.kind.Kind.{Kind};

use crate::key_part::KeyPart;
use aggregates::Partial;

/// A part that a window of any kind can have. So it is, by `is_for_served`, for the window at each
/// place of all definitions of which M shows the function.
pub trait AnyPart<M: Partial>: KeyPart<M> {
    ghost use Rattle.std.specs.Prelude.{◌≡◌, true};
    ghost use Rattle.stream_base.specs.declared.kind.Kind.{Kind};

    /// It serves windows of each kind.
    ghost serves_all: { (kind : Kind) → Self.serves_kind kind ≡ true };
}
