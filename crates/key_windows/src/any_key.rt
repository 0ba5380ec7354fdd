//! An engine for the windows of any definitions.
ghost use Rattle.stream_base.specs.Limits.{Definitions};

use crate::key_windows::KeyWindows;

/// An engine for the windows of any definitions.
pub trait AnyKey: KeyWindows {
    ghost use Rattle.stream_base.specs.Limits.{Definitions};

    /// It can show the functions of all windows.
    ghost serves_all: { (d : Definitions) → Self.serves d };
}
