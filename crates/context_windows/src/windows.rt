//! The window that a call is for.
ghost use Rattle.std.specs.Prelude.{◌≡◌, ◌≤◌, ◌<◌, length};
ghost use Rattle.stream_base.specs.declared.limits.TheConstants.{TIME_MAX};
ghost use Rattle.key_parts.specs.Calls.{window_at};
ghost use Rattle.context_windows.specs.Spanned.{IsSession, gap_of};

use stream_base::{Def, Defs, Kind};

// The window at a place of the definitions.
pub fn window_at(defs: &Defs, window: u32) -> Def
    requires { window < length defs.now.windows }
    ensures { result ≡ window_at defs.now window }
{
    let windows = defs.windows();
    windows[window as usize]
}

// The gap of a session window.
pub fn gap_of(kind: &Kind) -> u64
    requires { IsSession kind.now }
    ensures value { result ≡ gap_of kind.now }
    ensures some { 1 ≤ result }
    ensures few { result ≤ TIME_MAX }
{
    match *kind {
        Kind::Session { gap } => gap,
        _ => unreachable!(),
    }
}
