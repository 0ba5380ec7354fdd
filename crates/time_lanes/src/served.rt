//! The window that a lane serves.
ghost use Rattle.std.specs.Prelude.{◌≡◌, All, true};
ghost use Rattle.stream_base.specs.Kinds.{IsKindWithin, is_timed, length_of, slide_of};
ghost use Rattle.time_lanes.specs.Spans.{IsWindowAt, is_served};
ghost use Rattle.time_lanes.specs.Walks.{PartsStores};

use crate::span::Span;
use stream_base::{Def, Defs};

/// A window, and how its intervals lie.
#[derive(Clone, Copy)]
pub struct Served {
    pub def: Def,
    pub span: Span,
}

/// The window at a place. At its starts and ends the slices part of every store over which it is
/// served.
pub fn serve(defs: &Defs, window: u32) -> Served
    requires { is_served defs.now.windows window ≡ true }
    ensures stands { IsWindowAt defs.now.windows window result.def }
    ensures timed { is_timed result.def.kind ≡ true }
    ensures within { IsKindWithin result.def.kind }
    ensures length { result.span.length ≡ length_of result.def.kind }
    ensures slide { result.span.slide ≡ slide_of result.def.kind }
    ensures parted { PartsStores defs.now.windows window result.span }
{
    let def = window_at(defs, window);
    let span = Span::of(&def.kind);
    Served { def, span }
}

/// The window at a place.
pub fn window_at(defs: &Defs, window: u32) -> Def
    requires { is_served defs.now.windows window ≡ true }
    ensures stands { IsWindowAt defs.now.windows window result }
    ensures timed { is_timed result.kind ≡ true }
    ensures within { IsKindWithin result.kind }
    ensures kinds { All (λ w. IsKindWithin w.kind) defs.now.windows }
{
    defs.windows()[window as usize]
}
