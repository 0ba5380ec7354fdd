ghost use Rattle.std.specs.Prelude.{All, ◌≡◌, ◌≤◌, length};
ghost use Rattle.stream_base.specs.declared.limits.TheConstants.{WINDOWS_MAX};
ghost use Rattle.stream_base.specs.Kinds.{IsKindWithin};

use std::marker::Model;
use stream_base::{Def, Defs, Func};

/// The definition of a window, within its limits. Contracts see the definition.
#[derive(Debug, Drop)]
pub struct Window<'a> {
    pub def: &'a Def,
}

impl<'a> Model for Window<'a> {
    ghost use Rattle.stream_base.specs.declared.def.Def.{Def};
    ghost use Rattle.stream_base.specs.Kinds.{IsKindWithin};

    ghost Value = { Def };

    ghost view = { λ w. w.def.now };

    ghost invariant = { λ w. IsKindWithin w.def.now.kind };
}

impl<'a> Window<'a> {
    /// The function whose value it shows.
    pub fn func(&self) -> Func
        ensures { result ≡ self.now.func }
    {
        self.def.func
    }

    // Changes nothing, and tells a proof what every window keeps.
    pub(crate) fn vouch(&self)
        ensures { IsKindWithin self.now.kind }
    {
        let _def = self.def;
    }
}

/// The windows of definitions, in order.
pub fn windows_of(defs: &Defs) -> &[Def]
    ensures value { result.now ≡ (defs.now).windows }
    ensures kinds { All (λ w. IsKindWithin w.kind) result.now }
    ensures few { length result.now ≤ WINDOWS_MAX }
{
    defs.windows()
}
