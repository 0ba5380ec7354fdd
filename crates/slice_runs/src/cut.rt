ghost use Rattle.std.specs.Prelude.{◌≡◌, ◌≤◌, ◌↔◌, [], IsTrue};
ghost use Rattle.std.specs.List.{Any};
ghost use Rattle.stream_base.specs.Limits.{AreTimes, MayCut};
ghost use Rattle.stream_base.specs.Kinds.{CutsBetween, IsKindWithin, cuts_between, has_bound};
ghost use Rattle.stream_base.specs.Model.Cuts.{has_cut};

use stream_base::{Def, Defs};

/// Whether there is a cut between two times: a tumbling or sliding window starts or ends after
/// `low` and at or before `high`, or they are at least the least session gap apart.
pub fn cut_between(defs: &Defs, low: u64, high: u64) -> bool
    requires { AreTimes low high }
    ensures exactly { IsTrue result ↔ Any (λ w. CutsBetween w.kind low high) defs.now.windows }
    ensures computed { result ≡ has_cut defs.now.windows [] low high }
{
    have_cut(defs.windows(), low, high)
}

/// The same of windows within their limits.
pub fn have_cut(windows: &[Def], low: u64, high: u64) -> bool
    requires { MayCut windows.now low high }
    ensures { result ≡ has_cut windows.now [] low high }
{
    windows
        .iter()
        .any(|window| window.kind.cuts_between(low, high))
}
