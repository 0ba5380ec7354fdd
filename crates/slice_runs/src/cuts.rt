//! Where slices are cut.
ghost use Rattle.std.specs.Prelude.{◌≡◌, ◌<◌, true, false};
ghost use Rattle.stream_base.specs.Limits.{MayCut};
ghost use Rattle.slice_runs.specs.Begun.{IsPlaceAt, IsPlaceBehind};
ghost use Rattle.stream_base.specs.Model.Cuts.{has_cut};
ghost use Rattle.slice_lists.specs.Sides.{IsApartBefore, IsFirstEntered, IsLastEntered, IsNearBefore};

use crate::cut::have_cut;
use crate::marks::Marks;
use crate::runs::Runs;
use stream_base::Def;

/// Whether there is a cut between two times, by the definitions or by a mark.
#[tactic(auto, using(slice_lists::proofs::CutFacts::cut_by_mark))]
pub fn has_cut(windows: &[Def], marks: &Marks, low: u64, high: u64) -> bool
    requires { MayCut windows.now low high }
    ensures { result ≡ has_cut windows.now marks.now.times low high }
{
    let by_window = have_cut(windows, low, high);
    let by_mark = marks.has_between(low, high);
    by_window || by_mark
}

// Whether a time lies inside the slice before a place or has no cut to its end.
fn is_near_before(runs: &Runs, windows: &[Def], marks: &Marks, at: usize, time: u64) -> bool
    requires { IsPlaceAt windows.now (runs.now).slices at time }
    ensures near { result ≡ true
        → IsNearBefore (has_cut windows.now marks.now.times) (runs.now).slices at time }
    ensures apart { result ≡ false
        → IsApartBefore (has_cut windows.now marks.now.times) (runs.now).slices at time }
{
    if at == 0 {
        return false;
    }
    let high = runs.slice(at - 1).high;
    time < high || !has_cut(windows, marks, high, time)
}

/// From which place on a tuple at a time enters slices, where so many begin at or before the time.
pub fn first_entered(runs: &Runs, windows: &[Def], marks: &Marks, at: usize, time: u64) -> usize
    requires { IsPlaceAt windows.now (runs.now).slices at time }
    ensures { IsFirstEntered (has_cut windows.now marks.now.times) (runs.now).slices
        at time result }
{
    if is_near_before(runs, windows, marks, at, time) {
        at - 1
    } else {
        at
    }
}

/// Up to which place it does.
pub fn last_entered(runs: &Runs, windows: &[Def], marks: &Marks, at: usize, time: u64) -> usize
    requires { IsPlaceBehind windows.now (runs.now).slices at time }
    ensures { IsLastEntered (has_cut windows.now marks.now.times) (runs.now).slices
        at time result }
{
    if at >= runs.len() {
        return at;
    }
    if has_cut(windows, marks, time, runs.slice(at).low) {
        at
    } else {
        at + 1
    }
}
