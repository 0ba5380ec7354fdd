//! A walk over the instances of a window that stand, by their starts.
ghost use Rattle.std.specs.Prelude.{◌≡◌, ◌≤◌, ℕ, filter};
ghost use Rattle.stream_base.specs.Laws.{becomes_complete};
ghost use Rattle.stream_base.specs.Model.Windows.{instances_of};
ghost use Rattle.plain_windows.specs.Walks.{IsFirstLeft, left_of};

use crate::extent::Extent;
use crate::kinds::{first_above, first_from};
use crate::view::View;
use crate::window::Window;

/// The first instance that starts at or after `from` and is complete under a watermark. Bounds don't
/// fall as starts rise: where the first that starts there isn't complete, none behind it is.
pub fn first_left(window: &Window, view: &View, from: u64, water: u64) -> Option<Extent>
    ensures { IsFirstLeft window.now.kind view.now.kept view.now.marks from water result }
{
    window.vouch();
    view.vouch();
    match first_from(window, view, from) {
        Some(extent) => {
            if extent.bound <= water {
                Some(extent)
            } else {
                None
            }
        }
        None => None,
    }
}

/// The first instance that starts at or after `from` and stands.
pub fn first_standing(window: &Window, view: &View, from: u64) -> Option<Extent>
    ensures { IsFirstLeft window.now.kind view.now.kept view.now.marks from view.now.water result }
{
    first_left(window, view, from, view.water)
}

/// Where a walk begins that meets the instances which become complete as the watermark rises from
/// the view's own.
pub fn due_from(window: &Window, view: &View) -> u64
    ensures { (new : ℕ)
        → filter (becomes_complete view.now.water new)
        (instances_of window.now.kind view.now.kept view.now.marks)
        ≡ left_of window.now.kind view.now.kept view.now.marks result new }
{
    window.vouch();
    view.vouch();
    match first_above(window, view, view.water) {
        Some(extent) => extent.low,
        None => u64::MAX,
    }
}
