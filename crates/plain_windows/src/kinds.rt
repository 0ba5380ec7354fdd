//! What is told apart by the kind of a window: its instances, found one after another by their starts,
//! the bounds that a tuple brings it, and where it cuts.
ghost use Rattle.std.specs.Prelude.{◌≡◌, IfSome, nat_le, nat_lt};
ghost use Rattle.std.specs.List.{find};
ghost use Rattle.std.specs.Option.{option_map};
ghost use Rattle.stream_base.specs.Kinds.{cuts_between, is_events};
ghost use Rattle.stream_base.specs.Model.Windows.{instances_of};
ghost use Rattle.plain_windows.specs.Changing.{BringsBound, BringsNoneBelow, KeepsBounds};
ghost use Rattle.plain_windows.specs.Extents.{Tells};

use crate::cuts::{Times, has_bound};
use crate::extent::Extent;
use crate::ranks::RunLength;
use crate::spans::Spacing;
use crate::time::EventTime;
use crate::view::View;
use crate::window::Window;
use crate::{ranks, sessions, spans, stretches};
use stream_base::Kind;

/// The first instance of a window that starts at or after `from`, if there is one. Takes no memory. It
/// searches by halves; of a session window it also walks the session found, and the one before it.
#[tactic(auto, unfolding(stream_base::specs::Model::Windows::instances_of))]
pub fn first_from(window: &Window, view: &View, from: u64) -> Option<Extent>
    ensures { Tells view.now.kept result
        (find (λ i. nat_le from i.low)
        (instances_of window.now.kind view.now.kept view.now.marks)) }
{
    match window.def.kind {
        Kind::Tumbling { length } => {
            let slide = length;
            spans::first_from(Spacing { length, slide }, view, from)
        }
        Kind::Sliding { length, slide } => {
            spans::first_from(Spacing { length, slide }, view, from)
        }
        Kind::Session { gap } => sessions::first_from(gap, view, from),
        Kind::Marks => stretches::first_from(view, from),
        Kind::Events { count } => ranks::first_from(RunLength { count }, view, from),
    }
}

/// The first instance of a window whose bound lies above a watermark, if there is one. Bounds don't
/// fall as starts rise, so it is the next to become complete, and those behind it come later.
#[tactic(auto, unfolding(stream_base::specs::Model::Windows::instances_of))]
pub fn first_above(window: &Window, view: &View, water: u64) -> Option<Extent>
    ensures { Tells view.now.kept result
        (find (λ i. nat_lt water i.bound)
        (instances_of window.now.kind view.now.kept view.now.marks)) }
{
    match window.def.kind {
        Kind::Tumbling { length } => {
            let slide = length;
            spans::first_above(Spacing { length, slide }, view, water)
        }
        Kind::Sliding { length, slide } => {
            spans::first_above(Spacing { length, slide }, view, water)
        }
        Kind::Session { gap } => sessions::first_above(gap, view, water),
        Kind::Marks => stretches::first_above(view, water),
        Kind::Events { count } => ranks::first_above(RunLength { count }, view, water),
    }
}

/// The bound of that instance.
#[tactic(auto, unfolding(stream_base::specs::Model::Windows::instances_of))]
pub fn bound_above(window: &Window, view: &View, water: u64) -> Option<u64>
    ensures { result ≡ option_map (λ i. i.bound)
        (find (λ i. nat_lt water i.bound)
        (instances_of window.now.kind view.now.kept view.now.marks)) }
{
    let extent = match window.def.kind {
        Kind::Tumbling { length } => {
            let slide = length;
            return spans::bound_above(Spacing { length, slide }, view, water);
        }
        Kind::Sliding { length, slide } => {
            return spans::bound_above(Spacing { length, slide }, view, water);
        }
        Kind::Session { gap } => sessions::first_above(gap, view, water),
        Kind::Marks => stretches::first_above(view, water),
        Kind::Events { count } => ranks::first_above(RunLength { count }, view, water),
    };
    Some(extent?.bound)
}

/// A number below which a tuple at a time brings no bound. None where the time alone doesn't tell, as
/// with sessions, marks and event counts.
#[tactic(auto, unfolding(stream_base::specs::Model::Windows::instances_of))]
pub fn bound_of(window: &Window, at: EventTime) -> Option<u64>
    ensures none_below { IfSome result (BringsNoneBelow window.now.kind at.time) }
    ensures brought { IfSome result (BringsBound window.now.kind at.time) }
    ensures stay { IfSome result (λ bound. KeepsBounds window.now.kind) }
{
    match window.def.kind {
        Kind::Tumbling { length } => {
            let slide = length;
            Some(spans::bound_holding(Spacing { length, slide }, at))
        }
        Kind::Sliding { length, slide } => Some(spans::bound_holding(
            Spacing { length, slide },
            at,
        )),
        Kind::Session { .. } | Kind::Marks | Kind::Events { .. } => None,
    }
}

/// Whether a window cuts between two times: a start or an end of an interval lies after the first and
/// at or before the second, or they are at least the gap apart.
pub fn cuts_between(window: &Window, times: Times) -> bool
    ensures { result ≡ cuts_between window.now.kind times.low times.high }
{
    match window.def.kind {
        Kind::Tumbling { length } => has_bound(0, length, times),
        Kind::Sliding { length, slide } => {
            has_bound(0, slide, times) || has_bound(length, slide, times)
        }
        Kind::Session { gap } => gap <= times.high.saturating_sub(times.low),
        Kind::Marks | Kind::Events { .. } => false,
    }
}

/// Whether a window is one of event counts.
pub fn counts_events(window: &Window) -> bool
    ensures { result ≡ is_events window.now.kind }
{
    match window.def.kind {
        Kind::Events { .. } => true,
        _ => false,
    }
}
