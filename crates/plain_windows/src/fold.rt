//! The fold of the tuples that an instance selects, and what it shows.
ghost use Rattle.std.specs.Prelude.{◌≡◌};
ghost use Rattle.stream_base.specs.Model.Changes.{former_of, row_of};
ghost use Rattle.stream_base.specs.Model.Functions.{shown_of};
ghost use Rattle.aggregates.specs.Bundled.{bundle_of, bundle_of_number, bundles_combined};
ghost use Rattle.plain_windows.specs.Extents.{IsExtentIn, instance_in};
ghost use Rattle.plain_windows.specs.Rows.{values_of};

use crate::extent::Extent;
use crate::view::View;
use crate::window::Window;
use agg_laws::{Lift, Monoid, Steps};
use aggregates::{Bundle, Partial};
use stream_base::{Former, Func, Kept, KeyText, Row, Shown};

/// Whose rows are made: a window with its place among the definitions, and a key.
#[derive(Drop)]
pub struct Owner<'a> {
    pub place: u32,
    pub window: Window<'a>,
    pub key: &'a KeyText,
}

/// The tuples that an instance selects.
pub fn tuples_of<'a>(view: &'a View, extent: &Extent) -> &'a [Kept]
    requires { IsExtentIn view.now.kept extent.now }
    ensures { result.now ≡ (instance_in view.now.kept extent.now).chosen }
{
    &view.kept[extent.first..extent.first + extent.count]
}

/// The row of an instance, one step for each tuple that it selects.
pub fn row_of<L>(owner: &Owner, view: &View, extent: &Extent, steps: &mut Steps<L>) -> Row
    requires { IsExtentIn view.now.kept extent.now }
    ensures { result
        ≡ row_of owner.now.place owner.now.key.now owner.now.window.func
        (instance_in view.now.kept extent.now) }
{
    Row {
        window: owner.place,
        key: *owner.key,
        low: extent.low,
        high: extent.high,
        number: extent.count as u64,
        shown: shown_of(owner.window.func(), tuples_of(view, extent), steps),
    }
}

/// What stood of an instance, one step for each tuple that it selected.
pub fn former_of<L>(func: Func, view: &View, extent: &Extent, steps: &mut Steps<L>) -> Former
    requires { IsExtentIn view.now.kept extent.now }
    ensures { result ≡ former_of func (instance_in view.now.kept extent.now) }
{
    Former {
        number: extent.count as u64,
        shown: shown_of(func, tuples_of(view, extent), steps),
    }
}

// What a function shows of tuples.
fn shown_of<L>(func: Func, tuples: &[Kept], steps: &mut Steps<L>) -> Shown
    ensures { result ≡ shown_of func (values_of tuples.now) }
{
    folded(tuples, steps).show(func)
}

// What the nine functions make of tuples, one after another.
fn folded<L>(tuples: &[Kept], steps: &mut Steps<L>) -> Bundle
    ensures { result ≡ bundle_of (values_of tuples.now) }
{
    let mut bundle = Bundle::unit();
    for x in tuples {
        bundle = with_tuple(&bundle, x, steps);
    }
    bundle
}

fn with_tuple<L>(bundle: &Bundle, x: &Kept, steps: &mut Steps<L>) -> Bundle
    ensures { result ≡ bundles_combined bundle.now (bundle_of_number (x.now).value) }
{
    bundle.combine(&Bundle::lift(x.value), steps)
}
