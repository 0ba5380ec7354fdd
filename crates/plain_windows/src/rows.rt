//! The rows that stand.
ghost use Rattle.std.specs.Prelude.{◌≡◌, ◌++◌, OnOk, map};
ghost use Rattle.stream_base.specs.Model.Changes.{row_of, rows_at, standing_at};

use crate::fold::{Owner, row_of};
use crate::view::View;
use crate::walk::first_standing;
use crate::window::{Window, windows_of};
use agg_laws::Steps;
use stream_base::{Defs, KeyText, NoMemory, Row};

/// Appends the rows of a key that stand, by window, start and end.
pub fn append_rows<L>(
    defs: &Defs,
    key: &KeyText,
    view: &View,
    out: &mut Vec<Row>,
    steps: &mut Steps<L>,
) -> Result<(), NoMemory>
    ensures { OnOk result (out.new.items
        ≡ out.old.items ++ rows_at (defs.now).windows key.now view.now) }
{
    let windows = windows_of(defs);
    for (place, def) in windows.iter().enumerate() {
        let owner = Owner {
            place: place as u32,
            window: Window { def },
            key,
        };
        append_window(&owner, view, out, steps)?;
    }
    Ok(())
}

// Appends those of one window.
fn append_window<L>(
    owner: &Owner,
    view: &View,
    out: &mut Vec<Row>,
    steps: &mut Steps<L>,
) -> Result<(), NoMemory>
    ensures { OnOk result (out.new.items
        ≡ out.old.items
        ++ map (row_of owner.now.place owner.now.key.now owner.now.window.func)
        (standing_at owner.now.window view.now)) }
{
    let window = &owner.window;
    let mut from = 0;
    while let Some(extent) = first_standing(window, view, from) {
        out.push(row_of(owner, view, &extent, steps))?;
        from = extent.low + 1;
    }
    Ok(())
}
