ghost use Rattle.std.specs.Prelude.{◌≡◌, IfSome, length};
ghost use Rattle.compact_log.specs.ChangeCells.{HasFormer, IsCellOf, IsChangeHeld, IsRowCell, IsRowHeld, change_of, former_of, row_of};

use crate::change_form::ChangeForm;
use crate::key_place::place_of;
use crate::short::short;
use crate::shown_cell::{narrowed, widened};
use crate::shown_form::ShownForm;
use stream_base::{Change, Former, KeyText, Row};

// A change in few bytes: its key is told by a place among keys that are held elsewhere, and its
// row's end by how far it lies behind the start.
#[derive(Clone, Copy)]
pub(crate) struct ChangeCell {
    pub(crate) low: u64,
    pub(crate) value: i64,
    pub(crate) former_value: i64,
    pub(crate) span: u32,
    pub(crate) number: u32,
    pub(crate) former_number: u32,
    pub(crate) place: u32,
    pub(crate) window: u32,
    pub(crate) form: ChangeForm,
    pub(crate) shown: ShownForm,
    pub(crate) former_shown: ShownForm,
}

const _: () = prove!(size_of::<ChangeCell>() == 48);

// The cell of a change, if its key stands at this place and its numbers fit.
pub(crate) fn packed(change: &Change, keys: &[KeyText], place: usize) -> Option<ChangeCell>
    ensures { IfSome result (IsCellOf change.now keys.now) }
{
    match change {
        Change::Gone(row) => row_cell(row, ChangeForm::Gone, keys, place),
        Change::New(row) => row_cell(row, ChangeForm::New, keys, place),
        Change::Again { row, former } => {
            with_former(row_cell(row, ChangeForm::Again, keys, place)?, former)
        }
        Change::Dropped => Some(bare_cell(ChangeForm::Dropped, 0)),
    }
}

// The cell of a row, for a change of this form.
fn row_cell(row: &Row, form: ChangeForm, keys: &[KeyText], place: usize) -> Option<ChangeCell>
    ensures { IfSome result (IsRowCell row.now form keys.now) }
{
    let shown = narrowed(&row.shown, row.number)?;
    Some(ChangeCell {
        low: row.low,
        value: shown.value,
        span: short(row.high.checked_sub(row.low)?)?,
        number: short(row.number)?,
        place: place_of(keys, &row.key, place)?,
        window: row.window,
        shown: shown.form,
        ..bare_cell(form, 0)
    })
}

// The cell with what its row showed before.
fn with_former(cell: ChangeCell, former: &Former) -> Option<ChangeCell>
    ensures { IfSome result (HasFormer former.now cell) }
{
    let shown = narrowed(&former.shown, former.number)?;
    Some(ChangeCell {
        former_value: shown.value,
        former_number: short(former.number)?,
        former_shown: shown.form,
        ..cell
    })
}

// A cell with no row.
pub(crate) fn bare_cell(form: ChangeForm, low: u64) -> ChangeCell
    ensures form { result.form ≡ form }
    ensures low { result.low ≡ low }
{
    ChangeCell {
        low,
        value: 0,
        former_value: 0,
        span: 0,
        number: 0,
        former_number: 0,
        place: 0,
        window: 0,
        form,
        shown: ShownForm::Whole,
        former_shown: ShownForm::Whole,
    }
}

// The change that a cell tells.
pub(crate) fn unpacked(cell: &ChangeCell, keys: &[KeyText], whole: &[Change]) -> Change
    requires { IsChangeHeld (length keys.now) (length whole.now) cell.now }
    ensures { result ≡ change_of keys.now whole.now cell.now }
{
    match cell.form {
        ChangeForm::Gone => Change::Gone(row_in(cell, keys)),
        ChangeForm::New => Change::New(row_in(cell, keys)),
        ChangeForm::Again => Change::Again {
            row: row_in(cell, keys),
            former: former_in(cell),
        },
        ChangeForm::Dropped => Change::Dropped,
        ChangeForm::Whole => whole[cell.low as usize],
    }
}

fn row_in(cell: &ChangeCell, keys: &[KeyText]) -> Row
    requires { IsRowHeld (length keys.now) cell.now }
    ensures { result ≡ row_of keys.now cell.now }
{
    Row {
        window: cell.window,
        key: keys[cell.place as usize],
        low: cell.low,
        high: cell.low + cell.span as u64,
        number: cell.number as u64,
        shown: widened(cell.shown, cell.value, cell.number),
    }
}

fn former_in(cell: &ChangeCell) -> Former
    ensures { result ≡ former_of cell.now }
{
    Former {
        number: cell.former_number as u64,
        shown: widened(cell.former_shown, cell.former_value, cell.former_number),
    }
}
