ghost use Rattle.std.specs.Prelude.{◌≡◌, IfSome};
ghost use Rattle.compact_log.specs.ChangeCells.{shown_of};

use crate::short::short_value;
use crate::shown_form::ShownForm;
use stream_base::Shown;

// A shown value in few bytes.
#[derive(Clone, Copy)]
pub(crate) struct ShownCell {
    pub(crate) value: i64,
    pub(crate) form: ShownForm,
}

// The cell of a value that is shown of so many tuples, if it fits.
pub(crate) fn narrowed(shown: &Shown, number: u64) -> Option<ShownCell>
    ensures { IfSome result (λ cell. shown_of cell.form cell.value number ≡ shown.now) }
{
    match *shown {
        Shown::Whole(value) => Some(ShownCell {
            value: short_value(value)?,
            form: ShownForm::Whole,
        }),
        Shown::Ratio { sum, count } if count == number => Some(ShownCell {
            value: short_value(sum)?,
            form: ShownForm::Ratio,
        }),
        Shown::Ratio { .. } => None,
    }
}

// The value that such a cell tells.
pub(crate) fn widened(form: ShownForm, value: i64, number: u32) -> Shown
    ensures { result ≡ shown_of form value number }
{
    match form {
        ShownForm::Whole => Shown::Whole(value as i128),
        ShownForm::Ratio => Shown::Ratio {
            sum: value as i128,
            count: number as u64,
        },
    }
}
