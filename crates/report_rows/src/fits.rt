//! The numbers of a change fit their fields, by the types of these.
ghost use Rattle.std.specs.Prelude.{◌≡◌};
ghost use Rattle.row_laws.specs.Fitting.{is_change_fit, is_former_fit, is_row_fit, is_shown_fit, is_wide};

use stream_base::{Change, Former, Row, Shown};

/// Whether the numbers of a change fit: by their types they do.
pub fn change_fits(change: &Change) -> bool
    ensures { result ≡ is_change_fit change.now }
{
    match change {
        Change::Gone(row) => row_fits(row),
        Change::New(row) => row_fits(row),
        Change::Again { row, former } => row_fits(row) && former_fits(former),
        Change::Dropped => true,
    }
}

fn row_fits(row: &Row) -> bool
    ensures { result ≡ is_row_fit row.now }
{
    let _key = row.key.bytes();
    let _window = row.window;
    let _low = row.low;
    let _high = row.high;
    let _number = row.number;
    shown_fits(&row.shown)
}

fn former_fits(former: &Former) -> bool
    ensures { result ≡ is_former_fit former.now }
{
    let _number = former.number;
    shown_fits(&former.shown)
}

fn shown_fits(shown: &Shown) -> bool
    ensures { result ≡ is_shown_fit shown.now }
{
    match shown {
        Shown::Whole(number) => is_wide(*number),
        Shown::Ratio { sum, count } => {
            let _count = *count;
            is_wide(*sum)
        }
    }
}

fn is_wide(_number: i128) -> bool
    ensures { result ≡ is_wide _number }
{
    true
}
