//! The complete intervals that hold a late tuple, as they show with it, where the order of values
//! makes no difference: no slice is looked at.
ghost use Rattle.std.specs.Prelude.{◌≡◌, ◌≤◌, ◌<◌, ◌+◌, ◌*◌, ◌++◌, [], ◌∷◌, true, length, ℕ};
ghost use Rattle.stream_base.specs.declared.limits.TheConstants.{TIME_MAX};
ghost use Rattle.stream_base.specs.Model.Functions.{shown_of};
ghost use Rattle.stream_base.specs.Vectors.{Adds, room};
ghost use Rattle.time_lanes.specs.Joined.{is_order_free, joined_change, shown_with};
ghost use Rattle.time_lanes.specs.Intervals.{told_joined};

use crate::late::Complete;
use crate::owner::Owner;
use crate::span::Span;
use stream_base::{Change, Former, Func, Row, Shown};

/// Whether a function shows the same of values in any order.
pub fn is_order_free(func: Func) -> bool
    ensures { result ≡ is_order_free func }
{
    match func {
        Func::Count | Func::Sum | Func::Min | Func::Max | Func::Mean => true,
        Func::First | Func::Last | Func::Rises | Func::Trace => false,
    }
}

/// Appends each with one value more than stood of it, without a fold.
pub fn append_joined(
    owner: Owner,
    span: &Span,
    complete: Complete,
    value: i64,
    formers: &[Option<Former>],
    out: &mut Vec<Change>,
)
    requires order_free { is_order_free owner.func ≡ true }
    requires early { (k : ℕ) → k < complete.count
        → (complete.first + k) * span.now.slide ≤ TIME_MAX }
    requires formers { complete.count ≤ length formers.now }
    requires spare { complete.count ≤ room out.old }
    ensures told { out.new.items
        ≡ out.old.items ++ told_joined owner.entry span.now value complete formers.now }
    ensures adds { Adds complete.count out.old out.new }
{
    for k in 0..complete.count {
        let low = (complete.first + k) * span.slide;
        let stood = formers[k as usize];
        out.push_reserved(joined(owner, low, low + span.length, value, stood));
    }
}

// The change of an interval by a value more than stood of it.
fn joined(owner: Owner, low: u64, high: u64, value: i64, former: Option<Former>) -> Change
    requires { is_order_free owner.func ≡ true }
    ensures { result ≡ joined_change owner.entry.window owner.entry.key.now owner.entry.func
        low high value former }
{
    let Some(former) = former else {
        return Change::New(Row {
            window: owner.window,
            key: *owner.key,
            low,
            high,
            number: 1,
            shown: shown_alone(owner.func, value),
        });
    };
    let number = former.number.wrapping_add(1);
    let row = Row {
        window: owner.window,
        key: *owner.key,
        low,
        high,
        number,
        shown: shown_with(owner.func, number, value, former.shown),
    };
    Change::Again { row, former }
}

// What is shown of one value.
fn shown_alone(func: Func, value: i64) -> Shown
    requires { is_order_free func ≡ true }
    ensures { result ≡ shown_of func (value ∷ []) }
{
    let value = i128::from(value);
    match func {
        Func::Count => Shown::Whole(1),
        Func::Sum => Shown::Whole(0_i128.wrapping_add(value)),
        Func::Mean => Shown::Ratio {
            sum: 0_i128.wrapping_add(value),
            count: 1,
        },
        _ => Shown::Whole(value),
    }
}

// What is shown with one value more, of so many then.
fn shown_with(func: Func, number: u64, value: i64, shown: Shown) -> Shown
    ensures { result ≡ shown_with func number value shown }
{
    let value = i128::from(value);
    match (func, shown) {
        (Func::Count, _) => Shown::Whole(i128::from(number)),
        (Func::Sum, Shown::Whole(sum)) => Shown::Whole(sum.wrapping_add(value)),
        (Func::Min, Shown::Whole(least)) => Shown::Whole(least.min(value)),
        (Func::Max, Shown::Whole(greatest)) => Shown::Whole(greatest.max(value)),
        (Func::Mean, Shown::Ratio { sum, .. }) => Shown::Ratio {
            sum: sum.wrapping_add(value),
            count: number,
        },
        (_, shown) => shown,
    }
}
