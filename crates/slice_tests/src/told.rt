//! What the tests of windows share: the changes that they expect, and how slices lie.
ghost use Rattle.std.specs.Prelude.{◌≤◌};
ghost use Rattle.agg_store.specs.Stored.{IsSliced};
ghost use Rattle.context_windows.specs.Aligned.{IsOfWindows};

use agg_laws::AggTree;
use agg_store::AggStore;
use aggregates::Bundle;
use slice_store::SliceStore;
use stream_base::{Change, Defs, Former, KeyText, Row, Shown};

// Keeps the steps of a test apart.
pub struct Work;

fn row(key: &KeyText, low: u64, high: u64, number: u64, sum: i128) -> Row {
    Row {
        window: 0,
        key: *key,
        low,
        high,
        number,
        shown: Shown::Whole(sum),
    }
}

pub fn gone(key: &KeyText, low: u64, high: u64, number: u64, sum: i128) -> Change {
    Change::Gone(row(key, low, high, number, sum))
}

pub fn new(key: &KeyText, low: u64, high: u64, number: u64, sum: i128) -> Change {
    Change::New(row(key, low, high, number, sum))
}

// An instance that held a tuple less before, with the sum of then.
pub fn again(key: &KeyText, low: u64, high: u64, number: u64, sum: i128, was: i128) -> Change
    requires { 1 ≤ number }
{
    let former = Former {
        number: number - 1,
        shown: Shown::Whole(was),
    };
    Change::Again {
        row: row(key, low, high, number, sum),
        former,
    }
}

// What the laws about slices ask of a store, from what the store and the definitions tell.
pub fn is_cut<T: AggTree<Bundle>>(defs: &Defs, store: &SliceStore<Bundle, T>)
    requires { IsSliced defs.now.windows store.now }
    ensures { IsOfWindows defs.now.windows store.now }
{
    let _windows = defs.windows();
    let _count = store.slice_count();
}
