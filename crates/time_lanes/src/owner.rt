//! What an interval shows, from the fold of its tuples.
ghost use Rattle.std.specs.Prelude.{◌≡◌, ◌<◌, ◌^◌, pos, ℕ};
ghost use Rattle.stream_base.specs.declared.func.Func.{Func};
ghost use Rattle.stream_base.specs.Model.Changes.{former_of};
ghost use Rattle.stream_base.specs.Model.Windows.{Instance};
ghost use Rattle.time_lanes.specs.Told.{ShowsInterval, former_if};
ghost use Rattle.time_lanes.specs.Folds.{WhereFolded};

use aggregates::Partial;
use stream_base::{Former, Func, KeyText, Row, Shown};

/// Whose rows are told: a window with its place among the definitions, and a key.
#[derive(Clone, Copy)]
pub struct Owner<'a> {
    pub window: u32,
    pub key: &'a KeyText,
    pub func: Func,
}

impl Owner<'_> {
    /// The row of an interval that shows this.
    pub fn row(&self, low: u64, high: u64, shown: Former) -> Row
        ensures { ShowsInterval self.now low high shown result }
    {
        Row {
            window: self.window,
            key: *self.key,
            low,
            high,
            number: shown.number,
            shown: shown.shown,
        }
    }
}

/// What an interval shows whose tuples come to this.
pub fn show<M: Partial>(func: Func, partial: &M) -> Former
    requires { M.serves func }
    ensures { WhereFolded M.of_values partial.now (λ i. result ≡ former_of func i) }
{
    Former {
        number: count_of(partial.show(Func::Count)),
        shown: partial.show(func),
    }
}

// The number that a count shows.
fn count_of(shown: Shown) -> u64
    ensures { (n : ℕ) → shown ≡ Shown.Whole (pos n) → n < 2 ^ 64 → result ≡ n }
{
    match shown {
        Shown::Whole(count) => u64::try_from(count).unwrap_or(0),
        Shown::Ratio { .. } => 0,
    }
}

/// What stood of an interval that shows this, if it held a tuple.
pub fn former(shown: Former) -> Option<Former>
    ensures { (func : Func) (i : Instance) → shown ≡ former_of func i
        → result ≡ former_if func i }
{
    if shown.number == 0 {
        return None;
    }
    Some(shown)
}
