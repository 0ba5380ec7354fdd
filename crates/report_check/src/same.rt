//! Entries that are alike.
ghost use Rattle.std.specs.Prelude.{◌≡◌, ◌↔◌, true};

use stream_base::{Entry, What};

/// Whether two entries are the same.
pub fn are_same(left: &Entry, right: &Entry) -> bool
    ensures { (result ≡ true) ↔ (left.now ≡ right.now) }
{
    left.source == right.source && say_the_same(&left.what, &right.what)
}

fn say_the_same(left: &What, right: &What) -> bool
    ensures { (result ≡ true) ↔ (left.now ≡ right.now) }
{
    *left == *right
}
