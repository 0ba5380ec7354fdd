ghost use Rattle.std.specs.Prelude.{◌≡◌, IfSome, IsTrue, Some, slice_get};

use crate::short::short;
use stream_base::KeyText;

// A place as few bytes, if the key stands there among these.
pub(crate) fn place_of(keys: &[KeyText], key: &KeyText, place: usize) -> Option<u32>
    ensures { IfSome result (λ p. slice_get keys.now p ≡ Some key.now) }
{
    if place < keys.len() && is_same(&keys[place], key) {
        short(place as u64)
    } else {
        None
    }
}

// Whether two keys are the same.
#[tactic(auto, using(crate::proofs::Converted::same_bytes))]
fn is_same(one: &KeyText, other: &KeyText) -> bool
    ensures { IsTrue result → one.now ≡ other.now }
{
    *one == *other
}
