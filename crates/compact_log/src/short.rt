ghost use Rattle.std.specs.Prelude.{◌≡◌, IfSome};

// A number in 4 bytes, if it fits.
#[tactic(auto, using(crate::proofs::Converted::of_converted))]
pub(crate) fn short(number: u64) -> Option<u32>
    ensures { IfSome result (λ n. n ≡ number) }
{
    u32::try_from(number).ok()
}

// A value in 8 bytes, if it fits.
#[tactic(auto, using(crate::proofs::Converted::of_converted))]
pub(crate) fn short_value(value: i128) -> Option<i64>
    ensures { IfSome result (λ v. v ≡ value) }
{
    i64::try_from(value).ok()
}
