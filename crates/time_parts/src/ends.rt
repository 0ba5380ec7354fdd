//! When something becomes complete next.
ghost use Rattle.std.specs.Prelude.{◌≡◌, ◌<◌, ◌≤◌, ◌-◌, ◌^◌};
ghost use Rattle.stream_base.specs.declared.limits.TheConstants.{FINAL};

use stream_base::FINAL;

// The end of the next instance, which is the final time where there is none: never, then.
pub fn end_or_never(end: u64) -> u64
    ensures some { end < FINAL → result ≡ end }
    ensures none { FINAL ≤ end → result ≡ 2 ^ 64 - 1 }
{
    if end < FINAL { end } else { u64::MAX }
}
