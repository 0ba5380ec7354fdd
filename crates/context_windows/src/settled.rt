//! When what ends at a time is settled.
ghost use Rattle.std.specs.Prelude.{◌≡◌, ◌≤◌, ◌<◌, ◌+◌};
ghost use Rattle.stream_base.specs.declared.limits.TheConstants.{FINAL, TIME_MAX};

// The watermark by which what ends so is settled: at once where nothing is there to end, at 0.
pub fn settled_with(end: u64, lateness: u64) -> u64
    requires end { end ≤ FINAL }
    requires lateness { lateness ≤ TIME_MAX }
    ensures none { end ≡ 0 → result ≡ 0 }
    ensures some { 0 < end → result ≡ end + lateness }
{
    if end > 0 { end + lateness } else { 0 }
}
