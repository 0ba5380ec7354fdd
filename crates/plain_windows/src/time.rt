ghost use Rattle.std.specs.Prelude.{◌≤◌};
ghost use Rattle.stream_base.specs.declared.limits.TheConstants.{TIME_MAX};

/// The time of a tuple, within the limit of times.
#[derive(Clone, Copy)]
pub struct EventTime {
    pub time: u64,
    ghost within: { time ≤ TIME_MAX },
}
