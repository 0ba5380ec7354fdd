ghost use Rattle.std.specs.Prelude.{◌≡◌, ◌++◌, ◌∷◌, []};
ghost use Rattle.fan_in.specs.NumberLogs.{numbers_in};

use std::snapshot::Snapshot;

/// Numbers in order, as contracts see them. At run time it is one byte.
#[derive(Drop)]
pub enum NumberLog {
    Start,
    After(Snapshot<NumberLog>, Snapshot<u64>),
}

/// The log with one number more.
pub fn with_number(log: &NumberLog, number: u64) -> NumberLog
    ensures { numbers_in result ≡ numbers_in log.now ++ number ∷ [] }
{
    NumberLog::After(Snapshot::of(log), Snapshot::of(&number))
}
