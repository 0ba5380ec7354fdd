ghost use Rattle.std.specs.Prelude.{◌≡◌, ◌++◌, ◌∷◌, []};
ghost use Rattle.outside.specs.NameLogs.{names_in};

use crate::byte_log::ByteLog;
use std::snapshot::Snapshot;

/// Names in order, as contracts see them. At run time it is one byte.
#[derive(Drop)]
pub enum NameLog {
    Start,
    After(Snapshot<NameLog>, ByteLog),
}

/// The log with one name more.
pub fn with_name(log: &NameLog, name: &str) -> NameLog
    ensures { names_in result ≡ names_in log.now ++ name.now ∷ [] }
{
    let mut bytes = ByteLog::new();
    bytes.add(name.as_bytes());
    NameLog::After(Snapshot::of(log), bytes)
}
