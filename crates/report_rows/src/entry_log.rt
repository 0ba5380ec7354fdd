ghost use Rattle.std.specs.Prelude.{◌≡◌, ◌++◌, ◌∷◌, []};
ghost use Rattle.report_rows.specs.EntryLogs.{entries_in};

use std::snapshot::Snapshot;
use stream_base::Entry;

/// Entries in order, as contracts see them. At run time it is one byte.
#[derive(Drop)]
pub enum EntryLog {
    Start,
    After(Snapshot<EntryLog>, Snapshot<Entry>),
}

/// The log with one entry more.
pub fn with_entry(log: &EntryLog, entry: &Entry) -> EntryLog
    ensures { entries_in result ≡ entries_in log.now ++ entry.now ∷ [] }
{
    EntryLog::After(Snapshot::of(log), Snapshot::of(entry))
}
