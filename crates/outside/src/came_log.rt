use crate::name_log::NameLog;
use crate::read_log::ReadLog;
use std::snapshot::Snapshot;

/// What became of opens, each by the names that were asked for before. At run time it is one byte.
#[derive(Drop)]
pub enum CameLog {
    /// Nothing was opened yet.
    Start,
    /// The next name was opened.
    Opened(Snapshot<CameLog>, Snapshot<NameLog>),
    /// The next name was refused.
    Refused(Snapshot<CameLog>, Snapshot<NameLog>),
    /// A source came back.
    Returned(Snapshot<CameLog>, Snapshot<ReadLog>),
}
