ghost use Rattle.std.specs.Prelude.{◌≡◌, ◌++◌, ◌∷◌, [], ℕ, length};
ghost use Rattle.outside.specs.Outside.{back, nothing_read, out, refused, unasked, with_came};
ghost use Rattle.outside.specs.ReadLogs.{reads_of};
ghost use Rattle.outside.specs.FileLogs.{asked_of, came_of};

use crate::byte_log::ByteLog;
use crate::came_log::CameLog;
use crate::name_log::{NameLog, with_name};
use crate::read_log::ReadLog;
use std::snapshot::Snapshot;

/// What was opened, and what came back, as contracts see it. At run time it is two bytes.
#[derive(Drop)]
pub struct FileLog {
    pub(crate) names: NameLog,
    pub(crate) came: CameLog,
}

impl FileLog {
    /// Nothing was opened yet.
    pub fn start() -> FileLog
        ensures asked { asked_of result ≡ [] }
        ensures came { came_of result ≡ λ i. unasked }
    {
        FileLog {
            names: NameLog::Start,
            came: CameLog::Start,
        }
    }

    /// The source of this name was opened. Answers the log of what is read of it.
    pub fn opened(&mut self, name: &str) -> ReadLog
        ensures asked { asked_of self.new ≡ asked_of self.old ++ name.now ∷ [] }
        ensures came { (i : ℕ) → came_of self.new i
            ≡ with_came (length (asked_of self.old)) out (came_of self.old) i }
        ensures fresh { reads_of result ≡ nothing_read (length (asked_of self.old)) }
    {
        let log = ReadLog {
            before: Snapshot::of(&self.names),
            given: ByteLog::new(),
            ended: false,
            faults: 0,
        };
        self.came = CameLog::Opened(Snapshot::of(&self.came), Snapshot::of(&self.names));
        self.names = with_name(&self.names, name);
        log
    }

    /// The source of this name couldn't be opened.
    pub fn refused(&mut self, name: &str)
        ensures asked { asked_of self.new ≡ asked_of self.old ++ name.now ∷ [] }
        ensures came { (i : ℕ) → came_of self.new i
            ≡ with_came (length (asked_of self.old)) refused (came_of self.old) i }
    {
        self.came = CameLog::Refused(Snapshot::of(&self.came), Snapshot::of(&self.names));
        self.names = with_name(&self.names, name);
    }

    /// A source came back, of which this was read.
    pub fn returned(&mut self, log: &ReadLog)
        ensures asked { asked_of self.new ≡ asked_of self.old }
        ensures came { let reads = reads_of log.now in
            (i : ℕ) → came_of self.new i ≡ with_came reads.place (back reads) (came_of self.old) i }
    {
        self.came = CameLog::Returned(Snapshot::of(&self.came), Snapshot::of(log));
    }
}
