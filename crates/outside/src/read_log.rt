ghost use Rattle.std.specs.Prelude.{◌≡◌, ◌≤◌, length, take};
ghost use Rattle.outside.specs.Outside.{HasFailed, nothing_read, with_read};
ghost use Rattle.outside.specs.ReadLogs.{reads_of};

use crate::byte_log::ByteLog;
use crate::name_log::NameLog;
use std::snapshot::Snapshot;

/// What was read of a source, as contracts see it. At run time it is whether the end was seen, and
/// how many reads have failed.
#[derive(Drop)]
pub struct ReadLog {
    pub(crate) before: Snapshot<NameLog>,
    pub(crate) given: ByteLog,
    pub(crate) ended: bool,
    pub(crate) faults: u64,
}

impl ReadLog {
    /// Nothing was read yet, of a source that came from no open.
    pub fn start() -> ReadLog
        ensures { reads_of result ≡ nothing_read 0 }
    {
        ReadLog {
            before: Snapshot::of(&NameLog::Start),
            given: ByteLog::new(),
            ended: false,
            faults: 0,
        }
    }

    /// A read into `buf` gave its first `n` bytes.
    pub fn gave(&mut self, buf: &[u8], n: usize)
        requires { n ≤ length buf.now }
        ensures { reads_of self.new
            ≡ with_read (length buf.now) (take n buf.now) (reads_of self.old) }
    {
        self.given.add(&buf[..n]);
        if !buf.is_empty() {
            self.ended = n == 0;
        }
    }

    /// A read failed.
    pub fn failed(&mut self)
        ensures { HasFailed (reads_of self.old) (reads_of self.new) }
    {
        self.faults = self.faults.saturating_add(1);
    }
}
