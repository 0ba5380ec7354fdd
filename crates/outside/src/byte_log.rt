//! Bytes that only contracts read.
ghost use Rattle.std.specs.Prelude.{◌≡◌, ◌++◌, ℕ, List, []};
ghost use Rattle.std.specs.Borrow.{ftrue};

use std::marker::{Model, PhantomData};

/// A list of bytes that only contracts see. A log has no size, and its calls do nothing at run time.
#[derive(Drop)]
pub struct ByteLog {
    marker: PhantomData<u8>,
    pub ghost bytes: { List ℕ },
}

impl Model for ByteLog {
    ghost also_owns = { λ _. ftrue };
}

impl ByteLog {
    /// The log with no bytes.
    pub fn new() -> ByteLog
        ensures { result.bytes ≡ [] }
    {
        ByteLog {
            marker: PhantomData,
        }
    }

    /// Puts these bytes behind those of the log.
    pub fn add(&mut self, _more: &[u8])
        ensures { self.new.bytes ≡ self.old.bytes ++ _more.now }
    {}
}
