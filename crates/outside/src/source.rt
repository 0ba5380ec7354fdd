ghost use Rattle.std.specs.Prelude.{◌≡◌, ◌≤◌, ℕ, List, Option, length, take, IfOk, IfSome, OnOk, OnErr};
ghost use Rattle.outside.specs.Outside.{HasFailed, KeepsWord, Reads, with_read};

use std::error::Error;
use std::fmt;

/// A call on the outside failed: a read, a write or an open.
#[derive(Clone, Copy, Debug, PartialEq, Eq)]
pub struct Failed;

impl fmt::Display for Failed {
    fn fmt<W: fmt::Write>(&self, f: &mut fmt::Formatter<W>) -> fmt::Result {
        f.write_str("the outside failed")
    }
}

impl Error for Failed {}

/// Bytes that are read piece by piece. A source isn't `Drop`: whoever opened it gives it back.
pub trait Source {
    // What was read of it so far.
    ghost reads: { Self → Reads };

    // The bytes that it gives up to its end, where it tells them.
    ghost told: { Self → Option (List ℕ) };

    /// Fills the front of `buf`, and answers how many bytes it gave. Zero bytes into a nonempty
    /// buffer are the end of the source. A failed read takes nothing away.
    fn read(&mut self, buf: &mut [u8]) -> Result<usize, Failed>
        ensures within { IfOk result (λ n. n ≤ length buf.old) }
        ensures gave { IfOk result (λ n.
            reads self.new ≡ with_read (length buf.old) (take n buf.new) (reads self.old)) }
        ensures failed { OnErr result (HasFailed (reads self.old) (reads self.new)) }
        ensures told { told self.new ≡ told self.old }
        ensures word { OnOk result (IfSome (told self.new) (KeepsWord (reads self.new))) };
}
