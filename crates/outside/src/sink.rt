ghost use Rattle.std.specs.Prelude.{◌≡◌, ◌≤◌, ◌<◌, ◌++◌, ℕ, List, length, take, IfOk, OnOk, OnErr};
ghost use Rattle.outside.specs.Outside.{Rose};

use crate::source::Failed;

/// Where bytes are written, piece by piece.
pub trait Sink {
    // The bytes that were taken so far, in order.
    ghost taken: { Self → List ℕ };

    // How many writes have failed.
    ghost faults: { Self → ℕ };

    /// Takes bytes from the front of `bytes`, at least one where there are any, and answers how
    /// many. A failed write takes none.
    fn write(&mut self, bytes: &[u8]) -> Result<usize, Failed>
        ensures within { IfOk result (λ n. n ≤ length bytes.now) }
        ensures some { 0 < length bytes.now → IfOk result (λ n. 1 ≤ n) }
        ensures appended { IfOk result (λ n. taken self.new ≡ taken self.old ++ take n bytes.now) }
        ensures quiet { OnOk result (faults self.new ≡ faults self.old) }
        ensures failed { OnErr result (Rose (faults self.old) (faults self.new)) }
        ensures kept { OnErr result (taken self.new ≡ taken self.old) }
        ensures never_falls { faults self.old ≤ faults self.new };
}
