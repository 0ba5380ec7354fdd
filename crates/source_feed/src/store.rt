//! What takes the bytes of a source that is read whole.
ghost use Rattle.std.specs.Prelude.{◌≡◌, ◌<◌, ◌+◌, ◌^◌, ◌++◌, ℕ, List, length, OnOk};

use byte_pieces::Pieces;
use std::alloc::AllocError;

/// A place for bytes.
pub trait Store {
    // The bytes that it holds.
    ghost held: { Self → List ℕ };

    /// Puts bytes behind those that it holds.
    fn put(&mut self, bytes: &[u8]) -> Result<(), AllocError>
        requires { length (held self.old) + length bytes.now < 2 ^ 64 }
        ensures { OnOk result (held self.new ≡ held self.old ++ bytes.now) };
}

impl Store for Vec<u8> {
    ghost held = { λ bytes. bytes.items };

    fn put(&mut self, bytes: &[u8]) -> Result<(), AllocError> {
        self.extend_from_slice(bytes)
    }
}

impl Store for Pieces {
    ghost held = { λ bytes. bytes };

    fn put(&mut self, bytes: &[u8]) -> Result<(), AllocError> {
        self.add(bytes)
    }
}
