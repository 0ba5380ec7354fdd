ghost use Rattle.std.specs.Prelude.{◌≡◌, ◌↔◌, ◌≤◌, ◌<◌, ℕ, List, length, IfOk, OnOk, IsErrOf, IfErr, Some, None, nat_eq, refl, ◌++◌};
ghost use Rattle.std.specs.Ordering.{nat_cmp};
ghost use Rattle.std.specs.Cmp.Lexicographic.{pointwise, slice_cmp, nat_list_eq_equiv, nat_list_cmp_total, texts_ties, texts_po};
ghost use Rattle.std.specs.Cmp.{partial_equiv_from_equiv};
ghost use Rattle.std.specs.List.{list_any};
ghost use Rattle.stream_base.specs.Key.{IsKey, key_fault, zero_padded, is_control};

use crate::limits::KEY_MAX;
use std::alloc::AllocError;
use std::cmp::Ordering;
use std::error::Error;
use std::fmt;
use std::marker::Model;

/// A key of 1 to 64 bytes, none of them a control character. Keys are ordered by their bytes, and a
/// contract sees a key as the list of its bytes.
pub struct KeyText {
    cells: [u8; KEY_MAX],
    len: u8,
}

impl Model for KeyText {
    ghost use Rattle.std.specs.Prelude.{ℕ, List};

    ghost Value = { List ℕ };

    ghost use Rattle.stream_base.specs.KeyCells.{bytes_of, IsPadded, cells_of, cells_of-bytes};

    ghost view = { bytes_of };

    ghost invariant = { IsPadded };

    ghost inverse = { cells_of };

    ghost inverse_ok = { cells_of-bytes };
}

/// Why bytes are no key.
#[derive(Clone, Copy, Debug, PartialEq, Eq)]
pub enum KeyFault {
    /// There are none, or more than 64.
    Length,
    /// The length is right, and one is below 0x20 or is 0x7F.
    Control,
}

impl KeyText {
    /// The key of these bytes.
    pub fn from_bytes(bytes: &[u8]) -> Result<KeyText, KeyFault>
        ensures ok { IfOk result (λ key. key ≡ bytes.now) }
        ensures valid { OnOk result (key_fault bytes.now ≡ None) }
        ensures refused { IfErr result (λ fault. key_fault bytes.now ≡ Some fault) }
    {
        if bytes.is_empty() || bytes.len() > KEY_MAX {
            return Err(KeyFault::Length);
        }
        if has_control(bytes) {
            return Err(KeyFault::Control);
        }
        Ok(KeyText {
            cells: padded(bytes),
            len: bytes.len() as u8,
        })
    }

    /// The bytes of the key.
    pub fn bytes(&self) -> &[u8]
        ensures value { result.now ≡ self.now }
        ensures valid { IsKey self.now }
    {
        &self.cells[..self.len as usize]
    }
}

fn has_control(bytes: &[u8]) -> bool
    ensures { result ≡ list_any is_control bytes.now }
{
    bytes.iter().any(|byte| *byte < 0x20 || *byte == 0x7F)
}

fn padded(bytes: &[u8]) -> [u8; KEY_MAX]
    requires { length bytes.now ≤ 64 }
    ensures { result ≡ zero_padded bytes.now }
{
    let mut cells = [0; KEY_MAX];
    cells[..bytes.len()].copy_from_slice(bytes);
    cells
}

impl Clone for KeyText {
    ghost is_clone = { λ key copy. copy ≡ key };

    fn clone(&self) -> Result<KeyText, AllocError> {
        Ok(*self)
    }
}

impl Copy for KeyText {}

impl PartialEq for KeyText {
    ghost eq = { pointwise nat_eq };

    ghost laws = { partial_equiv_from_equiv nat_list_eq_equiv };

    fn eq(&self, other: &KeyText) -> bool {
        self.bytes() == other.bytes()
    }
}

impl Eq for KeyText {
    ghost laws = { nat_list_eq_equiv };
}

impl PartialOrd for KeyText {
    ghost partial_cmp = { λ x y. Some (slice_cmp nat_cmp x y) };

    ghost laws = { texts_po };

    fn partial_cmp(&self, other: &KeyText) -> Option<Ordering> {
        Some(self.cmp(other))
    }
}

impl Ord for KeyText {
    ghost cmp = { slice_cmp nat_cmp };

    ghost total = { nat_list_cmp_total };

    ghost matches_partial_cmp = { λ x y. refl };

    ghost matches_eq = { texts_ties };

    fn cmp(&self, other: &KeyText) -> Ordering {
        self.bytes().cmp(other.bytes())
    }
}

impl fmt::Debug for KeyText {
    fn fmt<W: fmt::Write>(&self, f: &mut fmt::Formatter<W>) -> fmt::Result {
        self.bytes().fmt(f)
    }
}

impl fmt::Display for KeyFault {
    fn fmt<W: fmt::Write>(&self, f: &mut fmt::Formatter<W>) -> fmt::Result {
        f.write_str(match self {
            KeyFault::Length => "a key has 1 to 64 bytes",
            KeyFault::Control => "a key has no control characters",
        })
    }
}

impl Error for KeyFault {}
