//! The parts of a tuple of the generated input, by its index and by the number that is drawn for it.
ghost use Rattle.std.specs.Prelude.{◌≡◌, ◌≤◌, ◌<◌, ◌^◌, None};
ghost use Rattle.stream_base.specs.Key.{key_fault};
ghost use Rattle.stream_base.specs.declared.limits.TheConstants.{TIME_MAX};
ghost use Rattle.stream_base.specs.declared.what.What.TheVariants.{Tuple};
ghost use Rattle.source_feed.specs.Generated.{drawn_from, key_by, next_state, time_by, value_by};

use stream_base::{KeyText, What};

// The numbers of Knuth's linear congruential generator of 64 bits (MMIX).
pub const MULTIPLIER: u64 = 6_364_136_223_846_793_005;

pub const INCREMENT: u64 = 1_442_695_040_888_963_407;

// How many low bits of a state are left out of the number that is drawn.
const LOW: u64 = 1 << 33;

// The state behind a state of the generator.
pub fn next_state(state: u64) -> u64
    ensures { result ≡ next_state state }
{
    MULTIPLIER.wrapping_mul(state).wrapping_add(INCREMENT)
}

// The number that a state draws: its high bits, which are the better ones.
pub fn drawn_from(state: u64) -> u64
    ensures { result ≡ drawn_from state }
{
    state / LOW
}

// The time: indices are shuffled within each eight, and each has sixteen times of its own.
pub fn time_by(index: u64, drawn: u64) -> u64
    requires { index < 2 ^ 20 }
    ensures value { result ≡ time_by index drawn }
    ensures within { result ≤ TIME_MAX }
{
    16 * (index ^ (index / 8 % 8)) + drawn % 16
}

// The tuple of this key and time, with the value that is drawn.
pub fn tuple_by(key: KeyText, time: u64, drawn: u64) -> What
    ensures { result ≡ Tuple key time (value_by drawn) }
{
    let value = value_by(drawn);
    What::Tuple { key, time, value }
}

// The value, from -1,000 to 1,000.
fn value_by(drawn: u64) -> i64
    ensures { result ≡ value_by drawn }
{
    (drawn / 16 % 2_001) as i64 - 1_000
}

// The key, one of a hundred: a letter and one digit or two.
pub fn key_by(drawn: u64) -> KeyText
    ensures { result ≡ key_by drawn }
{
    let number = (drawn / 32_768 % 100) as u8;
    if number < 10 {
        return key_of(&[b'k', b'0' + number]);
    }
    key_of(&[b'k', b'0' + number / 10, b'0' + number % 10])
}

// The key of bytes that are one.
fn key_of(bytes: &[u8]) -> KeyText
    requires { key_fault bytes.now ≡ None }
    ensures { result ≡ bytes.now }
{
    KeyText::from_bytes(bytes).unwrap()
}
