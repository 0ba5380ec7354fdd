//! The numbers, times, values and keys that a text spells, read loosely: whoever reads them spells
//! them again.
ghost use Rattle.std.specs.Prelude.{◌≡◌, ◌+◌, ◌-◌, ◌*◌, ◌^◌, min, negsuc, pos, false, IfSome, IfNone, nat_le};
ghost use Rattle.stream_base.specs.Key.{is_key};
ghost use Rattle.stream_base.specs.Limits.{is_value};
ghost use Rattle.stream_base.specs.Model.Journals.{number_in, signed_in};
ghost use Rattle.stream_base.specs.declared.limits.TheConstants.{TIME_MAX};

use stream_base::{KeyText, TIME_MAX};

/// The number that digits spell. The greatest number of 64 bits stands for any beyond it too.
pub fn number_in(digits: &[u8]) -> u64
    ensures { result ≡ min (number_in digits.now) u64.MAX }
{
    let mut number = 0;
    for digit in digits {
        number = with_digit(number, *digit);
    }
    number
}

fn with_digit(number: u64, digit: u8) -> u64
    ensures { result ≡ min (10 * number + (digit - 48)) u64.MAX }
{
    number
        .saturating_mul(10)
        .saturating_add(digit.saturating_sub(48) as u64)
}

/// The time that digits spell, unless it is beyond its limit.
pub fn time_in(digits: &[u8]) -> Option<u64>
    ensures some { IfSome result (λ time. time ≡ number_in digits.now) }
    ensures none { IfNone result (nat_le (number_in digits.now) TIME_MAX ≡ false) }
{
    let time = number_in(digits);
    if time <= TIME_MAX { Some(time) } else { None }
}

/// The value that digits spell, maybe with a sign in front, unless it is beyond its limits.
pub fn value_in(text: &[u8]) -> Option<i64>
    ensures some { IfSome result (λ value. value ≡ signed_in text.now) }
    ensures none { IfNone result (is_value (signed_in text.now) ≡ false) }
{
    if !text.is_empty() && text[0] == 45 {
        negative(number_in(&text[1..]))
    } else {
        positive(number_in(text))
    }
}

fn positive(number: u64) -> Option<i64>
    ensures some { IfSome result (λ value. value ≡ pos number) }
    ensures none { IfNone result (nat_le number (2 ^ 63 - 1) ≡ false) }
{
    if number <= i64::MAX as u64 {
        Some(number as i64)
    } else {
        None
    }
}

fn negative(number: u64) -> Option<i64>
    ensures some { IfSome result (λ value. value ≡ negsuc (number - 1)) }
    ensures none { IfNone result (nat_le (number - 1) (2 ^ 63 - 1) ≡ false) }
{
    let below = number.saturating_sub(1);
    if below <= i64::MAX as u64 {
        Some(-1 - (below as i64))
    } else {
        None
    }
}

/// The key of these bytes, if they are one.
pub fn key_in(text: &[u8]) -> Option<KeyText>
    ensures some { IfSome result (λ key. key ≡ text.now) }
    ensures none { IfNone result (is_key text.now ≡ false) }
{
    match KeyText::from_bytes(text) {
        Ok(key) => Some(key),
        Err(_) => None,
    }
}
