//! The numbers that a text spells, read loosely: whoever reads them spells them again.
ghost use Rattle.std.specs.List.{list_any};
ghost use Rattle.std.specs.Prelude.{◌≡◌, ◌==◌, ◌+◌, ◌-◌, ◌*◌, ◌^◌, min, negsuc, pos, false, IfSome, IfNone, nat_lt};
ghost use Rattle.stream_base.specs.Model.Journals.{number_in, signed_in};
ghost use Rattle.row_laws.specs.Fitting.{is_shown_fit, is_wide};
ghost use Rattle.row_laws.specs.Reading.{end_in, ratio_in, shown_in};
ghost use Rattle.stream_base.specs.declared.shown.Shown.TheVariants.{Whole};

use report_lines::split_at;
use stream_base::{FINAL, Shown};

// The number that digits spell. The greatest number of 128 bits stands for any beyond it too.
fn wide_in(digits: &[u8]) -> u128
    ensures { result ≡ min (number_in digits.now) u128.MAX }
{
    let mut number = 0;
    for digit in digits {
        number = with_digit(number, *digit);
    }
    number
}

fn with_digit(number: u128, digit: u8) -> u128
    ensures { result ≡ min (10 * number + (digit - 48)) u128.MAX }
{
    number
        .saturating_mul(10)
        .saturating_add(digit.saturating_sub(48) as u128)
}

/// The number that digits spell, unless it is beyond 64 bits.
pub fn exact_number(digits: &[u8]) -> Option<u64>
    ensures some { IfSome result (λ n. n ≡ number_in digits.now) }
    ensures none { IfNone result (nat_lt (number_in digits.now) (2 ^ 64) ≡ false) }
{
    let number = wide_in(digits);
    if number <= u64::MAX as u128 {
        Some(number as u64)
    } else {
        None
    }
}

/// The window that digits spell, unless it is beyond 32 bits.
pub fn window_in(digits: &[u8]) -> Option<u32>
    ensures some { IfSome result (λ n. n ≡ number_in digits.now) }
    ensures none { IfNone result (nat_lt (number_in digits.now) (2 ^ 32) ≡ false) }
{
    let number = wide_in(digits);
    if number <= u32::MAX as u128 {
        Some(number as u32)
    } else {
        None
    }
}

/// The end that a text shows, unless it is beyond 64 bits.
pub fn end_in(text: &[u8]) -> Option<u64>
    ensures some { IfSome result (λ n. n ≡ end_in text.now) }
    ensures none { IfNone result (nat_lt (end_in text.now) (2 ^ 64) ≡ false) }
{
    if text == b"end".as_slice() {
        Some(FINAL)
    } else {
        exact_number(text)
    }
}

// The number that digits spell, maybe with a sign in front, unless it is beyond 128 bits.
fn signed_in(text: &[u8]) -> Option<i128>
    ensures some { IfSome result (λ value. value ≡ signed_in text.now) }
    ensures none { IfNone result (is_wide (signed_in text.now) ≡ false) }
{
    if !text.is_empty() && text[0] == 45 {
        negative(wide_in(&text[1..]))
    } else {
        positive(wide_in(text))
    }
}

fn positive(number: u128) -> Option<i128>
    ensures some { IfSome result (λ value. value ≡ pos number) }
    ensures none { IfNone result (nat_lt number (2 ^ 127) ≡ false) }
{
    if number <= i128::MAX as u128 {
        Some(number as i128)
    } else {
        None
    }
}

fn negative(number: u128) -> Option<i128>
    ensures some { IfSome result (λ value. value ≡ negsuc (number - 1)) }
    ensures none { IfNone result (nat_lt (number - 1) (2 ^ 127) ≡ false) }
{
    let below = number.saturating_sub(1);
    if below <= i128::MAX as u128 {
        Some(-1 - (below as i128))
    } else {
        None
    }
}

/// The value that a text shows, unless a number in it is beyond its bits.
pub fn shown_in(text: &[u8]) -> Option<Shown>
    ensures some { IfSome result (λ shown. shown ≡ shown_in text.now) }
    ensures none { IfNone result (is_shown_fit (shown_in text.now) ≡ false) }
{
    if has_slash(text) {
        ratio_in(text)
    } else {
        whole_in(text)
    }
}

fn has_slash(text: &[u8]) -> bool
    ensures { result ≡ list_any (λ byte. byte == 47) text.now }
{
    text.iter().any(|byte| *byte == 47)
}

fn whole_in(text: &[u8]) -> Option<Shown>
    ensures some { IfSome result (λ shown. shown ≡ Whole (signed_in text.now)) }
    ensures none { IfNone result (is_wide (signed_in text.now) ≡ false) }
{
    match signed_in(text) {
        Some(number) => Some(Shown::Whole(number)),
        None => None,
    }
}

fn ratio_in(text: &[u8]) -> Option<Shown>
    ensures some { IfSome result (λ shown. shown ≡ ratio_in text.now) }
    ensures none { IfNone result (is_shown_fit (ratio_in text.now) ≡ false) }
{
    let (sum, count) = split_at(text, 47);
    let sum = signed_in(sum)?;
    let count = exact_number(count)?;
    Some(Shown::Ratio { sum, count })
}
