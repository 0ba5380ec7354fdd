ghost use Rattle.std.specs.Prelude.{◌≡◌, ◌≤◌, IfOk};
ghost use Rattle.source_feed.specs.Record.{parse_number, time_in, value_in, from_zero, below_zero};

use crate::row_why::RowWhy;
use stream_base::TIME_MAX;

// A time: a number of at most 10^15.
pub fn time_in(text: &[u8]) -> Result<u64, RowWhy>
    ensures value { result ≡ time_in text.now }
    ensures within { IfOk result (λ time. time ≤ TIME_MAX) }
{
    match parse_number(text) {
        Some(number) if number <= TIME_MAX => Ok(number),
        _ => Err(RowWhy::Time),
    }
}

// A value: at most one sign, and then a number, from -2^63 to 2^63 - 1.
pub fn value_in(text: &[u8]) -> Result<i64, RowWhy>
    ensures { result ≡ value_in text.now }
{
    match text.split_first() {
        Some((b'-', digits)) => below_zero(parse_number(digits)),
        Some((b'+', digits)) => from_zero(parse_number(digits)),
        _ => from_zero(parse_number(text)),
    }
}

fn from_zero(number: Option<u64>) -> Result<i64, RowWhy>
    ensures { result ≡ from_zero number }
{
    match number {
        Some(number) if number < 1 << 63 => Ok(number as i64),
        _ => Err(RowWhy::Value),
    }
}

fn below_zero(number: Option<u64>) -> Result<i64, RowWhy>
    ensures { result ≡ below_zero number }
{
    match number {
        Some(number) if number <= 1 << 63 => Ok((-(number as i128)) as i64),
        _ => Err(RowWhy::Value),
    }
}

// The number that 1 to 19 digits spell.
fn parse_number(text: &[u8]) -> Option<u64>
    ensures { result ≡ parse_number text.now }
{
    if text.is_empty() || text.len() > 19 {
        return None;
    }
    let mut number = 0;
    'digits: for digit in text {
        if !digit.is_ascii_digit() {
            return None;
        }
        number = 10 * number + u64::from(*digit - b'0');
    }
    Some(number)
}
