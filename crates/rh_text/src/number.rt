//! Reads a number, or a whole number with a sign, from a part of a line.

ghost use Rattle.std.specs.Prelude.{◌≡◌};
ghost use Rattle.rh_text.specs.Number.{number_of, integer_of};

use itoa::Buffer;
use std::str;

/// The decimals of numbers below 2^32 have at most so many bytes.
const MAX_DIGITS: usize = 10;

/// The greatest number of 32 bits.
const MAX_READ_NUMBER: u64 = 4_294_967_295;

/// The number from 0 to 4,294,967,295 of which the part is the decimal.
pub fn read_number(part: &[u8]) -> Option<u32>
    ensures { result ≡ number_of part.now }
{
    if part.is_empty() {
        return None;
    }
    if part.len() > MAX_DIGITS {
        return None;
    }
    if part[0] == b'0' {
        return if part.len() == 1 { Some(0) } else { None };
    }
    let mut number = 0u64;
    for digit in part {
        if !digit.is_ascii_digit() {
            return None;
        }
        number = number * 10 + u64::from(*digit - b'0');
    }
    if number > MAX_READ_NUMBER {
        return None;
    }
    Some(number as u32)
}

/// The whole number of 64 bits with sign of which the part is the decimal.
pub fn read_integer(part: &[u8]) -> Option<i64>
    ensures { result ≡ integer_of part.now }
{
    let Ok(text) = str::from_utf8(part) else {
        return None;
    };
    let Ok(number) = text.parse::<i64>() else {
        return None;
    };
    let mut buffer = Buffer::new();
    if buffer.format(number).as_bytes() == part {
        Some(number)
    } else {
        None
    }
}
