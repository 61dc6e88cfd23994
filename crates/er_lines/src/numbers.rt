//! The numbers that words write, and the digits that write a number.
ghost use Rattle.std.specs.Prelude.{◌≡◌, ◌++◌, ◌<◌, ◌≤◌, OnOk, decimal};
ghost use Rattle.std.specs.Char.{digit_char, digit_value};
ghost use Rattle.er_lines.specs.Number.{hex_digits, number_of, value_in};

use crate::classes::class_of;
use itoa::Buffer;
use std::alloc::AllocError;

/// The value of a digit, or 36.
#[inline(always)]
fn digit_value(byte: u8) -> u64
    ensures { result ≡ digit_value byte }
{
    u64::from(class_of(byte).min(36))
}

/// The number that the digits write, where there is a digit, each is one, and it is small enough.
#[inline(always)]
pub fn value_in(radix: u64, digits: &[u8]) -> Option<u64>
    requires low { 2 ≤ radix }
    requires high { radix ≤ 36 }
    ensures { result ≡ value_in radix digits.now }
{
    if digits.is_empty() {
        return None;
    }
    let mut value = 0u64;
    for byte in digits {
        let digit = digit_value(*byte);
        if digit >= radix {
            return None;
        }
        value = value.checked_mul(radix)?.checked_add(digit)?;
    }
    Some(value)
}

/// The number that a word writes, below 2^64.
pub fn number_of(word: &[u8]) -> Option<u64>
    ensures { result ≡ number_of word.now }
{
    match word {
        [b'0', b'x', digits @ ..] => value_in(16, digits),
        _ => value_in(10, word),
    }
}

/// Puts a number in decimal, without leading zeros.
#[inline]
pub fn put_number(out: &mut Vec<u8>, n: u64) -> Result<(), AllocError>
    ensures { OnOk result (out.new.items ≡ out.old.items ++ decimal n) }
{
    let mut digits = Buffer::new();
    out.extend_from_slice(digits.format(n).as_bytes())
}

/// Puts the last hexadecimal digits of a number, as many as `count`.
pub fn put_hex(out: &mut Vec<u8>, count: u32, n: u64) -> Result<(), AllocError>
    ensures { OnOk result (out.new.items ≡ out.old.items ++ hex_digits count n) }
{
    if count == 0 {
        return Ok(());
    }
    put_hex(out, count - 1, n / 16)?;
    out.push(hex_digit((n % 16) as u8))?;
    Ok(())
}

/// The hexadecimal digit of a number below 16, in lower case.
pub fn hex_digit(digit: u8) -> u8
    requires { digit < 16 }
    ensures { result ≡ digit_char digit }
{
    if digit < 10 {
        b'0' + digit
    } else {
        b'a' + (digit - 10)
    }
}
