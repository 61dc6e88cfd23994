//! What each byte can be part of.
ghost use Rattle.std.specs.Prelude.{◌≡◌, ◌+◌, ◌<◌, ◌≤◌, nat_le, min, length, IsTrue, true};
ghost use Rattle.std.specs.List.{list_all};
ghost use Rattle.std.specs.Char.{digit_value};
ghost use Rattle.er_lines.specs.Naming.{is_name_byte, is_site_byte};
ghost use Rattle.er_lines.specs.Inner.Blocks.{AreNameBytes};

use std::simd::prelude::*;

/// Of each byte the value that it has as a digit, 36 where it is another byte of names, and 64 where it is no byte of
/// names. One look here is quicker than the comparisons that it stands for, since letters and digits come in no order.
static CLASSES: [u8; 256] = [
    64, 64, 64, 64, 64, 64, 64, 64, 64, 64, 64, 64, 64, 64, 64, 64, 64, 64, 64, 64, 64, 64, 64, 64,
    64, 64, 64, 64, 64, 64, 64, 64, 64, 64, 64, 64, 64, 64, 64, 64, 64, 64, 64, 64, 64, 36, 36, 36,
    0, 1, 2, 3, 4, 5, 6, 7, 8, 9, 36, 64, 64, 64, 64, 64, 64, 10, 11, 12, 13, 14, 15, 16, 17, 18,
    19, 20, 21, 22, 23, 24, 25, 26, 27, 28, 29, 30, 31, 32, 33, 34, 35, 64, 64, 64, 64, 36, 64, 10,
    11, 12, 13, 14, 15, 16, 17, 18, 19, 20, 21, 22, 23, 24, 25, 26, 27, 28, 29, 30, 31, 32, 33, 34,
    35, 64, 64, 64, 64, 64, 64, 64, 64, 64, 64, 64, 64, 64, 64, 64, 64, 64, 64, 64, 64, 64, 64, 64,
    64, 64, 64, 64, 64, 64, 64, 64, 64, 64, 64, 64, 64, 64, 64, 64, 64, 64, 64, 64, 64, 64, 64, 64,
    64, 64, 64, 64, 64, 64, 64, 64, 64, 64, 64, 64, 64, 64, 64, 64, 64, 64, 64, 64, 64, 64, 64, 64,
    64, 64, 64, 64, 64, 64, 64, 64, 64, 64, 64, 64, 64, 64, 64, 64, 64, 64, 64, 64, 64, 64, 64, 64,
    64, 64, 64, 64, 64, 64, 64, 64, 64, 64, 64, 64, 64, 64, 64, 64, 64, 64, 64, 64, 64, 64, 64, 64,
    64, 64, 64, 64, 64, 64, 64, 64, 64, 64, 64, 64, 64, 64,
];

/// The class of a byte: a digit's value, or 36 or more.
#[inline(always)]
pub fn class_of(byte: u8) -> u8
    ensures digit { result < 16 → result ≡ digit_value byte }
    ensures value { min result 36 ≡ digit_value byte }
    ensures name { nat_le result 36 ≡ is_name_byte byte }
{
    CLASSES[byte as usize]
}

/// A letter, a digit, or one of `_`, `.`, `:`, `/` and `-`.
#[inline(always)]
pub fn is_name_byte(byte: u8) -> bool
    ensures { result ≡ is_name_byte byte }
{
    class_of(byte) <= 36
}

/// A printable byte that is no space.
#[inline(always)]
pub fn is_site_byte(byte: u8) -> bool
    ensures { result ≡ is_site_byte byte }
{
    byte >= b'!' && byte <= b'~'
}

/// Whether the 16 bytes from a place on are bytes of names.
#[inline(always)]
fn is_name_block(bytes: &[u8], at: usize) -> bool
    requires { at + 16 ≤ length bytes.now }
    ensures { IsTrue result → AreNameBytes bytes.now at (at + 16) }
{
    let block = u8x16::from_slice(&bytes[at..]);
    // From `-` to `:` there are all digits and signs but `_`. The cases of a letter differ in one bit.
    let no_sign = (block - u8x16::splat(b'-')).simd_ge(u8x16::splat(14));
    let no_letter = ((block | u8x16::splat(0x20)) - u8x16::splat(b'a')).simd_ge(u8x16::splat(26));
    let no_underscore = block.simd_ne(u8x16::splat(b'_'));
    (no_sign & no_letter & no_underscore).to_bitmask() == 0
}

/// Whether all bytes are bytes of names, 16 at a time. The last 16 may overlap those before.
pub fn are_name_blocks(bytes: &[u8]) -> bool
    requires { 16 ≤ length bytes.now }
    ensures { IsTrue result → list_all is_name_byte bytes.now ≡ true }
{
    let last = bytes.len() - 16;
    let mut at = 0;
    while at < last {
        if !is_name_block(bytes, at) {
            return false;
        }
        at += 16;
    }
    is_name_block(bytes, last)
}
