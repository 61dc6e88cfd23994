//! Where lines and words end.
ghost use Rattle.std.specs.Prelude.{◌≡◌, ◌≤◌, not, position, length, take, drop};
ghost use Rattle.std.specs.List.{list_all, position_or_len};
ghost use Rattle.er_lines.specs.Lines.{is_end, is_gap, is_ascii, is_comment, first_of, words, word_at, says_something, is_space, before_space, behind_space, AreWhole};

use memchr::{memchr, memrchr};
use std::simd::prelude::*;

/// How many bytes stand before the first LF, or before the end. One look at 64 bytes finds most LFs. A processor would guess the end of a loop wrongly.
#[inline(always)]
pub fn line_len(bytes: &[u8]) -> usize
    ensures { result ≡ position_or_len is_end bytes.now }
{
    if bytes.len() >= 64 {
        let ends = u8x64::from_slice(bytes).simd_eq(u8x64::splat(b'\n'));
        let len = ends.to_bitmask().trailing_zeros() as usize;
        if len < 64 {
            return len;
        }
    }
    memchr(b'\n', bytes).unwrap_or(bytes.len())
}

/// How many bytes the whole lines have: those up to the last LF.
pub fn whole_len(bytes: &[u8]) -> usize
    ensures bound { result ≤ length bytes.now }
    ensures whole { AreWhole (take result bytes.now) }
{
    match memrchr(b'\n', bytes) {
        Some(at) => at + 1,
        None => 0,
    }
}

pub fn is_ascii(bytes: &[u8]) -> bool
    ensures { result ≡ list_all is_ascii bytes.now }
{
    bytes.is_ascii()
}

/// Whether the first byte is a number sign.
pub fn is_comment(bytes: &[u8]) -> bool
    ensures { result ≡ is_comment bytes.now }
{
    matches!(bytes, [b'#', ..])
}

/// What stands before the first space, and what behind it: all of it and nothing if there is none.
pub fn split_at_space(bytes: &[u8]) -> (&[u8], &[u8])
    ensures before { result.0.now ≡ before_space bytes.now }
    ensures behind { result.1.now ≡ behind_space bytes.now }
{
    match bytes.iter().position(|byte| *byte == b' ') {
        Some(at) => (&bytes[..at], &bytes[at + 1..]),
        None => (bytes, &bytes[bytes.len()..]),
    }
}

/// How many bytes stand before the first gap, or before the end.
fn word_len(bytes: &[u8]) -> usize
    ensures place { result ≡ position_or_len is_gap bytes.now }
    ensures bound { result ≤ length bytes.now }
{
    if bytes.len() >= 16 {
        let block = u8x16::from_slice(bytes);
        let gaps = block.simd_eq(u8x16::splat(b' ')) | block.simd_eq(u8x16::splat(b'\t'));
        let len = gaps.to_bitmask().trailing_zeros() as usize;
        if len < 16 {
            return len;
        }
    }
    let gap = bytes.iter().position(|byte| matches!(*byte, b' ' | b'\t'));
    gap.unwrap_or(bytes.len())
}

/// How many gaps stand in front.
fn gap_len(bytes: &[u8]) -> usize
    ensures place { result ≡ position_or_len (λ byte. not (is_gap byte)) bytes.now }
    ensures bound { result ≤ length bytes.now }
{
    let word = bytes.iter().position(|byte| !matches!(*byte, b' ' | b'\t'));
    word.unwrap_or(bytes.len())
}

/// The first word, which is empty where there is none, and what follows it.
pub fn next_word(bytes: &[u8]) -> (&[u8], &[u8])
    ensures word { result.0.now ≡ first_of (words bytes.now) }
    ensures rest { words result.1.now ≡ drop 1 (words bytes.now) }
{
    let rest = &bytes[gap_len(bytes)..];
    rest.split_at(word_len(rest))
}

/// Whether a line whose first word is this one is neither blank nor a comment.
pub fn says_something(first: &[u8], line: &[u8]) -> bool
    requires { first.now ≡ word_at 0 (words line.now) }
    ensures { result ≡ says_something line.now }
{
    !first.is_empty() && !is_comment(line)
}
