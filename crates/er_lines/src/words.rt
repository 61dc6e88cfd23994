//! The words of a line.
ghost use Rattle.std.specs.Prelude.{◌≡◌};
ghost use Rattle.er_lines.specs.Lines.{words};
ghost use Rattle.er_lines.specs.Words.{AreWords, number_in};

use crate::bytes::next_word;
use crate::faults::TextKind;
use crate::numbers::number_of;

/// The first words of a line. One that is missing is empty.
#[derive(Clone, Copy)]
pub struct Words<'a> {
    pub first: &'a [u8],
    pub second: &'a [u8],
    pub third: &'a [u8],
    pub fourth: &'a [u8],
    pub fifth: &'a [u8],
    pub sixth: &'a [u8],
}

/// The first words of a line.
pub fn split_words(line: &[u8]) -> Words<'_>
    ensures { AreWords (words line.now) result }
{
    let (first, rest) = next_word(line);
    let (second, rest) = next_word(rest);
    let (third, rest) = next_word(rest);
    let (fourth, rest) = next_word(rest);
    let (fifth, rest) = next_word(rest);
    let (sixth, _) = next_word(rest);
    Words {
        first,
        second,
        third,
        fourth,
        fifth,
        sixth,
    }
}

/// The number that a word writes. `BadNumber`: it writes none below 2^64.
pub fn number(word: &[u8]) -> Result<u64, TextKind>
    ensures { result ≡ number_in word.now }
{
    number_of(word).ok_or(TextKind::BadNumber)
}
