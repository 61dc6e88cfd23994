//! How far runs of words reach.
ghost use Rattle.std.specs.Prelude.{◌≡◌, ℕ, ◌+◌, ◌<◌, ◌≤◌, length, cond, max, nat_le, IfOk, IsTrue, IsFalse};
ghost use Rattle.er_rules.specs.Inner.Reach.{end_at, word_at, AreInOrder};

use crate::rules::WordSpan;
use std::alloc::{AllocError, Global};
use std::marker::Model;

/// A word at which a run begins, and the word behind those of all runs that begin up to there.
#[derive(Clone, Copy)]
pub(crate) struct Border {
    pub(crate) word: u64,
    pub(crate) end: u64,
}

/// How far some runs of words reach, by where they begin: borders in the order of their words. Contracts see the list.
#[derive(Drop)]
pub(crate) struct Reach {
    borders: Vec<Border>,
}

impl Model for Reach {
    ghost use Rattle.std.specs.Prelude.{List};
    ghost use Rattle.er_rules.specs.declared.reach.Border.{Border};
    ghost use Rattle.er_rules.specs.Inner.Reach.{AreInOrder};

    ghost Value = { List Border };

    ghost view = { λ r. r.borders.items };

    ghost invariant = { λ r. AreInOrder r.borders.items };
}

impl Reach {
    /// How far one run reaches.
    pub(crate) fn of_words(alloc: Global, words: &WordSpan) -> Result<Reach, AllocError>
        ensures { IfOk result (λ reach. (w : ℕ) → end_at reach w ≡ cond (nat_le words.now.first w) (words.now.last + 1) 0) }
    {
        let mut borders = Vec::new(alloc);
        borders.push(Border {
            word: words.first.number(),
            end: words.last.number() + 1,
        })?;
        Ok(Reach { borders })
    }

    /// The word behind those of all runs that begin up to a word, and 0 if none does.
    pub(crate) fn end_at(&self, word: u64) -> u64
        ensures { result ≡ end_at self.now word }
    {
        let borders = self.borders.as_slice();
        let count = borders.partition_point(|border| border.word <= word);
        if count == 0 {
            0
        } else {
            borders[count - 1].end
        }
    }

    /// How far the runs of both reach.
    pub(crate) fn over(alloc: Global, first: &Reach, second: &Reach) -> Result<Reach, AllocError>
        ensures { IfOk result (λ reach. (w : ℕ) → end_at reach w ≡ max (end_at first.now w) (end_at second.now w)) }
    {
        Ok(Reach {
            borders: overlaid(alloc, first.borders.as_slice(), second.borders.as_slice())?,
        })
    }
}

// Whether the next border of the first list comes before that of the second.
fn is_first_next(first: &[Border], i: usize, second: &[Border], j: usize) -> bool
    requires first { i ≤ length first.now }
    requires second { j ≤ length second.now }
    requires some { i + j < length first.now + length second.now }
    ensures left { IsTrue result → i < length first.now }
    ensures order { IsTrue result → j < length second.now → word_at first.now i ≤ word_at second.now j }
    ensures right { IsFalse result → j < length second.now }
    ensures later { IsFalse result → i < length first.now → word_at second.now j ≤ word_at first.now i }
{
    if i == first.len() {
        return false;
    }
    j == second.len() || first[i].word <= second[j].word
}

// The border at which the runs of both lists come together.
fn border_of(word: u64, earlier: u64, later: u64) -> Border
    ensures word { result.word ≡ word }
    ensures end { result.end ≡ max earlier later }
{
    Border {
        word,
        end: earlier.max(later),
    }
}

fn overlaid(alloc: Global, first: &[Border], second: &[Border]) -> Result<Vec<Border>, AllocError>
    requires first { AreInOrder first.now }
    requires second { AreInOrder second.now }
    ensures order { IfOk result (λ borders. AreInOrder borders.items) }
    ensures ends { IfOk result (λ borders. (w : ℕ) → end_at borders.items w ≡ max (end_at first.now w) (end_at second.now w)) }
{
    let count = first.len() + second.len();
    let mut borders = Vec::with_capacity(alloc, count)?;
    let (mut i, mut j) = (0, 0);
    let (mut earlier, mut later) = (0, 0);
    for taken in 0..count {
        if is_first_next(first, i, second, j) {
            earlier = first[i].end;
            borders.push(border_of(first[i].word, earlier, later))?;
            i += 1;
        } else {
            later = second[j].end;
            borders.push(border_of(second[j].word, earlier, later))?;
            j += 1;
        }
    }
    Ok(borders)
}
