//! The explanation of one access.
ghost use Rattle.std.specs.Prelude.{◌≡◌, ◌<◌, ◌≤◌, ◌↔◌, ℕ, IfOk, IfSome, IsNone, IsSome, Ok, Some, length, option_copied, slice_get};
ghost use Rattle.er_event.specs.Lockset.{IsRising};
ghost use Rattle.er_explain.specs.Book.{Joined, name_of};
ghost use Rattle.er_explain.specs.Books.{book_at, joining_of};
ghost use Rattle.er_explain.specs.Explaining.{explanation_at};
ghost use Rattle.er_explain.specs.Following.{cover_by};
ghost use Rattle.er_explain.specs.Naming.{named_book, named_joining};
ghost use Rattle.er_explain.specs.WordBooks.{book_in};
ghost use Rattle.er_model.specs.Answers.{answer, reading_of};
ghost use Rattle.er_model.specs.Explanations.{Explanation as Explained, Explains, locks_listed, word_of};

use crate::book::{Access, Joint};
use crate::{Explanation, Made, Uncovered, WordBooks};
use er_event::{Event, Lockset, Reply, Step, Word};
use er_held::{Held, ThreadLocks};
use er_keys::HashKeys;
use std::alloc::{AllocError, Global};

/// Why the step at place `k` of the list, from 0, is answered with a race, if it is. Its locks come in rising order. It goes over
/// the steps up to there once.
pub fn explain(alloc: Global, steps: &[Step], k: u64) -> Result<Option<Explanation>, AllocError>
    ensures explained { IfOk result (λ found. IfSome found (λ e. Explains steps.now e k × IsRising (locks_listed e.uncovered))) }
    ensures none { IfOk result (λ found. IsNone found → ¬ (answer steps.now k ≡ Ok Reply.Race)) }
    ensures value { IfOk result (λ found. found ≡ explanation_at steps.now k) }
{
    let Some(word) = word_at(steps, k) else {
        return Ok(None);
    };
    let place = k as usize;
    prove!(place < steps.len());
    let books = books_of(alloc, steps, place + 1)?;
    let found = told_of(alloc, &books, word)?;
    Ok(found.filter(|explanation| explanation.latest() == k))
}

fn word_at(steps: &[Step], place: u64) -> Option<Word>
    ensures word { result ≡ word_of (slice_get steps.now place) }
    ensures within { IsSome result → place < length steps.now }
{
    match steps.get(place as usize)?.event {
        Event::Access(_, word, _) => Some(word),
        _ => None,
    }
}

// What explains a race of a word, if its book has found all that it takes.
fn told_of(alloc: Global, books: &WordBooks<u64>, word: Word) -> Made<Option<Explanation>>
    ensures { IfOk result (λ found. (e : Explained) → (found ≡ Some e) ↔ (named_book name_of (book_in books.now word) ≡ Joined (joining_of e))) }
{
    match books.joining(word) {
        Some(joint) => told_by(alloc, joint),
        None => Ok(None),
    }
}

// What a joining says of a race, if it has found all that an explanation needs.
fn told_by(alloc: Global, joint: &Joint<Access<u64>>) -> Made<Option<Explanation>>
    ensures { IfOk result (λ found. (e : Explained) → (found ≡ Some e) ↔ (named_joining name_of joint.now ≡ joining_of e)) }
{
    let Some(write) = joint.write() else {
        return Ok(None);
    };
    let mut uncovered = Vec::with_capacity(alloc, joint.pairs().len())?;
    for pair in joint.pairs() {
        let Some(access) = pair.at else {
            return Ok(None);
        };
        uncovered.push(Uncovered {
            lock: pair.lock,
            at: access.at,
        })?;
    }
    Ok(Some(Explanation {
        first: joint.first().at,
        join: joint.join().at,
        write: write.at,
        uncovered,
    }))
}

// The books of all words after the first `end` steps.
fn books_of(alloc: Global, steps: &[Step], end: usize) -> Made<WordBooks<u64>>
    requires { end ≤ length steps.now }
    ensures { IfOk result (λ books. (w : ℕ) → named_book name_of (book_in books w) ≡ book_at (reading_of steps.now) w end) }
{
    let mut locks = ThreadLocks::new(alloc);
    let mut books = WordBooks::keyed(alloc, HashKeys::KNOWN);
    for (at, step) in steps[..end].iter().enumerate() {
        let cover = cover_in(locks.get(step.thread), step.event);
        books.follow(cover, at as u64, step)?;
        locks.follow(alloc, step)?;
    }
    Ok(books)
}

/// The locks that cover an access by a thread that holds this, if it counts.
pub fn cover_in(held: &Held, event: Event) -> Option<&Lockset>
    ensures { option_copied result ≡ cover_by held.now event }
{
    match event {
        Event::Access(kind, ..) if !held.ignoring() => Some(held.cover(kind)),
        _ => None,
    }
}
