//! A shard.
ghost use Rattle.std.specs.Prelude.{◌≡◌, ◌≢◌, ◌≤◌, ◌+◌, ℕ, [], ◌∷◌, ◌++◌, Some, IfOk, IsNone, IsOk, IsSome, IsTrue, false, true, None, OnOk, OnErr, IsErrOf};
ghost use Rattle.er_event.specs.Span.{parts_of};
ghost use Rattle.er_event.specs.declared.steps.WordState.TheVariants.{Exclusive};
ghost use Rattle.er_model.specs.Parts.{FitsEnd, IsLegal};
ghost use Rattle.er_model.specs.Table.{advanced, moved, reports};
ghost use Rattle.er_model.specs.Words.{Counted};
ghost use Rattle.er_online.specs.Spans.{IsSpanned, found_next, resets};
ghost use Rattle.er_online.specs.Taken.{HasSameStates, access_of, notes_of, reset_of, state_now};
ghost use Rattle.er_shadow.specs.Replies.{reply_if};
ghost use Rattle.er_shadow.specs.Shadows.{needs_set, states};

use crate::ShardCall;
use crate::history::History;
use er_event::{Kind, Lockset, NoRoom, PageRange, ThreadId, Word, WordRange, WordState};
use er_shadow::{Noted, OwnWords};
use std::alloc::{AllocError, Global};
use std::marker::Model;

/// What became of the accesses of a run of words.
#[derive(Clone, Copy, Debug)]
pub struct Spanned {
    /// How many of the words were taken.
    pub taken: u64,
    /// The first of them that is a race.
    pub first_race: Option<Word>,
    /// Why the word after these was refused, if it was.
    pub refused: Option<NoRoom>,
    /// Whether all were taken and each word kept its state. It may be false of such accesses too.
    pub is_settled: bool,
}

/// Some of memory's words. Contracts see the list of the calls that it took, each with the locks that covered it: each answer and each word's state
/// are those that the definitions give of that list.
#[derive(Drop)]
pub struct Shard {
    words: OwnWords,
    history: History,
    alloc: Global,
}

impl Model for Shard {
    ghost use Rattle.std.specs.Prelude.{List, ℕ};
    ghost use Rattle.er_online.specs.declared.calls.ShardCall.{ShardCall};
    ghost use Rattle.er_online.specs.Taken.{IsReplay, calls_coded};

    ghost Value = { List (ShardCall × List ℕ) };

    ghost coded = { calls_coded };

    ghost view = { λ s. s.history.calls };

    ghost invariant = { λ s. IsReplay s.history.calls s.words };
}

impl Shard {
    /// The most different sets of locks that a shard can have.
    pub const MOST_SETS: u32 = 1_048_576;

    /// A shard that took no call. It has at most `max_sets` different sets of locks, and never more than [`MOST_SETS`](Shard::MOST_SETS). The only
    /// error is that there is no memory.
    pub fn new(alloc: Global, max_sets: u32) -> Result<Shard, AllocError>
        ensures { IfOk result (λ shard. shard ≡ []) }
    {
        Ok(Shard {
            words: OwnWords::new(alloc, max_sets.min(Shard::MOST_SETS))?,
            history: History::new(),
            alloc,
        })
    }

    /// Takes a counted access with the locks that cover it: those that the thread holds in any mode for a read, and those that it holds in write
    /// mode for a write. Returns whether it is a race, and whether it changed its word. Refused if a set of locks finds no place (`TableFull`), which
    /// isn't asked for while one thread alone has accessed the word, and if there is no memory (`OutOfMemory`).
    #[inline(always)]
    pub fn access(
        &mut self,
        thread: ThreadId,
        kind: Kind,
        word: Word,
        locks: &Lockset,
    ) -> Result<Noted, NoRoom>
        ensures taken { IfOk result (λ noted. self.new ≡ self.old ++ (access_of thread kind word noted.is_race, locks.now) ∷ []) }
        ensures reply { IfOk result (λ noted. FitsEnd (notes_of self.old) (Counted thread kind word locks.now) (reply_if noted.is_race)) }
        ensures settled { IfOk result (λ noted. noted.has_changed ≡ false → HasSameStates self.old self.new) }
        ensures quiet { IfOk result (λ noted. noted.has_changed ≡ false → noted.is_race ≡ false) }
        ensures err { OnErr result (self.new ≡ self.old) }
        ensures table_full { IsErrOf result NoRoom.TableFull → IsTrue (needs_set (state_now self.old word) thread) }
        ensures own { state_now self.old word ≡ Exclusive thread → IsOk result }
        ensures refusals { ¬ IsErrOf result NoRoom.JournalFull }
    {
        let noted = answer(&mut self.words, thread, kind, word, locks)?;
        let call = ShardCall::Access(thread, kind, word, noted.is_race);
        self.history = self.history.and(&call, locks);
        Ok(noted)
    }

    /// Makes the words of a range virgin. It takes no memory.
    pub fn reset(&mut self, range: PageRange)
        ensures { self.new ≡ self.old ++ (reset_of range, []) ∷ [] }
    {
        let range = &range;
        self.words.reset(*range);
        let call = ShardCall::Reset(*range);
        self.history = self.history.and(&call, &Lockset::new(self.alloc));
    }

    /// Takes a counted access of each word of a run, in order and as `access` takes it. If one is refused, those before it stay taken.
    pub fn access_span(
        &mut self,
        thread: ThreadId,
        kind: Kind,
        words: WordRange,
        locks: &Lockset,
    ) -> Spanned
        ensures taken { IsSpanned self.old self.new thread kind locks.now words.first result.taken result.first_race }
        ensures legal { IsLegal (notes_of self.new) }
        ensures all { IsNone result.refused → words.first + result.taken ≡ words.last + 1 }
        ensures some { IsSome result.refused → words.first + result.taken ≤ words.last }
        ensures refusals { result.refused ≢ Some NoRoom.JournalFull }
        ensures table_full { result.refused ≡ Some NoRoom.TableFull → IsTrue (needs_set (state_now self.new (words.first + result.taken)) thread) }
        ensures settled { result.is_settled ≡ true → HasSameStates self.old self.new }
        ensures quiet { result.is_settled ≡ true → (result.first_race ≡ None) × (result.refused ≡ None) }
    {
        let first = words.first().number();
        let count = words.last().number() - first + 1;
        let mut first_race = None;
        let mut is_settled = true;
        for taken in 0..count {
            let word = Word::new(first + taken);
            match self.access(thread, kind, word, locks) {
                Ok(noted) => {
                    first_race = race_found(first_race, word, noted.is_race);
                    is_settled = is_settled && !noted.has_changed;
                }
                Err(why) => {
                    self.keep();
                    return Spanned {
                        taken,
                        first_race,
                        refused: Some(why),
                        is_settled: false,
                    };
                }
            }
        }
        self.keep();
        Spanned {
            taken: count,
            first_race,
            refused: None,
            is_settled,
        }
    }

    // What its type keeps, split for the prover.
    #[inline(always)]
    fn keep(&self)
        ensures { IsLegal (notes_of self.now) }
    {
        let _words = &self.words;
    }

    /// Makes the words of a run virgin, page by page. It takes no memory.
    pub fn reset_span(&mut self, words: WordRange)
        ensures { self.new ≡ self.old ++ resets (parts_of words) }
    {
        for page in 0..words.parts() {
            self.reset(words.part(page));
        }
    }

    /// What is known of a word. The only error is that there is no memory for its candidate set.
    pub fn state_of(&self, word: Word) -> Result<WordState, AllocError>
        ensures legal { IsLegal (notes_of self.now) }
        ensures state { IfOk result (λ state. state ≡ state_now self.now word) }
    {
        self.words.state_of(word)
    }
}

// The first race so far, with one access more.
#[inline]
fn race_found(found: Option<Word>, word: Word, is_race: bool) -> Option<Word>
    ensures { result ≡ found_next found word is_race }
{
    match found {
        Some(first) => Some(first),
        None => is_race.then_some(word),
    }
}

// What an access does. Most accesses leave their word as it is, and these are found first.
#[inline(always)]
fn answer(
    words: &mut OwnWords,
    thread: ThreadId,
    kind: Kind,
    word: Word,
    locks: &Lockset,
) -> Result<Noted, NoRoom>
    ensures ok { OnOk result ((w : ℕ) → states words.new w ≡ moved (states words.old w) w (Counted thread kind word locks.now)) }
    ensures race { IfOk result (λ noted. noted.is_race ≡ reports (states words.old word) (advanced (states words.old word) thread kind locks.now)) }
    ensures unchanged { IfOk result (λ noted. noted.has_changed ≡ false → (w : ℕ) → states words.new w ≡ states words.old w) }
    ensures err { OnErr result ((w : ℕ) → states words.new w ≡ states words.old w) }
    ensures full { IsErrOf result NoRoom.TableFull → IsTrue (needs_set (states words.old word) thread) }
    ensures own { states words.old word ≡ Exclusive thread → IsOk result }
    ensures refusals { ¬ IsErrOf result NoRoom.JournalFull }
{
    if let Some(has_changed) = words.access_quickly(thread, word, kind, locks) {
        return Ok(Noted {
            is_race: false,
            has_changed,
        });
    }
    words.access_noting(&(), thread, word, kind, locks)
}
