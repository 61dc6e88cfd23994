//! What is kept of all words, in blocks of words that lie side by side.
ghost use Rattle.std.specs.Prelude.{◌≡◌, [], ◌<◌, ◌^◌, ◌&&◌, ℕ, ◌==◌, cond, false, is_some, Some, OnOk, OnErr, IfOk, IfSome};
ghost use Rattle.std.specs.Option.{option_map};
ghost use Rattle.er_model.specs.Words.{is_within};
ghost use Rattle.er_clock.specs.Counts.{count_by};
ghost use Rattle.er_order.specs.ByBytes.{Touched};
ghost use Rattle.er_epochs.specs.Epochs.{tagged};
ghost use Rattle.er_epochs.specs.Known.{Since, IsKnownBy, finds, query_of, reuse_query};
ghost use Rattle.er_epochs.specs.Standing.{FollowsBytes};
ghost use Rattle.er_epochs.specs.Words.{known_among, is_place_in, IsLowest};

use crate::block::Block;
use crate::reads::ReadLists;
use er_clock::ThreadClock;
use er_event::{Kind, PageRange, Word};
use er_keys::{HashKeys, Hints, NumberHasher, index_of};
use er_order::Bytes;
use indexmap::IndexMap;
use std::alloc::{AllocError, Global};
use std::marker::Model;

/// What is kept of each word, 16 bytes and two tags in a block of 32 words that is made at the first access of one of them. Contracts see
/// it by `known_among`. Whoever wants no tags takes `()`.
/// Only a word that several threads have read, where neither read happens before the other, has a list besides, until it is written or reset.
/// And only a word that some access touched in part has its accesses, each with its bytes, until it is reset. An access of such a word looks at all
/// that are kept of it: at most some thirty for each thread, and one or two as a rule.
#[derive(Drop)]
pub struct OrderWords<A> {
    blocks: IndexMap<u64, Block<A>, NumberHasher>,
    hints: Hints,
    lists: ReadLists<A>,
    // What `look_ahead` has read. Nobody asks for it.
    ahead: usize,
    alloc: Global,
}

impl<A> Model for OrderWords<A> {
    ghost use Rattle.er_epochs.specs.Words.{AllWords};

    ghost Value = { AllWords A };

    ghost view = { λ w. record { blocks = w.blocks.entries; lists = w.lists } };
}

impl<A: Copy> OrderWords<A> {
    /// No word was accessed, and each word will be found by these keys. If whoever chooses the words knows the keys, that can be slow.
    pub fn keyed(alloc: Global, keys: HashKeys) -> Self
        ensures known { (w : ℕ) → known_among result w ≡ Since [] }
        ensures follows { (tags : ℕ → A) (touched : Touched) → FollowsBytes tags touched result [] }
    {
        OrderWords {
            blocks: IndexMap::with_hasher(alloc, NumberHasher::new(keys)),
            hints: Hints::new(alloc),
            lists: ReadLists::new(alloc, keys),
            ahead: 0,
            alloc,
        }
    }

    /// One counted access of these bytes of a word, of which the first is no greater than the last, by the thread whose clock this is, with its tag.
    /// If it is reported as a race, it is the first of its era that some conflicting access with a common byte doesn't happen before, and the tag of the last
    /// such access is returned. `AllocError`: memory was refused, and what is known is as it was.
    pub fn access(
        &mut self,
        word: Word,
        bytes: Bytes,
        clock: &ThreadClock<'_>,
        kind: Kind,
        tag: A,
    ) -> Result<Option<A>, AllocError>
        ensures ok { OnOk result (IsKnownBy (count_by clock.now) (known_among self.old word)
            (record { access = tagged clock.now.0 (count_by clock.now clock.now.0) tag; kind = kind; bytes = bytes }) (known_among self.new word)) }
        ensures found { IfOk result (λ rival. rival ≡ finds (count_by clock.now) (known_among self.old word) (query_of kind bytes)) }
        ensures others { (w : ℕ) → (word == w) ≡ false → known_among self.new w ≡ known_among self.old w }
        ensures err { OnErr result ((w : ℕ) → known_among self.new w ≡ known_among self.old w) }
    {
        let number = word.block();
        let place = word.place_in_block();
        match index_of(&self.blocks, self.hints.hint(number), number) {
            Some(index) => {
                self.hints.note(number, index);
                let block = &mut self.blocks[index];
                block.access(
                    &mut self.lists,
                    word.number(),
                    place,
                    bytes,
                    clock,
                    kind,
                    tag,
                )
            }
            None => {
                let mut block = Block::new(self.alloc, tag)?;
                let lists = &mut self.lists;
                let rival = block.access(lists, word.number(), place, bytes, clock, kind, tag)?;
                self.hints.note(number, self.blocks.len());
                self.blocks.insert(number, block)?;
                Ok(rival)
            }
        }
    }

    /// Reads what is kept of a word that will be accessed soon. Nothing waits for what is read, so several words of several blocks come
    /// from memory side by side, and are at hand at their accesses.
    #[inline]
    pub fn look_ahead(&mut self, word: Word)
        ensures { self.new ≡ self.old }
    {
        let number = word.block();
        if let Some(index) = index_of(&self.blocks, self.hints.hint(number), number) {
            self.hints.note(number, index);
            self.ahead ^= self.blocks[index].look_ahead(word.place_in_block());
        }
    }

    /// Ends the era of the words of a range. Returns the lowest of them that was still in use, and the tag of its last access that doesn't happen
    /// before what the clock's thread does now: no race of its era was reported, and there is such an access. It takes no memory.
    pub fn reset(&mut self, range: PageRange, clock: &ThreadClock<'_>) -> Option<(Word, A)>
        ensures reset { (w : ℕ) → known_among self.new w ≡ cond (is_within w range) (Since []) (known_among self.old w) }
        ensures in_use { IsLowest (λ w. is_within w range && is_some (finds (count_by clock.now) (known_among self.old w) reuse_query)) (option_map (λ found. found.0) result) }
        ensures named { IfSome result (λ found. Some found.1 ≡ finds (count_by clock.now) (known_among self.old found.0) reuse_query) }
    {
        let PageRange { lo, hi } = range;
        let first = lo.block();
        let last = hi.block();
        let mut found = None;
        for number in first..last + 1 {
            let next = self.empty(number, lo.first_in(number), hi.last_in(number), clock);
            found = found.or(next);
        }
        found
    }

    // Ends the era of words of a block, both ends included. Returns the lowest of them that was still in use, with its last access.
    fn empty(
        &mut self,
        number: u64,
        from: usize,
        to: usize,
        clock: &ThreadClock<'_>,
    ) -> Option<(Word, A)>
        requires to { to < 32 }
        requires number { number < 2 ^ 41 }
        ensures reset { (w : ℕ) → known_among self.new w ≡ cond (is_place_in number from to w) (Since []) (known_among self.old w) }
        ensures in_use { IsLowest (λ w. is_place_in number from to w && is_some (finds (count_by clock.now) (known_among self.old w) reuse_query)) (option_map (λ found. found.0) result) }
        ensures named { IfSome result (λ found. Some found.1 ≡ finds (count_by clock.now) (known_among self.old found.0) reuse_query) }
    {
        match index_of(&self.blocks, self.hints.hint(number), number) {
            Some(index) => {
                let block = &mut self.blocks[index];
                let found = block.first_in_use(&self.lists, number, from, to, clock);
                block.forget_lists(&mut self.lists, number, from, to);
                block.reset(from, to);
                let (place, tag) = found?;
                Some((Word::new(number * 32 + place as u64), tag))
            }
            None => None,
        }
    }
}
