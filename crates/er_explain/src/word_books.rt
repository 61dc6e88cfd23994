//! `WordBooks`, the books of all words.
ghost use Rattle.std.specs.Map.{lookup};
ghost use Rattle.std.specs.Prelude.{◌≡◌, ◌==◌, ◌<◌, ◌/◌, ℕ, cond, nat_eq, option_copied, Some, None, OnOk};
ghost use Rattle.er_explain.specs.Book.{Owned, Untouched, access_of};
ghost use Rattle.er_explain.specs.Books.{book_accessed, book_after};
ghost use Rattle.er_explain.specs.WordBooks.{book_in, is_place_in, joining_in};
ghost use Rattle.er_explain.specs.Following.{cover_by, CountsWhere};
ghost use Rattle.er_model.specs.Following.{marked};
ghost use Rattle.er_model.specs.Holdings.{Holdings};
ghost use Rattle.er_model.specs.Words.{is_within};

use crate::Made;
use crate::block::Block;
use crate::book::{Access, Joint};
use er_event::{Event, Lockset, PageRange, Step, Word};
use er_keys::{HashKeys, Hints, NumberHasher, index_of};
use indexmap::IndexMap;
use std::alloc::{AllocError, Global};
use std::marker::Model;

/// How many words a block has.
const WORDS: u64 = 256;

/// A book for each word, as steps go by. Contracts see the books by `book_in`. The books of 256 words that lie side by side are kept in one block,
/// which is made at the first access of one of them. A step takes one look at them, and a reuse one look for each block of its range.
#[derive(Drop)]
pub struct WordBooks<A> {
    blocks: IndexMap<u64, Block<A>, NumberHasher>,
    // Where the block of a number stood when it was accessed.
    hints: Hints,
    // Joinings that nobody needs, for words that are joined later. So a reuse of many words frees nothing and looks at no joining.
    spare: Vec<Joint<Access<A>>>,
    alloc: Global,
}

impl<A> Model for WordBooks<A> {
    ghost use Rattle.er_explain.specs.WordBooks.{Blocks};
    ghost use Rattle.er_explain.specs.declared.book.Access.{Access};

    ghost Value = { Blocks (Access A) };

    ghost view = { λ b. b.blocks.entries };
}

impl<A: Copy> WordBooks<A> {
    /// Empty books of all words, and each word will be found by these keys. If whoever chooses the words that are accessed knows the keys, that can
    /// be slow.
    pub fn keyed(alloc: Global, keys: HashKeys) -> WordBooks<A>
        ensures { (w : ℕ) → book_in result w ≡ Untouched }
    {
        WordBooks {
            blocks: IndexMap::with_hasher(alloc, NumberHasher::new(keys)),
            hints: Hints::new(alloc),
            spare: Vec::new(alloc),
            alloc,
        }
    }

    /// Goes on by a step. Its access is named so, and by its thread and its kind. If it counts, these are the locks that cover it.
    pub fn follow(&mut self, cover: Option<&Lockset>, at: A, step: &Step) -> Result<(), AllocError>
        ensures { (h : Holdings) → option_copied cover.entry ≡ cover_by h step.now.event → OnOk result ((w : ℕ) → book_in self.new w ≡ book_after (book_in self.old w) w (access_of at step.now) (marked h step.now.thread step.now.event)) }
    {
        match step.event {
            Event::Access(kind, word, _) => {
                if let Some(cover) = cover {
                    let thread = step.thread;
                    self.access(cover, word, Access { at, thread, kind })?;
                }
            }
            Event::Reuse(range) => self.reuse(range),
            _ => {}
        }
        Ok(())
    }

    /// Goes on as `follow` does by an access that counts, of a word whose book is empty, and looks for no book. At another step it may do something
    /// else: so nothing is asked of a caller that can't show what a step is.
    pub fn begin(&mut self, at: A, step: &Step) -> Result<(), AllocError>
        ensures { (h : Holdings) → CountsWhere (marked h step.now.thread step.now.event) (λ w. book_in self.old w ≡ Untouched) → OnOk result ((w : ℕ) → book_in self.new w ≡ book_after (book_in self.old w) w (access_of at step.now) (marked h step.now.thread step.now.event)) }
    {
        let Event::Access(kind, word, _) = step.event else {
            return Ok(());
        };
        let thread = step.thread;
        let access = Access { at, thread, kind };
        let at = word.number();
        let (number, place) = (at / WORDS, (at % WORDS) as usize);
        match index_of(&self.blocks, self.hints.hint(number), number) {
            Some(index) => {
                self.hints.note(number, index);
                let block = &mut self.blocks[index];
                block.put(place, access)?;
                Ok(())
            }
            None => self.begin_block(word, access),
        }
    }

    // Most accesses find their block. What is seldom taken, here and below, is a call of its own. That saves little: the reserve before a put, in `Block`,
    // brought nearly all of what such calls and it gained together.
    #[inline(always)]
    fn access(&mut self, cover: &Lockset, word: Word, access: Access<A>) -> Made<()>
        ensures { OnOk result ((w : ℕ) → book_in self.new w ≡ cond (word == w) (book_accessed (book_in self.old word) access access.thread access.kind cover.now) (book_in self.old w)) }
    {
        let at = word.number();
        let (number, place) = (at / WORDS, (at % WORDS) as usize);
        match index_of(&self.blocks, self.hints.hint(number), number) {
            Some(index) => {
                self.hints.note(number, index);
                let block = &mut self.blocks[index];
                block.access(self.alloc, &mut self.spare, cover, place, access)?;
                Ok(())
            }
            None => self.begin_block(word, access),
        }
    }

    // The first access of a word whose block isn't there.
    #[inline(never)]
    fn begin_block(&mut self, word: Word, access: Access<A>) -> Made<()>
        requires { lookup (nat_eq (word / 256)) self.old ≡ None }
        ensures books { OnOk result ((w : ℕ) → book_in self.new w ≡ cond (word == w) (Owned access.thread access) (book_in self.old w)) }
        ensures first { OnOk result (book_in self.old word ≡ Untouched) }
    {
        let at = word.number();
        let (number, place) = (at / WORDS, (at % WORDS) as usize);
        let block = Block::begin(self.alloc, place, access)?;
        self.hints.note(number, self.blocks.len());
        self.blocks.insert(number, block)?;
        Ok(())
    }

    #[inline(never)]
    fn reuse(&mut self, range: PageRange)
        ensures { (w : ℕ) → book_in self.new w ≡ cond (is_within w range) Untouched (book_in self.old w) }
    {
        let (lo, hi) = (range.lo.number(), range.hi.number());
        for number in lo / WORDS..hi / WORDS + 1 {
            let start = number * WORDS;
            let from = (lo.max(start) - start) as usize;
            let to = (hi.min(start + (WORDS - 1)) - start) as usize;
            self.empty(number, from, to);
        }
    }

    fn empty(&mut self, number: u64, from: usize, to: usize)
        requires { to < 256 }
        ensures { (w : ℕ) → book_in self.new w ≡ cond (is_place_in number from to w) Untouched (book_in self.old w) }
    {
        if let Some(index) = index_of(&self.blocks, self.hints.hint(number), number) {
            self.blocks[index].empty(&mut self.spare, from, to);
        }
    }

    /// The joining of a word, if a second thread has joined since its last reuse.
    pub fn joining(&self, word: Word) -> Option<&Joint<Access<A>>>
        ensures { option_copied result ≡ joining_in (book_in self.now word) }
    {
        let at = word.number();
        let number = at / WORDS;
        match index_of(&self.blocks, self.hints.hint(number), number) {
            Some(index) => self.blocks[index].joining((at % WORDS) as usize),
            None => None,
        }
    }
}
