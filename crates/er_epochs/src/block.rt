//! The words of a block.
ghost use Rattle.std.specs.Prelude.{◌≡◌, ◌+◌, ◌*◌, ◌<◌, ◌≤◌, ◌^◌, ◌&&◌, ℕ, nat_eq, nat_le, nat_lt, cond, false, get_or, is_some, length, map, None, position, Some, OnOk, OnErr, IfOk, IfSome, IsTrue};
ghost use Rattle.std.specs.Map.{lookup};
ghost use Rattle.std.specs.Option.{option_map};
ghost use Rattle.er_clock.specs.Counts.{count_by};
ghost use Rattle.er_order.specs.ByBytes.{whole};
ghost use Rattle.er_epochs.specs.Epochs.{tag_found, tagged, IsStoredBy};
ghost use Rattle.er_epochs.specs.Known.{IsKnownBy, finds, query_of, reuse_query};
ghost use Rattle.er_epochs.specs.declared.word.OrderWord.{OrderWord as Stored};
ghost use Rattle.er_epochs.specs.Words.{IsButForTags, blank, said, word_at, slot_at, vacant, list_of, known_beside, stored_beside, is_place_in, IsLowest};

use crate::byte_accesses::ByteAccesses;
use crate::reads::ReadLists;
use crate::word::OrderWord;
use er_clock::ThreadClock;
use er_event::Kind;
use er_order::Bytes;
use std::alloc::{AllocError, Global};
use std::marker::Model;

/// How many words a block has.
const WORDS: usize = 32;

/// Words that lie side by side. The lists of those that have one stand elsewhere. A word that some access touched in part has its accesses here, and
/// what it says besides is not read: so a block with no such word costs one look at an empty list.
#[derive(Drop)]
pub(crate) struct Block<A> {
    words: Vec<OrderWord<A>>,
    // The accesses of the words that were touched in part, each beside the word's place.
    split: Vec<(usize, ByteAccesses<A>)>,
}

impl<A> Model for Block<A> {
    ghost use Rattle.std.specs.Prelude.{◌≡◌, length, map};
    ghost use Rattle.er_epochs.specs.Words.{said, BlockWords};

    ghost Value = { BlockWords A };

    ghost view = { λ b. record { words = map said b.words.items; split = b.split.items } };

    ghost invariant = { λ b. length b.words.items ≡ 32 };
}

impl<A: Copy> Block<A> {
    /// No word was accessed in its era. Any tag will do.
    pub(crate) fn new(alloc: Global, tag: A) -> Result<Self, AllocError>
        ensures { IfOk result (λ block. (i : ℕ) → slot_at block i ≡ vacant) }
    {
        let mut words = Vec::with_capacity(alloc, WORDS)?;
        for _ in 0..WORDS {
            words.push_reserved(OrderWord::new(tag));
        }
        Ok(Block {
            words,
            split: Vec::new(alloc),
        })
    }

    /// One counted access of these bytes of the word of this number, at this place, by the thread whose clock this is. Returns the tag of the last
    /// access that it is a race with, if it is reported as one. `AllocError`: memory was refused, and what is known of the word is as it was.
    #[inline]
    pub(crate) fn access(
        &mut self,
        lists: &mut ReadLists<A>,
        number: u64,
        place: usize,
        bytes: Bytes,
        clock: &ThreadClock<'_>,
        kind: Kind,
        tag: A,
    ) -> Result<Option<A>, AllocError>
        requires { place < 32 }
        ensures ok { OnOk result (IsKnownBy (count_by clock.now) (known_beside lists.old number (slot_at self.old place))
            (record { access = tagged clock.now.0 (count_by clock.now clock.now.0) tag; kind = kind; bytes = bytes }) (known_beside lists.new number (slot_at self.new place))) }
        ensures found { IfOk result (λ rival. rival ≡ finds (count_by clock.now) (known_beside lists.old number (slot_at self.old place)) (query_of kind bytes)) }
        ensures err { OnErr result (known_beside lists.new number (slot_at self.new place) ≡ known_beside lists.old number (slot_at self.old place)) }
        ensures places { (i : ℕ) → nat_eq place i ≡ false → slot_at self.new i ≡ slot_at self.old i }
        ensures lists { (w : ℕ) → nat_eq number w ≡ false → list_of lists.new w ≡ list_of lists.old w }
    {
        match place_in(&self.split, place) {
            Some(at) => {
                let accesses = &mut self.split[at].1;
                accesses.access(clock, kind, bytes, tag)
            }
            None if is_whole(bytes) => self.access_whole(lists, number, place, clock, kind, tag),
            None => self.split_for(lists, number, place, bytes, clock, kind, tag),
        }
    }

    // An access of the whole word, of which all accesses were such.
    #[inline]
    fn access_whole(
        &mut self,
        lists: &mut ReadLists<A>,
        number: u64,
        place: usize,
        clock: &ThreadClock<'_>,
        kind: Kind,
        tag: A,
    ) -> Result<Option<A>, AllocError>
        requires { place < 32 }
        ensures ok { OnOk result (IsStoredBy (count_by clock.now) (stored_beside lists.old number (word_at self.old.words place)) (tagged clock.now.0 (count_by clock.now clock.now.0) tag) kind (stored_beside lists.new number (word_at self.new.words place))) }
        ensures found { IfOk result (λ rival. rival ≡ tag_found (count_by clock.now) (stored_beside lists.old number (word_at self.old.words place)) kind) }
        ensures err { OnErr result (stored_beside lists.new number (word_at self.new.words place) ≡ stored_beside lists.old number (word_at self.old.words place)) }
        ensures places { (i : ℕ) → nat_eq place i ≡ false → word_at self.new.words i ≡ word_at self.old.words i }
        ensures lists { (w : ℕ) → nat_eq number w ≡ false → list_of lists.new w ≡ list_of lists.old w }
        ensures split { self.new.split ≡ self.old.split }
    {
        let word = get(&self.words, place);
        if let Some(next) = word.settled(clock, kind, tag) {
            put_tags(&mut self.words, place, next);
            return Ok(None);
        }
        let (next, rival) = lists.access(number, word, clock, kind, tag)?;
        put(&mut self.words, place, next);
        Ok(rival)
    }

    // The first access that touches a part of the word: from then on its accesses are kept with their bytes.
    fn split_for(
        &mut self,
        lists: &ReadLists<A>,
        number: u64,
        place: usize,
        bytes: Bytes,
        clock: &ThreadClock<'_>,
        kind: Kind,
        tag: A,
    ) -> Result<Option<A>, AllocError>
        requires place { place < 32 }
        requires whole { lookup (nat_eq place) self.old.split ≡ None }
        ensures ok { OnOk result (IsKnownBy (count_by clock.now) (known_beside lists.now number (slot_at self.old place))
            (record { access = tagged clock.now.0 (count_by clock.now clock.now.0) tag; kind = kind; bytes = bytes }) (known_beside lists.now number (slot_at self.new place))) }
        ensures found { IfOk result (λ rival. rival ≡ finds (count_by clock.now) (known_beside lists.now number (slot_at self.old place)) (query_of kind bytes)) }
        ensures err { OnErr result (self.new ≡ self.old) }
        ensures places { (i : ℕ) → nat_eq place i ≡ false → slot_at self.new i ≡ slot_at self.old i }
    {
        let word = get(&self.words, place);
        let mut accesses = lists.byte_accesses(number, word)?;
        let rival = accesses.access(clock, kind, bytes, tag)?;
        self.split.push((place, accesses))?;
        Ok(rival)
    }

    /// Reads some part of the word at a place, for an access of it that comes soon.
    #[inline]
    pub(crate) fn look_ahead(&self, place: usize) -> usize
        requires { place < 32 }
    {
        get(&self.words, place).hint()
    }

    /// The lowest place from `lo` to `hi`, both included, of a word of which a write by the clock's thread would be reported, and the tag of the
    /// last access that the write would be a race with, where this is the block of this number.
    pub(crate) fn first_in_use(
        &self,
        lists: &ReadLists<A>,
        number: u64,
        lo: usize,
        hi: usize,
        clock: &ThreadClock<'_>,
    ) -> Option<(usize, A)>
        requires hi { hi < 32 }
        requires number { number < 2 ^ 41 }
        ensures lowest { IsLowest (λ i. (nat_le lo i && nat_le i hi) && is_some (finds (count_by clock.now) (known_beside lists.now (number * 32 + i) (slot_at self.now i)) reuse_query)) (option_map (λ found. found.0) result) }
        ensures named { IfSome result (λ found. Some found.1 ≡ finds (count_by clock.now) (known_beside lists.now (number * 32 + found.0) (slot_at self.now found.0)) reuse_query) }
    {
        for place in lo..hi + 1 {
            if let Some(tag) = self.last_use(lists, number * 32 + place as u64, place, clock) {
                return Some((place, tag));
            }
        }
        None
    }

    // The tag of the last access of the word of this number, at this place, that a write by the clock's thread would be a race with.
    #[inline]
    fn last_use(
        &self,
        lists: &ReadLists<A>,
        number: u64,
        place: usize,
        clock: &ThreadClock<'_>,
    ) -> Option<A>
        requires { place < 32 }
        ensures { result ≡ finds (count_by clock.now) (known_beside lists.now number (slot_at self.now place)) reuse_query }
    {
        match place_in(&self.split, place) {
            Some(at) => self.split[at].1.find(clock, Kind::Write, None),
            None => last_use_of(get(&self.words, place), lists, number, clock),
        }
    }

    /// Ends the era of the words from `lo` to `hi`, both included.
    pub(crate) fn reset(&mut self, lo: usize, hi: usize)
        requires { hi < 32 }
        ensures { (i : ℕ) → slot_at self.new i ≡ cond (nat_le lo i && nat_le i hi) vacant (slot_at self.old i) }
    {
        empty(&mut self.words, lo, hi + 1);
        if !self.split.is_empty() {
            unite(&mut self.split, lo, hi);
        }
    }

    /// Lets go of the lists of the words from `lo` to `hi`, both included, where this is the block of this number.
    pub(crate) fn forget_lists(&self, lists: &mut ReadLists<A>, number: u64, lo: usize, hi: usize)
        requires hi { hi < 32 }
        requires number { number < 2 ^ 46 }
        ensures { (w : ℕ) → is_place_in number lo hi w ≡ false → list_of lists.new w ≡ list_of lists.old w }
    {
        if lists.is_empty() {
            return;
        }
        for place in lo..hi + 1 {
            let word = get(&self.words, place);
            if word.has_list() {
                lists.forget(word.hint(), number * 32 + place as u64);
            }
        }
    }
}

// Where the accesses of the word at this place stand among these.
#[inline]
fn place_in<A: Copy>(split: &Vec<(usize, ByteAccesses<A>)>, place: usize) -> Option<usize>
    ensures { result ≡ position (λ word. nat_eq place word.0) split.now.items }
{
    split.iter().position(|word| word.0 == place)
}

// Lets go of the accesses of the words from `lo` to `hi`, both included.
fn unite<A: Copy>(split: &mut Vec<(usize, ByteAccesses<A>)>, lo: usize, hi: usize)
    ensures { (i : ℕ) → lookup (nat_eq i) split.new.items ≡ cond (nat_le lo i && nat_le i hi) None (lookup (nat_eq i) split.old.items) }
{
    split.retain(|word| word.0 < lo || hi < word.0);
}

// The tag of the last access that a write by the clock's thread would be a race with, of the word of this number, of which this is stored.
fn last_use_of<A: Copy>(
    word: OrderWord<A>,
    lists: &ReadLists<A>,
    number: u64,
    clock: &ThreadClock<'_>,
) -> Option<A>
    ensures { result ≡ tag_found (count_by clock.now) (stored_beside lists.now number (said word)) Kind.Write }
{
    if word.is_blank() {
        None
    } else if word.has_list() {
        word.find(clock, Kind::Write, lists.find(word.hint(), number, clock))
    } else {
        word.find(clock, Kind::Write, None)
    }
}

// Whether these are all bytes of a word.
#[inline]
fn is_whole(bytes: Bytes) -> bool
    ensures { IsTrue result → bytes ≡ whole }
{
    bytes.first == 0 && bytes.last == 3
}

// The word at a place.
#[inline]
fn get<A: Copy>(words: &Vec<OrderWord<A>>, place: usize) -> OrderWord<A>
    requires long { length words.now.items ≡ 32 }
    requires place { place < 32 }
    ensures said { said result ≡ word_at (map said words.now.items) place }
    ensures there { result ≡ get_or words.now.items place result }
{
    words[place]
}

// Gives the word at a place the tags of this one, which is the same but for them. Of tags with no bytes nothing is written.
#[inline]
fn put_tags<A: Copy>(words: &mut Vec<OrderWord<A>>, place: usize, word: OrderWord<A>)
    requires long { length words.old.items ≡ 32 }
    requires place { place < 32 }
    ensures long { length words.new.items ≡ 32 }
    ensures here { (old : Stored A) → old ≡ get_or words.old.items place old → IsButForTags old word → word_at (map said words.new.items) place ≡ said word }
    ensures others { (i : ℕ) → nat_eq place i ≡ false → word_at (map said words.new.items) i ≡ word_at (map said words.old.items) i }
{
    let slot = &mut words[place];
    slot.write_tag = word.write_tag;
    slot.read_tag = word.read_tag;
}

// Puts a word at a place.
#[inline]
fn put<A: Copy>(words: &mut Vec<OrderWord<A>>, place: usize, word: OrderWord<A>)
    requires long { length words.old.items ≡ 32 }
    requires place { place < 32 }
    ensures long { length words.new.items ≡ 32 }
    ensures here { word_at (map said words.new.items) place ≡ said word }
    ensures others { (i : ℕ) → nat_eq place i ≡ false → word_at (map said words.new.items) i ≡ word_at (map said words.old.items) i }
{
    words[place] = word;
}

// Ends the era of the words from `start` to `end`, without the one at `end`. It leaves words that say nothing as they are.
fn empty<A: Copy>(words: &mut Vec<OrderWord<A>>, start: usize, end: usize)
    requires long { length words.old.items ≡ 32 }
    requires within { end ≤ 32 }
    ensures long { length words.new.items ≡ 32 }
    ensures emptied { (i : ℕ) → word_at (map said words.new.items) i ≡ cond (nat_le start i && nat_lt i end) blank (word_at (map said words.old.items) i) }
{
    for place in start..end {
        let word = get(words, place);
        if !word.is_blank() {
            put(words, place, word.emptied());
        }
    }
}
