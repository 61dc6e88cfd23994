//! `Block`, the books of words that lie side by side.
ghost use Rattle.std.specs.Prelude.{◌≡◌, ◌<◌, ◌≤◌, ◌+◌, ◌&&◌, ℕ, nat_eq, nat_le, cond, length, min, option_copied, slice_get, take, IfOk, OnOk, None, ◌==◌};
ghost use Rattle.er_explain.specs.Book.{Owned, Untouched};
ghost use Rattle.er_explain.specs.Books.{book_accessed};
ghost use Rattle.er_explain.specs.Inner.Places.{found_at, number_at, opened, HavePlaces};
ghost use Rattle.er_explain.specs.WordBooks.{book_at_place, joining_in};
ghost use Rattle.std.specs.List.{position_or_len};
ghost use Rattle.std.specs.Simd.Lanes.{chunk};

use crate::Made;
use crate::book::{Access, Book, Joint};
use er_event::Lockset;
use std::alloc::{AllocError, Global};
use std::marker::Model;
use std::simd::prelude::*;

/// The books of words that lie side by side. Only a word that was accessed since its last reuse has a book. So a block takes little memory if few of
/// its words are used.
#[derive(Drop)]
pub(crate) struct Block<A> {
    // In the order in which they began. If two have one place, the first counts. No replay makes two, but nothing rests on that: `put` doesn't look.
    books: Vec<Book<A>>,
    // The place of each book, in the same order. What stands behind them says nothing. They stand beside the books' address: so a look at a
    // block's books reads one piece of memory to find them.
    places: [u8; 256],
}

impl<A> Model for Block<A> {
    ghost use Rattle.std.specs.Prelude.{List, length};
    ghost use Rattle.er_explain.specs.Book.{Book as Kept};
    ghost use Rattle.er_explain.specs.declared.book.Access.{Access};

    ghost Value = { List (Kept (Access A)) };

    ghost use Rattle.er_explain.specs.Inner.Places.{kept_books, HavePlaces};

    ghost view = { λ b. kept_books b.places b.books.items };

    ghost invariant = { λ b. HavePlaces b.places (length b.books.items) };
}

impl<A: Copy> Block<A> {
    /// A block with one book, of the word at a place, which begins by this access.
    pub(crate) fn begin(alloc: Global, place: usize, access: Access<A>) -> Made<Block<A>>
        requires { place < 256 }
        ensures { IfOk result (λ block. (i : ℕ) → book_at_place block i ≡ cond (nat_eq place i) (Owned access.thread access) Untouched) }
    {
        // As many as the first push would make room for. More would be memory for nothing in a page with one word.
        let mut books = Vec::with_capacity(alloc, 4)?;
        books.push_reserved(Book::begin(access));
        let mut places = [0; 256];
        places[0] = place as u8;
        Ok(Block { books, places })
    }

    /// The book of the word at a place goes on by a counted access. A joining may be a spare one.
    #[inline(always)]
    pub(crate) fn access(
        &mut self,
        alloc: Global,
        spare: &mut Vec<Joint<Access<A>>>,
        cover: &Lockset,
        place: usize,
        access: Access<A>,
    ) -> Made<()>
        requires { place < 256 }
        ensures { OnOk result ((i : ℕ) → book_at_place self.new i ≡ cond (nat_eq place i) (book_accessed (book_at_place self.old place) access access.thread access.kind cover.now) (book_at_place self.old i)) }
    {
        let count = self.books.len();
        let number = number_at(&self.places, count, place as u8);
        if number < count {
            return self.books[number].access(alloc, spare, cover, access);
        }
        self.put(place, access)
    }

    /// A book of the word at a place begins by this access. It looks for no book: one that the word has already still counts, and the new one doesn't.
    #[inline(always)]
    pub(crate) fn put(&mut self, place: usize, access: Access<A>) -> Made<()>
        requires { place < 256 }
        ensures { book_at_place self.old place ≡ Untouched → OnOk result ((i : ℕ) → book_at_place self.new i ≡ cond (nat_eq place i) (Owned access.thread access) (book_at_place self.old i)) }
    {
        let count = self.books.len();
        // A place gets a book only if it has none, so there is room for this one, and this refusal never comes. That isn't proved.
        if count >= 256 {
            return Err(AllocError);
        }
        // A push would be a call, which returns the book that it finds no memory for.
        self.books.reserve(1)?;
        self.books.push_reserved(Book::begin(access));
        self.places[count] = place as u8;
        Ok(())
    }

    /// Empties the books from `lo` to `hi`, both included. Their joinings are spare.
    pub(crate) fn empty(&mut self, spare: &mut Vec<Joint<Access<A>>>, lo: usize, hi: usize)
        requires { hi < 256 }
        ensures { (i : ℕ) → book_at_place self.new i ≡ cond (nat_le lo i && nat_le i hi) Untouched (book_at_place self.old i) }
    {
        remove_between(&mut self.books, &mut self.places, spare, lo, hi);
    }

    pub(crate) fn joining(&self, place: usize) -> Option<&Joint<Access<A>>>
        requires { place < 256 }
        ensures { option_copied result ≡ joining_in (book_at_place self.now place) }
    {
        let number = number_at(&self.places, self.books.len(), place as u8);
        joining_at(&self.books, number)
    }
}

fn joining_at<A>(books: &[Book<A>], number: usize) -> Option<&Joint<Access<A>>>
    ensures { option_copied result ≡ joining_in (opened (slice_get books.now number)) }
{
    books.get(number)?.joining()
}

// Removes the books of the places from `lo` to `hi`, both included. The others keep their order.
fn remove_between<A: Copy>(
    books: &mut Vec<Book<A>>,
    places: &mut [u8; 256],
    spare: &mut Vec<Joint<Access<A>>>,
    lo: usize,
    hi: usize,
)
    requires { HavePlaces places.old (length books.old.items) }
    ensures apart { HavePlaces places.new (length books.new.items) }
    ensures books { (i : ℕ) → found_at places.new books.new.items i ≡ cond (nat_le lo i && nat_le i hi) None (found_at places.old books.old.items i) }
{
    let mut kept = 0;
    for number in 0..books.len() {
        let place = places[number];
        if (place as usize) < lo || hi < place as usize {
            books.swap(kept, number);
            places[kept] = place;
            kept += 1;
        }
    }
    while books.len() > kept {
        if let Some(book) = books.pop() {
            book.keep_joining(spare);
        }
    }
}

/// How many places are looked at in one turn.
const LANES: usize = 16;

/// The number at which a place stands first, if that is one of the first `count`, and else one that isn't.
#[inline(always)]
pub(crate) fn number_at(places: &[u8; 256], count: usize, place: u8) -> usize
    requires { count ≤ 256 }
    ensures found { result < count → result ≡ number_at places.now place }
    ensures none { count ≤ result → count ≤ number_at places.now place }
{
    let mut start = 0;
    while start < count {
        let ahead = places_ahead(places, start, place);
        if ahead < LANES {
            return start + ahead;
        }
        start += LANES;
    }
    start
}

// Of the places from `start` on, how many of the next stand before this one, or 16.
#[inline(always)]
fn places_ahead(places: &[u8], start: usize, place: u8) -> usize
    requires { start + 16 ≤ length places.now }
    ensures { result ≡ position_or_len (λ p. p == place) (chunk start 16 places.now) }
{
    let hits = u8x16::from_slice(&places[start..])
        .simd_eq(u8x16::splat(place))
        .to_bitmask();
    if hits == 0 {
        LANES
    } else {
        hits.trailing_zeros() as usize
    }
}
