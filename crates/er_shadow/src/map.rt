//! Every word's state.
ghost use Rattle.std.specs.Prelude.{◌≡◌, ◌<◌, ◌≤◌, ◌%◌, ℕ, nat_eq, slice_get, Some, None, IsTrue, IsOk, IsSome, IfOk, IfSome, IfNone, false, true, OnOk, OnErr, IsErrOf};
ghost use Rattle.indexmap.specs.IndexMap.{keys, index_map_len, IsUnique};
ghost use Rattle.er_event.specs.declared.steps.WordState.TheVariants.{Virgin, Exclusive};
ghost use Rattle.er_model.specs.Table.{advanced, moved, reports};
ghost use Rattle.er_model.specs.Words.{Counted, Reused};
ghost use Rattle.er_table.specs.Sets.{most_sets};

use crate::Hints;
use crate::page::{Page, WORDS};
use crate::refining::{is_settled, named, step};
use er_event::{Event, Kind, Lockset, NoRoom, PageRange, Step, ThreadId, Word, WordState};
use er_keys::{HashKeys, NumberHasher, index_of};
use er_owner::Shadow;
use er_table::{Grow, Known, KnownIn, LocksetTable, OwnKnown, Owned, Shared, Store};
use indexmap::IndexMap;
use std::alloc::{AllocError, Global};
use std::marker::Model;

/// What a counted access did.
#[derive(Clone, Copy)]
pub struct Noted {
    /// Whether it is reported as a race.
    pub is_race: bool,
    /// Whether it changed what stands for its word. If it did not, every word has the state that it had.
    pub has_changed: bool,
}

/// The state of every word, by pages of 1,024 words that are made at their first access. Contracts see the `states` of its words.
#[derive(Drop)]
pub struct Words<S: Store> {
    pages: IndexMap<u64, Page, NumberHasher>,
    // Where the page of a number stands.
    places: Hints,
    known: KnownIn<S>,
    // The number of what a thread's accesses of a kind are covered by.
    covers: Hints,
    // What `look_ahead` has read. Nobody asks for it.
    ahead: u32,
    alloc: Global,
}

/// The words of an owner that shares its sets of locks by a table, which may make it wait.
pub type ShadowMap<'t> = Words<Shared<'t>>;

/// The words of an owner that has its sets of locks for itself, and waits for nobody.
pub type OwnWords = Words<Owned>;

impl<S: Store> Model for Words<S> {
    ghost use Rattle.er_shadow.specs.Shadows.{Shadows, AreNumbered};

    ghost Value = { Shadows };

    ghost view = { λ m. record { pages = m.pages.entries; sets = m.known } };

    ghost invariant = { λ m. AreNumbered (record { pages = m.pages.entries; sets = m.known }) };
}

impl<'t> Words<Shared<'t>> {
    ghost use Rattle.er_shadow.specs.Shadows.{states};

    /// How many words `look_ahead` reads at most.
    pub const AHEAD: usize = 64;

    /// A map whose words are all virgin. Its sets of locks go into the table. Whoever chooses the pages that are accessed can make it slow: see
    /// [`keyed`](ShadowMap::keyed).
    pub fn new(alloc: Global, table: &'t LocksetTable) -> Result<ShadowMap<'t>, AllocError>
        ensures { IfOk result (λ map. (w : ℕ) → states map w ≡ Virgin) }
    {
        ShadowMap::keyed(alloc, table, HashKeys::KNOWN)
    }

    /// A map whose words are all virgin, and whose pages are hashed by these keys. Its sets of locks go into the table.
    pub fn keyed(
        alloc: Global,
        table: &'t LocksetTable,
        keys: HashKeys,
    ) -> Result<ShadowMap<'t>, AllocError>
        ensures { IfOk result (λ map. (w : ℕ) → states map w ≡ Virgin) }
    {
        let known = Known::new(alloc, table)?;
        Words::over(alloc, known, keys)
    }
}

impl Words<Owned> {
    ghost use Rattle.er_shadow.specs.Shadows.{states};

    /// A map whose words are all virgin. It takes `max_sets` sets of locks. Whoever chooses the pages or the sets can make it slow.
    pub fn new(alloc: Global, max_sets: u32) -> Result<OwnWords, AllocError>
        requires few { max_sets ≤ most_sets }
        ensures { IfOk result (λ map. (w : ℕ) → states map w ≡ Virgin) }
    {
        OwnWords::keyed(alloc, max_sets, HashKeys::KNOWN)
    }

    /// A map whose words are all virgin, and whose pages and sets of locks are hashed by these keys. It takes `max_sets` sets.
    pub fn keyed(alloc: Global, max_sets: u32, keys: HashKeys) -> Result<OwnWords, AllocError>
        requires few { max_sets ≤ most_sets }
        ensures { IfOk result (λ map. (w : ℕ) → states map w ≡ Virgin) }
    {
        Words::over(alloc, OwnKnown::keyed(alloc, max_sets, keys), keys)
    }
}

impl<S: Store> Words<S> {
    ghost use Rattle.er_owner.specs.Numbering.{IsNumbered};
    ghost use Rattle.er_shadow.specs.Shadows.{numbered_state, states, needs_set};

    fn over(alloc: Global, known: KnownIn<S>, keys: HashKeys) -> Result<Words<S>, AllocError>
        ensures { IfOk result (λ map. (w : ℕ) → states map w ≡ Virgin) }
    {
        let places = Hints::new(alloc)?;
        let covers = Hints::new(alloc)?;
        let pages = IndexMap::with_hasher(alloc, NumberHasher::new(keys));
        Ok(Words {
            pages,
            places,
            known,
            covers,
            ahead: 0,
            alloc,
        })
    }

    /// One counted access of a word, with the locks that cover it: those that the thread holds in any mode for a read, and those
    /// that it holds in write mode for a write. If it needs a set, the thread's locks go into the table first, and then what they have in common
    /// with the candidates.
    pub fn access_noting<R>(
        &mut self,
        rt: &R,
        thread: ThreadId,
        word: Word,
        kind: Kind,
        locks: &Lockset,
    ) -> Result<Noted, NoRoom>
    where
        S: Grow<R>,
        ensures ok { OnOk result ((w : ℕ) → states self.new w ≡ moved (states self.old w) w (Counted thread kind word locks.now)) }
        ensures reply { IfOk result (λ noted. noted.is_race ≡ reports (states self.old word) (advanced (states self.old word) thread kind locks.now)) }
        ensures unchanged { IfOk result (λ noted. noted.has_changed ≡ false → (w : ℕ) → states self.new w ≡ states self.old w) }
        ensures err { OnErr result ((w : ℕ) → states self.new w ≡ states self.old w) }

        // No set is asked for while one thread alone has accessed the word, and that thread's accesses ask for nothing.
        ensures full { IsErrOf result NoRoom.TableFull → IsTrue (needs_set (states self.old word) thread) }
        ensures own { states self.old word ≡ Exclusive thread → IsOk result }
        ensures refusals { ¬ IsErrOf result NoRoom.JournalFull }
    {
        let number = word.page();
        let place = place_of(word);
        match index_of(&self.pages, self.places.hint(number), number) {
            Some(index) => {
                self.places.note(number, index);
                let page = &mut self.pages[index];
                let before = page.get(place);
                let (shadow, is_race) = step(
                    rt,
                    &mut self.known,
                    &mut self.covers,
                    before,
                    thread,
                    kind,
                    locks,
                )?;
                page.set(place, shadow);
                let same = shadow == before;
                let has_changed = !same;
                Ok(Noted {
                    is_race,
                    has_changed,
                })
            }
            None => {
                let mut page = Page::new(self.alloc)?;
                page.set(place, Shadow::exclusive(thread));
                self.places.note(number, self.pages.len());
                self.pages.insert(number, page)?;
                Ok(Noted {
                    is_race: false,
                    has_changed: true,
                })
            }
        }
    }

    /// Takes an access if that is quick, and returns whether it changed its word: the first access of a word whose page is there, or one that
    /// leaves its word as it is. None of these is a race, and most accesses of a program are such. `None`: it isn't taken, and nothing has changed.
    #[inline(always)]
    pub fn access_quickly(
        &mut self,
        thread: ThreadId,
        word: Word,
        kind: Kind,
        locks: &Lockset,
    ) -> Option<bool>
        ensures taken { IsSome result → (w : ℕ) → states self.new w ≡ moved (states self.old w) w (Counted thread kind word locks.now) }
        ensures quiet { IsSome result → reports (states self.old word) (advanced (states self.old word) thread kind locks.now) ≡ false }
        ensures unchanged { IfSome result (λ changed. changed ≡ false → (w : ℕ) → states self.new w ≡ states self.old w) }
        ensures first { IfSome result (λ changed. changed ≡ true → states self.old word ≡ Virgin) }
        ensures none { IfNone result (self.new ≡ self.old) }
    {
        let number = word.page();
        let place = place_of(word);
        let index = index_near(&self.pages, self.places.hint(number), number)?;
        let shadow = self.pages[index].get(place);
        if shadow == Shadow::virgin() {
            self.pages[index].set(place, Shadow::exclusive(thread));
            return Some(true);
        }
        is_settled(&self.known, shadow, thread, kind, locks).then_some(false)
    }

    /// Reads what stands for the words that these steps access, the first [`AHEAD`](ShadowMap::AHEAD) at most. Nothing waits for what is read, so the words
    /// come from memory side by side, and are at hand at their accesses. Accesses are found without a branch: a wrong guess would keep words waiting.
    #[inline(never)]
    pub fn look_ahead(&mut self, steps: &[Step])
        ensures { self.new ≡ self.old }
    {
        let mut words = [Word::new(0); ShadowMap::AHEAD];
        let mut count = 0;
        for i in 0..steps.len().min(ShadowMap::AHEAD) {
            let (word, more) = match steps[i].event {
                Event::Access(_, word, _) => (word, 1),
                _ => (Word::new(0), 0),
            };
            words[count] = word;
            count += more;
        }
        let mut bits = 0;
        for k in 0..count {
            let place = self.find_page(words[k]);
            if let Some((_, page)) = self.pages.as_slice().get_index(place) {
                bits ^= page.get(place_of(words[k])).bits();
            }
        }
        self.ahead ^= bits;
    }

    // Where the page of a word stands, or some other place if it has none.
    #[inline(always)]
    fn find_page(&mut self, word: Word) -> usize
        ensures { self.new ≡ self.old }
    {
        let number = word.page();
        let hint = self.places.hint(number);
        let place = index_of(&self.pages, hint, number).unwrap_or(hint);
        if place != hint {
            self.places.note(number, place);
        }
        place
    }

    /// Makes the words of a range virgin. It takes no memory.
    pub fn reset(&mut self, range: PageRange)
        ensures { (w : ℕ) → states self.new w ≡ moved (states self.old w) w (Reused range) }
    {
        let PageRange { lo, hi } = range;
        let number = lo.page();
        match self.pages.get_mut(&number) {
            Some(page) => page.clear(place_of(lo), place_of(hi)),
            None => {}
        }
    }

    /// What is known of a word.
    pub fn state_of(&self, word: Word) -> Result<WordState, AllocError>
        ensures { IfOk result (λ state. state ≡ states self.now word) }
    {
        let shadow = self.shadow_of(word);
        named(self.alloc, &self.known, shadow.state())
    }

    // What stands for a word.
    fn shadow_of(&self, word: Word) -> Shadow
        ensures found { result ≡ numbered_state self.now.pages word }
        ensures numbered { IsNumbered self.now.sets result }
    {
        let number = word.page();
        match self.pages.get(&number) {
            Some(page) => page.get(place_of(word)),
            None => Shadow::virgin(),
        }
    }
}

// Where the page of this number stands, if it stands at `hint`.
#[inline(always)]
fn index_near(pages: &IndexMap<u64, Page, NumberHasher>, hint: usize, number: u64) -> Option<usize>
    ensures key { IfSome result (λ index. slice_get (keys pages.now) index ≡ Some number) }
    ensures within { IfSome result (λ index. index < index_map_len pages.now) }
    ensures unique { IsUnique nat_eq pages.now }
{
    match pages.as_slice().get_index(hint) {
        Some((key, _page)) => (*key == number).then_some(hint),
        None => None,
    }
}

// Where a word stands on its page.
#[inline]
fn place_of(word: Word) -> usize
    ensures { result ≡ word % 1024 }
{
    word.number() as usize % WORDS
}
