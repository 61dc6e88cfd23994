//! The sets that several owners share.
ghost use Rattle.std.specs.Prelude.{◌≡◌, ◌≤◌, IfOk, IsErrOf};
ghost use Rattle.er_table.specs.SetRef.{IsOf, set_of};
ghost use Rattle.er_table.specs.Sets.{most_sets};

use crate::{Book, SetRef, Sets};
use boxcar::Vec;
use er_event::{Lockset, NoRoom};
use er_keys::HashKeys;
use std::alloc::{AllocError, Global};
use std::marker::Model;
use std::sync::{Mutex, Wait};

/// Sets of locks, each stored once, which threads share. Contracts see where its sets stand, which no call through a `&` changes, and
/// how many it may have.
#[derive(Drop)]
pub struct LocksetTable {
    sets: Sets,
    book: Mutex<Book>,
    max_sets: u32,
    keys: HashKeys,
}

impl Model for LocksetTable {
    ghost use Rattle.std.specs.Prelude.{◌≤◌};
    ghost use Rattle.er_table.specs.LocksetTable.{Stored, stored_coded};
    ghost use Rattle.er_table.specs.Sets.{most_sets};

    ghost Value = { Stored };

    ghost coded = { stored_coded };

    ghost view = { λ t. record { shelves = t.sets; limit = t.max_sets } };

    ghost invariant = { λ t. (1 ≤ t.max_sets) × (t.max_sets ≤ most_sets) };
}

impl LocksetTable {
    /// A table with no sets, which takes `max_sets` of them. Whoever chooses the sets can make it slow: see
    /// [`keyed`](LocksetTable::keyed).
    pub fn new(alloc: Global, max_sets: u32) -> Result<LocksetTable, AllocError>
        requires some { 1 ≤ max_sets }
        requires few { max_sets ≤ most_sets }
        ensures { IfOk result (λ table. table.limit ≡ max_sets) }
    {
        LocksetTable::keyed(alloc, max_sets, HashKeys::KNOWN)
    }

    /// The same, with sets and numbers of sets that are hashed by these keys, also at each owner of the table.
    pub fn keyed(alloc: Global, max_sets: u32, keys: HashKeys) -> Result<LocksetTable, AllocError>
        requires some { 1 ≤ max_sets }
        requires few { max_sets ≤ most_sets }
        ensures { IfOk result (λ table. table.limit ≡ max_sets) }
    {
        Ok(LocksetTable {
            sets: Vec::new(alloc)?,
            book: Mutex::new(Book::keyed(alloc, max_sets as usize, keys)),
            max_sets,
            keys,
        })
    }

    /// What names the set, which is stored if no thread stored it before. Refused (`TableFull`) exactly if it isn't stored, there is
    /// memory, and the table has all the sets that it takes (`full` and `full_only_at_limit` of `Book::intern`, which is called here).
    pub fn intern<R: Wait>(&self, rt: &R, set: &Lockset) -> Result<SetRef, NoRoom>
        ensures named { IfOk result (λ r. IsOf self.now.shelves r × (set_of r ≡ set.now)) }
        ensures refusals { ¬ IsErrOf result NoRoom.JournalFull }
    {
        self.book.lock(rt).intern(rt, &self.sets, set)
    }

    /// The set that is named, at any time and in any thread, with no lock taken.
    pub fn get(&self, set_ref: &SetRef) -> &Lockset
        requires { IsOf self.now.shelves set_ref.now }
        ensures { result.now ≡ set_of set_ref.now }
    {
        set_ref.read(&self.sets)
    }

    /// How many sets it has.
    pub fn sets<R: Wait>(&self, rt: &R) -> usize {
        self.book.lock(rt).len()
    }

    /// How many sets it takes.
    pub fn max_sets(&self) -> u32
        ensures limit { result ≡ self.now.limit }
        ensures some { 1 ≤ result }
        ensures few { result ≤ most_sets }
    {
        self.max_sets
    }

    /// The keys by which it and its owners hash.
    pub(crate) fn keys(&self) -> HashKeys {
        self.keys
    }
}
