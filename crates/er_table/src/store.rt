//! Where an owner keeps the sets that it numbers: in a table that it shares with others, or by itself.
ghost use Rattle.std.specs.Prelude.{◌≡◌, ◌<◌, ◌≤◌, ℕ, List, [], ◌∷◌, ◌++◌, length, IfOk, IfErr, OnOk, OnErr, IsErrOf, Contains};
ghost use Rattle.std.specs.List.Sorted.{IsStrictlyIncreasing};
ghost use Rattle.er_table.specs.Numbers.{behind};
ghost use Rattle.er_table.specs.Sets.{set_at, most_sets};

use crate::LocksetTable;
use er_event::{LockId, Lockset, NoRoom};
use er_keys::{HashKeys, NumberHasher};
use indexmap::IndexSet;
use std::alloc::{AllocError, Global};
use std::collections::HashMap;
use std::hash::BuildHasher;
use std::marker::Model;
use std::sync::Wait;

/// Where an owner keeps its sets, in the order in which they came.
pub trait Store: Drop {
    /// The sets that are kept.
    ghost kept: { Self → List (List ℕ) };

    /// How many sets its owner may number.
    ghost limit: { Self → ℕ };

    /// What a set is hashed to.
    ghost hash_of: { Self → List ℕ → ℕ };

    /// How many sets are kept.
    fn len(&self) -> usize
        ensures { result ≡ length (kept self.now) };

    /// The set at a place.
    fn get(&self, place: usize) -> &[LockId]
        requires { place < length (kept self.now) }
        ensures set { result.now ≡ set_at (kept self.now) place }
        ensures rising { IsStrictlyIncreasing result.now };

    /// Where a set stands, or else, as an error, what it is hashed to.
    fn place_of(&self, set: &Lockset) -> Result<usize, u64>
        ensures within { IfOk result (λ place. place < length (kept self.now)) }
        ensures found { IfOk result (λ place. set_at (kept self.now) place ≡ set.now) }
        ensures none { OnErr result (¬ Contains (kept self.now) set.now) }
        ensures hash { IfErr result (λ hash. hash ≡ hash_of self.now set.now) };

    /// How many sets its owner may number.
    fn max_sets(&self) -> u32
        ensures { result ≡ limit self.now };
}

/// A store that takes more sets, by a handle of type `R`.
pub trait Grow<R>: Store {
    /// Takes one more set, with what it is hashed to.
    fn push(&mut self, rt: &R, set: &Lockset, hash: u64) -> Result<(), NoRoom>
        requires new { ¬ Contains (Self.kept self.old) set.now }
        requires hash { hash ≡ Self.hash_of self.old set.now }
        ensures ok { OnOk result (Self.kept self.new ≡ Self.kept self.old ++ set.now ∷ []) }
        ensures err { OnErr result (Self.kept self.new ≡ Self.kept self.old) }
        ensures limit { Self.limit self.new ≡ Self.limit self.old }
        ensures refusals { ¬ IsErrOf result NoRoom.JournalFull };
}

/// The sets of a table that one owner met. Each stands in the table alone.
#[derive(Drop)]
pub struct Shared<'t> {
    table: &'t LocksetTable,
    sets: IndexSet<&'t Lockset, NumberHasher>,
}

impl<'t> Shared<'t> {
    pub(crate) fn new(alloc: Global, table: &'t LocksetTable) -> Result<Shared<'t>, AllocError>
        ensures none { IfOk result (λ store. behind store.sets.keys ≡ []) }
        ensures few { IfOk result (λ store. store.table.now.limit ≤ most_sets) }
    {
        let _max_sets = table.max_sets();
        Ok(Shared {
            table,
            sets: IndexSet::with_capacity_and_hasher(alloc, 1, NumberHasher::new(table.keys()))?,
        })
    }
}

impl<'t> Store for Shared<'t> {
    ghost kept = { λ store. behind store.sets.keys };

    ghost limit = { λ store. store.table.now.limit };

    ghost hash_of = { λ _ _. 0 };

    #[inline]
    fn len(&self) -> usize {
        self.sets.len()
    }

    #[inline]
    fn get(&self, place: usize) -> &[LockId] {
        self.sets.as_slice()[place].as_slice()
    }

    #[inline]
    fn place_of(&self, set: &Lockset) -> Result<usize, u64> {
        self.sets.get_index_of(&set).ok_or(0)
    }

    fn max_sets(&self) -> u32 {
        self.table.max_sets()
    }
}

/// The table may make it wait.
impl<'t, R: Wait> Grow<R> for Shared<'t> {
    #[inline]
    fn push(&mut self, rt: &R, set: &Lockset, _hash: u64) -> Result<(), NoRoom> {
        self.sets.reserve(1)?;
        let set_ref = self.table.intern(rt, set)?;
        self.sets.insert(self.table.get(&set_ref)).unwrap();
        Ok(())
    }
}

/// Sets that one owner has for itself. Their locks lie one behind the other in one piece of memory.
#[derive(Drop)]
pub struct Owned {
    locks: Vec<LockId>,
    spans: Vec<Span>,
    // How many sets there were when the newest one of a hash had come.
    newest: HashMap<u64, usize, NumberHasher>,
    hasher: NumberHasher,
    max_sets: u32,
}

// Where the locks of a set lie, and how many sets there were when the newest one before it with the same hash had come, or 0.
#[derive(Clone, Copy)]
struct Span {
    start: usize,
    end: usize,
    older: usize,
}

impl Model for Owned {
    ghost use Rattle.std.specs.Prelude.{nat_eq};
    ghost use Rattle.std.specs.HashMap.{get};
    ghost use Rattle.er_table.specs.Owned.{OwnSets, cut, AreLaid};

    ghost Value = { OwnSets };

    ghost view = { λ o. record { sets = cut o.locks.items o.spans.items; limit = o.max_sets; hasher = o.hasher } };

    ghost invariant = { λ o. AreLaid o.hasher o.locks.items o.spans.items (get nat_eq o.newest) };
}

impl Owned {
    pub(crate) fn keyed(alloc: Global, max_sets: u32, keys: HashKeys) -> Owned
        ensures none { result.sets ≡ [] }
        ensures limit { result.limit ≡ max_sets }
    {
        let hasher = NumberHasher::new(keys);
        Owned {
            locks: Vec::new(alloc),
            spans: Vec::new(alloc),
            newest: HashMap::with_hasher(alloc, hasher),
            hasher,
            max_sets,
        }
    }
}

impl Store for Owned {
    ghost use Rattle.er_table.specs.Owned.{hash_by};

    ghost kept = { λ store. store.sets };

    ghost limit = { λ store. store.limit };

    ghost hash_of = { λ store set. hash_by store.hasher set };

    #[inline]
    fn len(&self) -> usize {
        self.spans.len()
    }

    #[inline]
    fn get(&self, place: usize) -> &[LockId] {
        let span = self.spans[place];
        &self.locks[span.start..span.end]
    }

    fn place_of(&self, set: &Lockset) -> Result<usize, u64> {
        let hash = self.hasher.hash_one(set);
        let mut count = self.newest.get(&hash).copied().unwrap_or(0);
        while count > 0 {
            let place = count - 1;
            if self.get(place) == set.as_slice() {
                return Ok(place);
            }
            count = self.spans[place].older;
        }
        Err(hash)
    }

    fn max_sets(&self) -> u32 {
        self.max_sets
    }
}

/// It waits for nobody, whatever the handle.
impl<R> Grow<R> for Owned {
    fn push(&mut self, _rt: &R, set: &Lockset, hash: u64) -> Result<(), NoRoom> {
        self.spans.reserve(1)?;
        self.newest.reserve(1)?;
        let start = self.locks.len();
        self.locks.extend_from_slice(set.as_slice())?;
        let end = self.locks.len();
        let replaced: Result<_, _> = self.newest.insert(hash, self.spans.len() + 1);
        let older = replaced.unwrap().unwrap_or(0);
        self.spans.push_reserved(Span { start, end, older });
        Ok(())
    }
}
