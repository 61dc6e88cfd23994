//! Where each set of a table stands.
ghost use Rattle.std.specs.Prelude.{◌≡◌, ◌<◌, ◌≤◌, ◌↔◌, [], ◌∷◌, ◌++◌, length, IfOk, IsOkUnless, OnOk, OnErr, IsErrOf, Contains};
ghost use Rattle.indexmap.specs.IndexMap.{keys};
ghost use Rattle.er_table.specs.SetRef.{IsOf, set_of};
ghost use Rattle.er_table.specs.Sets.{with_set, IsNoted};

use crate::SetRef;
use boxcar::Vec;
use er_event::{Lockset, NoRoom};
use er_keys::{HashKeys, NumberHasher};
use indexmap::IndexMap;
use std::alloc::{AllocError, Global};
use std::marker::Model;
use std::sync::Wait;

/// The sets of a table, which only ever become more.
pub type Sets = Vec<Lockset>;

/// Which sets a table has, and where each stands. Contracts see the sets, and how many there may be.
#[derive(Drop)]
pub struct Book {
    places: IndexMap<Lockset, usize, NumberHasher>,
    max_sets: usize,
}

impl Model for Book {
    ghost use Rattle.indexmap.specs.IndexMap.{keys};
    ghost use Rattle.er_table.specs.Sets.{Noted, IsNoted};

    ghost Value = { Noted };

    ghost view = { λ b. record { sets = keys b.places; limit = b.max_sets } };

    ghost invariant = { λ b. IsNoted (record { sets = keys b.places; limit = b.max_sets }) };
}

impl Book {
    /// A book with no sets. Whoever chooses the sets can make it slow.
    pub fn new(alloc: Global, max_sets: usize) -> Book
        ensures sets { result.sets ≡ [] }
        ensures limit { result.limit ≡ max_sets }
    {
        Book::keyed(alloc, max_sets, HashKeys::KNOWN)
    }

    /// The same, with sets that are hashed by these keys.
    pub(crate) fn keyed(alloc: Global, max_sets: usize, keys: HashKeys) -> Book
        ensures sets { result.sets ≡ [] }
        ensures limit { result.limit ≡ max_sets }
    {
        Book {
            places: IndexMap::with_hasher(alloc, NumberHasher::new(keys)),
            max_sets,
        }
    }

    /// How many sets it has.
    pub fn len(&self) -> usize
        ensures count { result ≡ length self.now.sets }
        ensures noted { IsNoted self.now }
    {
        self.places.len()
    }

    /// What names the set in `sets`. A set that it hasn't, or that `sets` doesn't show where it should be, is pushed.
    pub fn intern<R: Wait>(&mut self, rt: &R, sets: &Sets, set: &Lockset) -> Result<SetRef, NoRoom>
        ensures named { IfOk result (λ r. IsOf sets.now r × (set_of r ≡ set.now)) }
        ensures limit { self.new.limit ≡ self.old.limit }
        ensures ok { OnOk result (self.new.sets ≡ with_set self.old.sets set.now) }
        ensures err { OnErr result (self.new.sets ≡ self.old.sets) }

        // A set that is here is never refused for want of a place.
        ensures full_only_at_limit { IsErrOf result NoRoom.TableFull → self.old.limit ≤ length self.old.sets }
        ensures full_only_if_new { IsErrOf result NoRoom.TableFull → ¬ Contains self.old.sets set.now }
        ensures full { self.old.limit ≤ length self.old.sets → ¬ Contains self.old.sets set.now → IsErrOf result NoRoom.TableFull }
        ensures refusals { ¬ IsErrOf result NoRoom.JournalFull }
    {
        let Some(index) = self.places.get_index_of(set) else {
            return self.add(rt, sets, set);
        };
        if let Some(found) = SetRef::at(sets, self.places[index], set) {
            return Ok(found);
        }
        let Ok(pushed) = SetRef::push(rt, sets, set) else {
            return Err(NoRoom::OutOfMemory);
        };
        self.places[index] = pushed.place();
        Ok(pushed)
    }

    fn add<R: Wait>(&mut self, rt: &R, sets: &Sets, set: &Lockset) -> Result<SetRef, NoRoom>
        requires { ¬ Contains self.old.sets set.now }
        ensures named { IfOk result (λ r. IsOf sets.now r × (set_of r ≡ set.now)) }
        ensures limit { self.new.limit ≡ self.old.limit }
        ensures ok { OnOk result (self.new.sets ≡ self.old.sets ++ set.now ∷ []) }
        ensures err { OnErr result (self.new.sets ≡ self.old.sets) }
        ensures full { IsErrOf result NoRoom.TableFull ↔ (self.old.limit ≤ length self.old.sets) }
        ensures refusals { ¬ IsErrOf result NoRoom.JournalFull }
    {
        if self.places.len() >= self.max_sets {
            return Err(NoRoom::TableFull);
        }
        append(&mut self.places, rt, sets, set)
    }
}

// Pushes a set that isn't here yet, and notes where it stands.
#[inline]
fn append<R: Wait>(
    places: &mut IndexMap<Lockset, usize, NumberHasher>,
    rt: &R,
    sets: &Sets,
    set: &Lockset,
) -> Result<SetRef, NoRoom>
    requires { ¬ Contains (keys places.old) set.now }
    ensures named { IfOk result (λ r. IsOf sets.now r × (set_of r ≡ set.now)) }
    ensures ok { OnOk result (keys places.new ≡ keys places.old ++ set.now ∷ []) }
    ensures err { OnErr result (keys places.new ≡ keys places.old) }
    ensures memory { IsOkUnless result NoRoom.OutOfMemory }
{
    places.reserve(1)?;
    let copy = set.copy()?;
    let Ok(pushed) = SetRef::push(rt, sets, set) else {
        drop(copy);
        return Err(NoRoom::OutOfMemory);
    };
    places.insert(copy, pushed.place()).unwrap();
    Ok(pushed)
}
