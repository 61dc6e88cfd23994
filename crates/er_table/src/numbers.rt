//! Numbers for the sets of a store, as its owner gives them.
ghost use Rattle.std.specs.Prelude.{◌≡◌, ◌+◌, ◌<◌, ◌≤◌, [], ◌∷◌, ◌++◌, length, IsTrue, IsFalse, IsOk, IfOk, IfSome, OnOk, OnErr, IsErrOf, Contains};
ghost use Rattle.std.specs.List.Sorted.{IsStrictlyIncreasing};
ghost use Rattle.er_event.specs.Lockset.{meet};
ghost use Rattle.er_table.specs.Numbers.{IsNumbered};
ghost use Rattle.er_table.specs.Sets.{set_at, AreDistinct, most_sets};

use crate::{Grow, Store};
use er_event::{LockId, Lockset, NoRoom};
use std::marker::Model;

/// One owner's numbers for the sets of its store. Contracts see the sets, by number.
#[derive(Drop)]
pub(crate) struct Numbers<S: Store> {
    others: S,
}

impl<S: Store> Model for Numbers<S> {
    ghost use Rattle.std.specs.Prelude.{List, ℕ};
    ghost use Rattle.er_table.specs.Numbers.{numbered, AreNumbers};

    ghost Value = { List (List ℕ) };

    ghost view = { λ n. numbered (S.kept n.others) };

    ghost invariant = { λ n. AreNumbers (S.limit n.others) (numbered (S.kept n.others)) };
}

impl<S: Store> Numbers<S> {
    /// The empty set alone has a number yet.
    pub(crate) fn new(others: S) -> Numbers<S>
        requires none { S.kept others ≡ [] }
        requires few { S.limit others ≤ most_sets }
        ensures { result ≡ [] ∷ [] }
    {
        Numbers { others }
    }

    pub(crate) fn count(&self) -> u32
        ensures count { result ≡ length self.now }
        ensures some { 0 < result }
        ensures small { result ≤ most_sets + 1 }
        ensures distinct { AreDistinct self.now }
        ensures empty { set_at self.now 0 ≡ [] }
    {
        self.others.len() as u32 + 1
    }

    pub(crate) fn set(&self, number: u32) -> &[LockId]
        requires { number < length self.now }
        ensures set { result.now ≡ set_at self.now number }
        ensures empty { set_at self.now 0 ≡ [] }
        ensures only_empty { set_at self.now number ≡ [] → number ≡ 0 }
        ensures rising { IsStrictlyIncreasing result.now }
    {
        if number == 0 {
            &[]
        } else {
            self.others.get(number as usize - 1)
        }
    }

    /// The number of the locks that two sets have in common, if one of the two has that number.
    pub(crate) fn plain_meet(&self, first: u32, second: u32) -> Option<u32>
        requires first { first < length self.now }
        requires second { second < length self.now }
        ensures number { IfSome result (λ n. n < length self.now) }
        ensures names { IfSome result (λ n. set_at self.now n ≡ meet (set_at self.now first) (set_at self.now second)) }
        ensures empty { IfSome result (λ n. meet (set_at self.now first) (set_at self.now second) ≡ [] → n ≡ 0) }
        ensures only_empty { IfSome result (λ n. n ≡ 0 → meet (set_at self.now first) (set_at self.now second) ≡ []) }
    {
        let _others = &self.others;
        if first == second {
            Some(first)
        } else if first == 0 || second == 0 {
            Some(0)
        } else {
            None
        }
    }

    /// The number of a set, which is the next one if it had none.
    pub(crate) fn number_of<R>(&mut self, rt: &R, set: &Lockset) -> Result<u32, NoRoom>
    where
        S: Grow<R>,
        ensures numbered { IsNumbered self.old set.now result self.new }
        ensures found { Contains self.old set.now → IsOk result }
    {
        let others = &self.others;
        if set.is_empty() {
            return Ok(0);
        }
        match others.place_of(set) {
            Ok(place) => Ok(place as u32 + 1),
            Err(_) if self.has_all(others.max_sets()) => Err(NoRoom::TableFull),
            Err(hash) => {
                let others = &mut self.others;
                let number = others.len() as u32 + 1;
                others.push(rt, set, hash)?;
                Ok(number)
            }
        }
    }

    /// The number of the locks that two sets have in common. They are written into `both`.
    pub(crate) fn number_of_meet<R>(
        &mut self,
        rt: &R,
        first: u32,
        second: u32,
        both: &mut Lockset,
    ) -> Result<u32, NoRoom>
    where
        S: Grow<R>,
        requires first { first < length self.old }
        requires second { second < length self.old }
        ensures { IsNumbered self.old (meet (set_at self.old first) (set_at self.old second)) result self.new }
    {
        both.become_meet(self.set(first), self.set(second))?;
        self.number_of(rt, both)
    }

    // Whether it has numbered so many sets, beside the empty one.
    fn has_all(&self, max_sets: u32) -> bool
        ensures all { IsTrue result → max_sets < length self.now }
        ensures not_all { IsFalse result → length self.now ≤ max_sets }
    {
        self.others.len() >= max_sets as usize
    }
}
