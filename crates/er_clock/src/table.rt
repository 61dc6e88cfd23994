//! Clocks by number.
ghost use Rattle.std.specs.Prelude.{◌≡◌, ◌≤◌, ◌<◌, ◌==◌, ℕ, max, cond, IsTrue, OnOk, OnErr};
ghost use Rattle.er_clock.specs.Clock.{count_in, Joins, Stays};
ghost use Rattle.er_clock.specs.Table.{known_by};

use crate::Put;
use crate::clock::Clock;
use crate::room::Room;
use er_keys::{HashKeys, Hints, NumberHasher, index_of};
use indexmap::IndexMap;
use std::alloc::Global;
use std::marker::Model;
use std::mem;

/// The clocks of what is in use (threads, locks or objects), by its number. Any other clock is empty and takes no memory.
#[derive(Drop)]
pub(crate) struct ClockTable {
    clocks: IndexMap<u64, Clock, NumberHasher>,
    // Where the clock of a number stands.
    places: Hints,
    empty: Clock,
}

impl Model for ClockTable {
    ghost use Rattle.std.specs.Prelude.{ℕ, List};
    ghost use Rattle.er_clock.specs.Clock.{Counts, IsZero};

    ghost Value = { List (ℕ × Counts) };

    ghost view = { λ t. t.clocks.entries };

    ghost invariant = { λ t. IsZero t.empty };
}

impl ClockTable {
    /// All are empty. Numbers are hashed by these keys.
    pub(crate) fn new(alloc: Global, keys: HashKeys) -> Self
        ensures { (n u : ℕ) → known_by result n u ≡ 0 }
    {
        ClockTable {
            clocks: IndexMap::with_hasher(alloc, NumberHasher::new(keys)),
            places: Hints::new(alloc),
            empty: Clock::new(alloc),
        }
    }

    /// The clock of this number.
    #[inline]
    pub(crate) fn get(&self, number: u32) -> &Clock
        ensures { (u : ℕ) → count_in result.now u ≡ known_by self.now number u }
    {
        let key = number as u64;
        match index_of(&self.clocks, self.places.hint(key), key) {
            Some(index) => &self.clocks[index],
            None => &self.empty,
        }
    }

    /// Takes of each thread the greater count into the clock of this number. `AllocError`: memory was refused, and all clocks are as
    /// they were. `is_covered` may say that the other clock has as great a count of each thread: then no block is compared.
    pub(crate) fn join(&mut self, number: u32, other: &Clock, is_covered: bool, room: &Room) -> Put
        requires { IsTrue is_covered → (u : ℕ) → known_by self.old number u ≤ count_in other.now u }
        ensures ok { OnOk result ((n u : ℕ) → known_by self.new n u ≡ cond (number == n) (max (known_by self.old n u) (count_in other.now u)) (known_by self.old n u)) }
        ensures err { OnErr result ((n u : ℕ) → known_by self.new n u ≡ known_by self.old n u) }
    {
        let key = number as u64;
        match index_of(&self.clocks, self.places.hint(key), key) {
            Some(index) => {
                self.places.note(key, index);
                let clock = &mut self.clocks[index];
                take(clock, other, is_covered, room)
            }
            None => {
                let mut clock = Clock::new(room.alloc);
                clock.join(other, room)?;
                self.places.note(key, self.clocks.len());
                self.clocks.insert(key, clock)?;
                Ok(())
            }
        }
    }

    /// The clock of this number, which counts something, and the other clock change places.
    pub(crate) fn swap(&mut self, number: u32, other: &mut Clock)
        requires { (u : ℕ) × (0 < known_by self.old number u) }
        ensures { (n u : ℕ) → known_by self.new n u ≡ cond (number == n) (count_in other.old u) (known_by self.old n u) }
    {
        let key = number as u64;
        match index_of(&self.clocks, self.places.hint(key), key) {
            Some(index) => mem::swap(&mut self.clocks[index], other),
            None => {}
        }
    }
}

// Takes of each thread the greater count.
fn take(clock: &mut Clock, other: &Clock, is_covered: bool, room: &Room) -> Put
    requires { IsTrue is_covered → (u : ℕ) → count_in clock.old u ≤ count_in other.now u }
    ensures ok { OnOk result (Joins clock.old other.now clock.new) }
    ensures err { OnErr result (Stays clock.old clock.new) }
{
    if is_covered {
        clock.catch_up(other)
    } else {
        clock.join(other, room)
    }
}
