//! Which thread took a lock's clock last.
ghost use Rattle.std.specs.Prelude.{◌≡◌, ◌⊎◌, ℕ, IsTrue};
ghost use Rattle.er_clock.specs.Inner.Taken.{HasTaken};

use std::alloc::Global;
use std::marker::Model;

/// How many locks are noted at one time.
const SLOTS: usize = 512;

/// A lock, and the thread that took its clock.
#[derive(Clone, Copy)]
pub(crate) struct Taken {
    pub(crate) lock: u32,
    pub(crate) thread: u32,
}

/// Of some locks the thread that took the lock's clock last, if that clock hasn't changed since. A lock that has the same lowest bits as
/// one that is noted takes its place.
#[derive(Drop)]
pub(crate) struct Takers {
    slots: Vec<Option<Taken>>,
}

impl Model for Takers {
    ghost use Rattle.std.specs.Prelude.{List, Option};
    ghost use Rattle.er_clock.specs.declared.takers.Taken.{Taken};

    ghost Value = { List (Option Taken) };

    ghost view = { λ t. t.slots.items };
}

impl Takers {
    /// None is noted. It takes no memory.
    pub(crate) fn new(alloc: Global) -> Takers
        ensures { (l t : ℕ) → HasTaken result l t → ⊥ }
    {
        Takers {
            slots: Vec::new(alloc),
        }
    }

    /// Whether it is noted that the thread took the lock's clock.
    pub(crate) fn has(&self, lock: u32, thread: u32) -> bool
        ensures { IsTrue result → HasTaken self.now lock thread }
    {
        match self.slots.get(lock as usize % SLOTS) {
            Some(Some(taken)) => taken.lock == lock && taken.thread == thread,
            _ => false,
        }
    }

    /// Notes that the thread took the lock's clock. Without memory nothing is noted.
    pub(crate) fn note(&mut self, lock: u32, thread: u32)
        ensures { (l t : ℕ) → HasTaken self.new l t → ((lock ≡ l) × (thread ≡ t)) ⊎ HasTaken self.old l t }
    {
        self.make_room();
        let place = lock as usize % SLOTS;
        if place < self.slots.len() {
            self.slots[place] = Some(Taken { lock, thread });
        }
    }

    // Makes room for all notes, unless it is there.
    fn make_room(&mut self)
        ensures { (l t : ℕ) → HasTaken self.new l t → HasTaken self.old l t }
    {
        if self.slots.is_empty() {
            let _ = self.slots.resize(SLOTS, None);
        }
    }

    /// Nothing is noted of the lock.
    pub(crate) fn forget(&mut self, lock: u32)
        ensures { (l t : ℕ) → HasTaken self.new l t → (lock ≡ l → ⊥) × HasTaken self.old l t }
    {
        let place = lock as usize % SLOTS;
        if place < self.slots.len() {
            self.slots[place] = None;
        }
    }
}
