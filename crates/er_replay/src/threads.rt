//! Every thread's holdings.
ghost use Rattle.std.specs.Prelude.{◌≡◌, ◌&&◌, ℕ, nat_eq, cond, IsTrue, IfErr, OnOk, OnErr, Err, None, Some};
ghost use Rattle.er_event.specs.Lockset.{has};
ghost use Rattle.er_model.specs.Holdings.{refused_by, changed_by};
ghost use Rattle.er_held.specs.Held.{nothing_held};
ghost use Rattle.er_held.specs.ThreadLocks.{changes_holdings, holding_among};
ghost use Rattle.er_replay.specs.Wants.{wants_memory, is_no_memory};

use er_event::{Event, Refusal, ThreadId};
use er_held::Held;
use er_keys::{HashKeys, Hints, NumberHasher, index_of};
use indexmap::IndexMap;
use std::alloc::Global;
use std::marker::Model;

/// The holdings of the threads that took something, by the thread's number. Any other thread has nothing.
#[derive(Drop)]
pub struct Threads {
    held: IndexMap<u64, Held, NumberHasher>,
    // Where a thread stands.
    places: Hints,
    nothing: Held,
    alloc: Global,
}

impl Model for Threads {
    ghost use Rattle.std.specs.Prelude.{◌≡◌, ℕ, List};
    ghost use Rattle.er_held.specs.Held.{nothing_held};
    ghost use Rattle.er_model.specs.Holdings.{Holdings};

    ghost Value = { List (ℕ × Holdings) };

    ghost view = { λ t. t.held.entries };

    ghost invariant = { λ t. t.nothing ≡ nothing_held };
}

impl Threads {
    /// Nobody has anything. Threads are hashed by these keys.
    pub fn new(alloc: Global, keys: HashKeys) -> Threads
        ensures { (t : ℕ) → holding_among result t ≡ nothing_held }
    {
        Threads {
            held: IndexMap::with_hasher(alloc, NumberHasher::new(keys)),
            places: Hints::new(alloc),
            nothing: Held::new(alloc),
            alloc,
        }
    }

    /// The thread's holdings. What it holds in write mode it holds.
    #[inline]
    pub fn get(&self, thread: ThreadId) -> &Held
        ensures found { result.now ≡ holding_among self.now thread }
        ensures within { (l : ℕ) → IsTrue (has result.now.write_held l) → IsTrue (has result.now.held l) }
    {
        let key = u64::from(thread.number());
        match index_of(&self.held, self.places.hint(key), key) {
            Some(index) => {
                let held = &self.held[index];
                let _locks = held.held();
                held
            }
            None => &self.nothing,
        }
    }

    /// Makes the change of one event to its thread's holdings. A refused event changes nothing, and a thread without a place gets one if its event is
    /// accepted.
    #[inline(always)]
    pub fn change(&mut self, thread: ThreadId, event: Event) -> Result<(), Refusal>
        requires { IsTrue (changes_holdings event) }
        ensures accepted { OnOk result (refused_by (holding_among self.old thread) event ≡ None) }
        ensures ok { OnOk result ((t : ℕ) → holding_among self.new t ≡ cond (nat_eq thread t) (changed_by (holding_among self.old thread) event) (holding_among self.old t)) }
        ensures err { OnErr result ((t : ℕ) → holding_among self.new t ≡ holding_among self.old t) }
        ensures refused { (why : Refusal) → refused_by (holding_among self.old thread) event ≡ Some why → result ≡ Err why }
        ensures memory { refused_by (holding_among self.old thread) event ≡ None → IfErr result (λ why. IsTrue (wants_memory event && is_no_memory why)) }
    {
        let key = u64::from(thread.number());
        let hint = self.places.hint(key);
        match index_of(&self.held, hint, key) {
            Some(index) => {
                note_unless(&mut self.places, hint, key, index);
                let held = &mut self.held[index];
                held.change(event)
            }
            None => self.change_first(thread, event),
        }
    }

    // The same of a thread without a place. Apart, so that `change` keeps no room on the stack for new holdings.
    #[inline(never)]
    fn change_first(&mut self, thread: ThreadId, event: Event) -> Result<(), Refusal>
        requires change { IsTrue (changes_holdings event) }
        requires none { holding_among self.old thread ≡ nothing_held }
        ensures accepted { OnOk result (refused_by nothing_held event ≡ None) }
        ensures ok { OnOk result ((t : ℕ) → holding_among self.new t ≡ cond (nat_eq thread t) (changed_by nothing_held event) (holding_among self.old t)) }
        ensures err { OnErr result ((t : ℕ) → holding_among self.new t ≡ holding_among self.old t) }
        ensures refused { (why : Refusal) → refused_by nothing_held event ≡ Some why → result ≡ Err why }
        ensures memory { refused_by nothing_held event ≡ None → IfErr result (λ why. IsTrue (wants_memory event && is_no_memory why)) }
    {
        let mut held = Held::new(self.alloc);
        held.change(event)?;
        let key = u64::from(thread.number());
        self.places.note(key, self.held.len());
        self.held.insert(key, held)?;
        Ok(())
    }
}

// Notes where a key stands, unless the hint says so.
#[inline(always)]
fn note_unless(places: &mut Hints, hint: usize, key: u64, index: usize) {
    if index != hint {
        places.note(key, index);
    }
}
