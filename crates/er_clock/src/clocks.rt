//! The clocks of a list of steps.
ghost use Rattle.std.specs.Prelude.{◌≡◌, ◌↔◌, ◌-◌, ◌^◌, ◌++◌, ◌∷◌, [], ℕ, List, Some, IsTrue, OnOk, OnErr, IsErrOf};
ghost use Rattle.er_event.specs.declared.steps.Step.{Step as Steps};
ghost use Rattle.er_order.specs.Order.{Effect, sync_of, effect_of};
ghost use Rattle.er_order.specs.Clocks.{OfThread};
ghost use Rattle.er_clock.specs.Counts.{count_by};
ghost use Rattle.er_clock.specs.Crowding.{is_late, crowds, crowds_by, orders_by, act_flows, IsBeyond};
ghost use Rattle.er_clock.specs.declared.clock.Limit.{Limit as Limits};

use crate::clock::{Limit, NoTick};
use crate::table::ClockTable;
use crate::takers::Takers;
use crate::threads::{ThreadClock, ThreadClocks};
use crate::{Moved, Put};
use er_event::{Event, LockId, Mode, Step, Sync, ThreadId};
use er_keys::HashKeys;
use std::alloc::Global;
use std::marker::Model;

/// What each thread, each lock for its releases in either mode, and each object knows of the threads' steps.
#[derive(Drop)]
pub struct Clocks {
    threads: ThreadClocks,
    written: ClockTable,
    read: ClockTable,
    objects: ClockTable,
    // Who took the clock of a lock's releases in write mode: that thread knows all that the clock has.
    takers: Takers,
}

impl Model for Clocks {
    ghost use Rattle.er_clock.specs.Standing.{ClockMaps};

    ghost Value = { ClockMaps };

    ghost view = { λ c. record { threads = c.threads; written = c.written; read = c.read; objects = c.objects } };

    ghost use Rattle.er_clock.specs.Inner.Taken.{KnowTheirs};

    ghost invariant = { λ c. KnowTheirs c.threads c.written c.takers };
}

impl Clocks {
    ghost use Rattle.er_clock.specs.Standing.{counts, SameCounts, Moves, act_if, StandsForClocksOf, is_accepted};

    /// The clocks before any step, found by keys that everybody knows: for lists that weren't made to be slow.
    pub fn new(alloc: Global) -> Self
        ensures { StandsForClocksOf result [] }
    {
        Clocks::keyed(alloc, HashKeys::KNOWN)
    }

    /// The clocks before any step: each thread knows its own count alone, which begins at 1. They are found by these keys.
    pub fn keyed(alloc: Global, keys: HashKeys) -> Self
        ensures { StandsForClocksOf result [] }
    {
        Clocks {
            threads: ThreadClocks::new(alloc, keys),
            written: ClockTable::new(alloc, keys),
            read: ClockTable::new(alloc, keys),
            objects: ClockTable::new(alloc, keys),
            takers: Takers::new(alloc),
        }
    }

    /// The clock of the thread.
    pub fn clock(&self, thread: ThreadId) -> ThreadClock<'_>
        ensures clock { (u : ℕ) → count_by result u ≡ counts self.now (OfThread thread) u }
        ensures thread { result.0 ≡ thread }
    {
        self.threads.get(thread)
    }

    /// Goes on by one step, which is accepted or refused. A refused step moves nothing. After an error no count has changed, and the
    /// step may be tried again.
    ///
    /// # Errors
    /// `Limit::Threads`: an accepted step that orders threads is by a thread whose number is 65,536 or more, or starts or joins one. Else
    /// `Limit::Clocks`: the clocks are too large, or were too much work, and the step's thread knows a step of a thread after the first 128, be it its
    /// own. Else `Limit::Count`: a thread's own count would rise, and is the greatest. `OutOfMemory`: memory was refused.
    pub fn follow(&mut self, step: &Step, accepted: bool) -> Result<(), NoTick>
        ensures goes_on { (steps : List Steps) → StandsForClocksOf self.old steps → accepted ≡ is_accepted steps step.now
            → OnOk result (StandsForClocksOf self.new (steps ++ step.now ∷ [])) }
        ensures err { OnErr result (SameCounts self.old self.new) }
        ensures limit { (limit : Limits) → IsErrOf result (NoTick.Beyond limit) → IsBeyond limit (counts self.old) (act_if accepted step.now) }
        ensures crowded { IsErrOf result (NoTick.Beyond Limit.Threads) ↔ IsTrue (crowds (act_if accepted step.now)) }

        // The same by the clocks' own counts.
        ensures moves { OnOk result (Moves self.old (act_if accepted step.now) self.new) }
    {
        if accepted {
            if !orders(step.event) {
                return Ok(());
            }
            if crowds(step.thread, step.event) {
                return Err(NoTick::Beyond(Limit::Threads));
            }
            if self.threads.is_large(step.thread) {
                return Err(NoTick::Beyond(Limit::Clocks));
            }
            self.threads.grow()?;
            self.take(step.thread, step.event)
        } else {
            Ok(())
        }
    }

    // What an accepted event moves.
    fn take(&mut self, thread: ThreadId, event: Event) -> Moved
        ensures ok { OnOk result (Moves self.old (Some (record { thread = thread; sync = sync_of event })) self.new) }
        ensures err { OnErr result (SameCounts self.old self.new) }
        ensures full { IsErrOf result (NoTick.Beyond Limit.Count)
            → (t : ℕ) × IsTrue (act_flows (Some (record { thread = thread; sync = sync_of event })) t) × (counts self.old (OfThread t) t ≡ 2 ^ 32 - 1) }
        ensures others { (limit : Limits) → IsErrOf result (NoTick.Beyond limit) → limit ≡ Limit.Count }
    {
        match event {
            Event::Acquire(lock, mode) => Ok(self.acquire(thread, lock, mode)?),
            Event::Release(lock, mode) => self.release(thread, lock, mode),
            Event::Sync(sync) => self.synchronize(thread, sync),
            Event::Access(..)
            | Event::Reuse(_)
            | Event::IgnoreOn
            | Event::IgnoreOff
            | Event::Show(_)
            | Event::Level(_) => Ok(()),
        }
    }

    // The same of an event that orders threads and holds no lock.
    fn synchronize(&mut self, thread: ThreadId, sync: Sync) -> Moved
        ensures ok { OnOk result (Moves self.old (Some (record { thread = thread; sync = effect_of sync })) self.new) }
        ensures err { OnErr result (SameCounts self.old self.new) }
        ensures full { IsErrOf result (NoTick.Beyond Limit.Count)
            → (t : ℕ) × IsTrue (act_flows (Some (record { thread = thread; sync = effect_of sync })) t) × (counts self.old (OfThread t) t ≡ 2 ^ 32 - 1) }
        ensures others { (limit : Limits) → IsErrOf result (NoTick.Beyond limit) → limit ≡ Limit.Count }
    {
        match sync {
            Sync::Start(started) => self.threads.hand_on(thread, started),
            Sync::Join(joined) => self.threads.hand_on(joined, thread),
            Sync::Signal(object) => {
                self.threads
                    .give(thread, &mut self.objects, object.number(), false)
            }
            // The signals before happen before what comes now.
            Sync::Await(object) => {
                let signals = self.objects.get(object.number());
                Ok(self.threads.take(thread, signals)?)
            }
        }
    }

    // The releases before happen before what comes now: two in read mode don't order each other.
    fn acquire(&mut self, thread: ThreadId, lock: LockId, mode: Mode) -> Put
        ensures ok { OnOk result (Moves self.old (Some (record { thread = thread; sync = Effect.Acquired lock mode })) self.new) }
        ensures err { OnErr result (SameCounts self.old self.new) }
    {
        let written = self.written.get(lock.number());
        match mode {
            Mode::Read => self.threads.take(thread, written),
            Mode::Write => {
                let read = self.read.get(lock.number());
                self.threads.take_both(thread, written, read)?;
                self.takers.note(lock.number(), thread.number());
                Ok(())
            }
        }
    }

    // What the thread knows goes to the lock's releases in the mode.
    fn release(&mut self, thread: ThreadId, lock: LockId, mode: Mode) -> Moved
        ensures ok { OnOk result (Moves self.old (Some (record { thread = thread; sync = Effect.Released lock mode })) self.new) }
        ensures err { OnErr result (SameCounts self.old self.new) }
        ensures full { IsErrOf result (NoTick.Beyond Limit.Count) → counts self.old (OfThread thread) thread ≡ 2 ^ 32 - 1 }
        ensures others { (limit : Limits) → IsErrOf result (NoTick.Beyond limit) → limit ≡ Limit.Count }
    {
        match mode {
            Mode::Read => self
                .threads
                .give(thread, &mut self.read, lock.number(), false),
            Mode::Write => {
                let is_covered = self.takers.has(lock.number(), thread.number());
                self.takers.forget(lock.number());
                self.threads
                    .give(thread, &mut self.written, lock.number(), is_covered)
            }
        }
    }
}

// Whether an event orders threads.
fn orders(event: Event) -> bool
    ensures { result ≡ orders_by (sync_of event) }
{
    matches!(
        event,
        Event::Acquire(..) | Event::Release(..) | Event::Sync(_)
    )
}

// Whether clocks lack room for a thread that the event is of.
fn crowds(thread: ThreadId, event: Event) -> bool
    ensures { result ≡ crowds_by thread (sync_of event) }
{
    match event {
        Event::Acquire(..) | Event::Release(..) => is_late(thread),
        Event::Sync(sync) => match sync {
            Sync::Start(other) | Sync::Join(other) => is_late(thread) || is_late(other),
            Sync::Signal(_) | Sync::Await(_) => is_late(thread),
        },
        _ => false,
    }
}

// Whether the thread comes after those that clocks have room for.
fn is_late(thread: ThreadId) -> bool
    ensures { result ≡ is_late thread }
{
    thread.number() >= 65_536
}
