//! The clocks of the threads, where each thread's own count begins at 1.
ghost use Rattle.std.specs.Prelude.{◌≡◌, ◌≤◌, ◌<◌, ◌+◌, ◌-◌, ◌^◌, ◌&&◌, ◌==◌, ℕ, cond, max, IsTrue, OnOk, OnErr, IsErrOf};
ghost use Rattle.er_order.specs.Clocks.{covers};
ghost use Rattle.er_clock.specs.Clock.{count_in};
ghost use Rattle.er_clock.specs.Table.{known_by};
ghost use Rattle.er_clock.specs.Counts.{own_begun, known_to, count_by};
ghost use Rattle.er_clock.specs.declared.clock.Limit.{Limit as Limits};

use crate::clock::{Clock, Epoch, Limit, NoTick};
use crate::room::Room;
use crate::table::ClockTable;
use crate::{Moved, Put};
use er_event::ThreadId;
use er_keys::HashKeys;
use std::alloc::Global;
use std::marker::Model;

/// A thread's clock, to look at. Contracts see the thread and the counts that are kept for it; its own count is 1 or more.
#[derive(Drop)]
pub struct ThreadClock<'c> {
    thread: ThreadId,
    clock: &'c Clock,
}

impl<'c> Model for ThreadClock<'c> {
    ghost use Rattle.std.specs.Prelude.{ℕ};
    ghost use Rattle.er_clock.specs.Clock.{Counts};

    ghost Value = { ℕ × Counts };

    ghost view = { λ c. (c.thread, c.clock.now) };
}

impl<'c> ThreadClock<'c> {
    /// The count of the thread up to which this clock's thread knows its steps.
    pub fn count(&self, thread: ThreadId) -> u32
        ensures { result ≡ count_by self.now thread }
    {
        let known = self.clock.count(thread);
        if thread == self.thread && known == 0 {
            1
        } else {
            known
        }
    }

    /// The epoch in which its thread is.
    pub fn epoch(&self) -> Epoch
        ensures { result ≡ (record { thread = self.now.0; count = count_by self.now self.now.0 }) }
    {
        let thread = self.thread;
        Epoch {
            thread,
            count: self.count(thread),
        }
    }

    /// Whether what the thread of the epoch did in it happens before what this clock's thread does now.
    pub fn covers(&self, epoch: Epoch) -> bool
        ensures { result ≡ covers (count_by self.now) (epoch.thread, epoch.count) }
    {
        let Epoch { thread, count } = epoch;
        count <= self.count(thread)
    }
}

/// The clocks of the threads.
#[derive(Drop)]
pub(crate) struct ThreadClocks {
    table: ClockTable,
    // What is on its way from one clock to another.
    carried: Clock,
    // What becomes of the clock of the thread that hands on what it knows.
    next: Clock,
    room: Room,
}

impl Model for ThreadClocks {
    ghost use Rattle.er_clock.specs.Counts.{ClockMap};

    ghost Value = { ClockMap };

    ghost view = { λ t. t.table };
}

impl ThreadClocks {
    /// No thread knows another's steps.
    pub(crate) fn new(alloc: Global, keys: HashKeys) -> Self
        ensures { (t u : ℕ) → known_to result t u ≡ own_begun t u }
    {
        ThreadClocks {
            table: ClockTable::new(alloc, keys),
            carried: Clock::new(alloc),
            next: Clock::new(alloc),
            room: Room::new(alloc),
        }
    }

    /// Makes room for what one step more may add to the clocks.
    #[inline(always)]
    pub(crate) fn grow(&mut self) -> Put
        ensures { self.new ≡ self.old }
    {
        self.room.grow()
    }

    /// Whether the clocks are too large, or were too much work, and the thread knows a step of one after the first 128. A thread that knows none adds little.
    #[inline(always)]
    pub(crate) fn is_large(&self, thread: ThreadId) -> bool
        ensures { IsTrue result → (u : ℕ) × (128 ≤ u) × (0 < known_to self.now thread u) }
    {
        self.room.is_full() && self.table.get(thread.number()).later().is_some()
    }

    /// The clock of the thread, to look at.
    pub(crate) fn get(&self, thread: ThreadId) -> ThreadClock<'_>
        ensures clock { (u : ℕ) → count_by result u ≡ known_to self.now thread u }
        ensures thread { result.0 ≡ thread }
    {
        ThreadClock {
            thread,
            clock: self.table.get(thread.number()),
        }
    }

    /// Takes what a clock knows into the thread's. An error changes no count.
    pub(crate) fn take(&mut self, thread: ThreadId, found: &Clock) -> Put
        ensures ok { OnOk result ((t u : ℕ) → known_to self.new t u ≡ cond (t == thread) (max (known_to self.old t u) (count_in found.now u)) (known_to self.old t u)) }
        ensures err { OnErr result ((t u : ℕ) → known_to self.new t u ≡ known_to self.old t u) }
    {
        self.table.join(thread.number(), found, false, &self.room)
    }

    /// Takes what two clocks know into the thread's. An error changes no count.
    pub(crate) fn take_both(&mut self, thread: ThreadId, one: &Clock, other: &Clock) -> Put
        ensures ok { OnOk result ((t u : ℕ) → known_to self.new t u ≡ cond (t == thread) (max (known_to self.old t u) (max (count_in one.now u) (count_in other.now u))) (known_to self.old t u)) }
        ensures err { OnErr result ((t u : ℕ) → known_to self.new t u ≡ known_to self.old t u) }
    {
        // As a rule nobody has released the lock in read mode.
        if other.is_empty() {
            return self.take(thread, one);
        }
        self.carried.clear();
        self.carried.join(one, &self.room)?;
        self.carried.join(other, &self.room)?;
        self.table
            .join(thread.number(), &self.carried, false, &self.room)
    }

    /// Puts what a thread knows into another one's clock, and then its own count rises. `Limit::Count`: its own count is the greatest. An error
    /// changes no count.
    pub(crate) fn hand_on(&mut self, from: ThreadId, to: ThreadId) -> Moved
        ensures ok { OnOk result ((t u : ℕ) → known_to self.new t u ≡ cond (t == to) (max (known_to self.old t u) (known_to self.old from u)) (known_to self.old t u) + cond (t == from && from == u) 1 0) }
        ensures err { OnErr result ((t u : ℕ) → known_to self.new t u ≡ known_to self.old t u) }
        ensures full { IsErrOf result (NoTick.Beyond Limit.Count) → known_to self.old from from ≡ 2 ^ 32 - 1 }
        ensures others { (limit : Limits) → IsErrOf result (NoTick.Beyond limit) → limit ≡ Limit.Count }
    {
        prepare(&mut self.table, &mut self.next, from, &self.room)?;
        self.carried.clear();
        self.carried
            .join(self.table.get(from.number()), &self.room)?;
        self.table
            .join(to.number(), &self.carried, false, &self.room)?;
        self.table.swap(from.number(), &mut self.next);
        Ok(())
    }

    /// Puts what a thread knows into the clock of this number, and then its own count rises. `Limit::Count`: its own count is the greatest. An
    /// error changes no count. `is_covered` may say that the thread knows all that the clock has: then no counts are compared.
    pub(crate) fn give(
        &mut self,
        thread: ThreadId,
        clocks: &mut ClockTable,
        number: u32,
        is_covered: bool,
    ) -> Moved
        requires { IsTrue is_covered → (u : ℕ) → known_by clocks.old number u ≤ known_to self.old thread u }
        ensures ok { OnOk result ((t u : ℕ) → known_to self.new t u ≡ known_to self.old t u + cond (t == thread && thread == u) 1 0) }
        ensures given { OnOk result ((n u : ℕ) → known_by clocks.new n u ≡ cond (number == n) (max (known_by clocks.old n u) (known_to self.old thread u)) (known_by clocks.old n u)) }
        ensures err { OnErr result ((t u : ℕ) → known_to self.new t u ≡ known_to self.old t u) }
        ensures kept { OnErr result ((n u : ℕ) → known_by clocks.new n u ≡ known_by clocks.old n u) }
        ensures full { IsErrOf result (NoTick.Beyond Limit.Count) → known_to self.old thread thread ≡ 2 ^ 32 - 1 }
        ensures others { (limit : Limits) → IsErrOf result (NoTick.Beyond limit) → limit ≡ Limit.Count }
    {
        prepare(&mut self.table, &mut self.next, thread, &self.room)?;
        clocks.join(
            number,
            self.table.get(thread.number()),
            is_covered,
            &self.room,
        )?;
        self.table.swap(thread.number(), &mut self.next);
        Ok(())
    }
}

// Makes the thread ready to hand on what it knows, with no change of what it knows, and `next` its clock with its own count risen.
fn prepare(table: &mut ClockTable, next: &mut Clock, thread: ThreadId, room: &Room) -> Moved
    ensures same { (t u : ℕ) → known_to table.new t u ≡ known_to table.old t u }
    ensures begun { OnOk result (0 < known_by table.new thread thread) }
    ensures risen { OnOk result ((u : ℕ) → count_in next.new u ≡ known_by table.new thread u + cond (thread == u) 1 0) }
    ensures full { IsErrOf result (NoTick.Beyond Limit.Count) → known_to table.old thread thread ≡ 2 ^ 32 - 1 }
    ensures others { (limit : Limits) → IsErrOf result (NoTick.Beyond limit) → limit ≡ Limit.Count }
{
    begin(table, next, thread, room)?;
    next.clear();
    next.join(table.get(thread.number()), room)?;
    next.tick(thread, room)
}

// Puts the thread's own count into its clock, where it isn't yet. `next` is of no more use.
fn begin(table: &mut ClockTable, next: &mut Clock, thread: ThreadId, room: &Room) -> Moved
    ensures same { (t u : ℕ) → known_to table.new t u ≡ known_to table.old t u }
    ensures begun { OnOk result (0 < known_by table.new thread thread) }
    ensures full { IsErrOf result (NoTick.Beyond Limit.Count) → known_to table.old thread thread ≡ 2 ^ 32 - 1 }
    ensures others { (limit : Limits) → IsErrOf result (NoTick.Beyond limit) → limit ≡ Limit.Count }
{
    let count = table.get(thread.number()).count(thread);
    if count > 0 {
        return Ok(());
    }
    next.clear();
    next.tick(thread, room)?;
    table.join(thread.number(), next, false, room)?;
    Ok(())
}
