//! A thread, and what changes what it holds.
ghost use Rattle.std.specs.Prelude.{◌≡◌, ◌≤◌, ℕ, true, length, take, drop, IsTrue, IsOk, IsOkUnless, OnOk, OnErr, None, Some};
ghost use Rattle.er_model.specs.Following.{locks_for};
ghost use Rattle.er_model.specs.Holdings.{refused_by};
ghost use Rattle.er_seat.specs.Seats.{done, holdings_of, with_call};
ghost use Rattle.eraser_c.specs.Answers.{IsChanged, IsFollowed, IsHeld, IsListed, changes_thread, gives_back};
ghost use Rattle.eraser_c.specs.Statuses.{number_of};

use crate::handle::Handle;
use crate::kept::Kept;
use crate::status::Status;
use er_event::{Event, Kind, LockId, Lockset, Refusal, ThreadId};
use er_held::Held;
use er_seat::Seat;
use std::alloc::Global;
use std::mem::replace;

/// A thread: its number and what it holds.
#[derive(Drop)]
pub struct Thread {
    pub number: ThreadId,
    pub held: Held,
}

impl Thread {
    /// The locks that cover an access of this kind.
    pub(crate) fn locks(&self, kind: Kind) -> &Lockset
        ensures { result.now ≡ locks_for self.now.held kind }
    {
        match kind {
            Kind::Read => self.held.held(),
            Kind::Write => self.held.write_held(),
        }
    }

    // Makes the change of one event.
    fn follow(&mut self, event: Event) -> Status
        ensures { IsFollowed self.old self.new event (number_of result) }
    {
        match self.held.change(event) {
            Ok(()) => Status::Quiet,
            Err(why) => Status::Refused(why),
        }
    }
}

/// Makes the change of one event, which is of its thread alone, to the thread or the seat that a handle leads to.
pub(crate) fn change(alloc: Global, thread: &mut Handle, event: Event) -> Status
    requires { IsTrue (changes_thread event) }
    ensures { IsChanged thread.old.kept_box.kept thread.new.kept_box.kept event (number_of result) }
{
    let Some(mut kept) = replace(thread, Handle::empty(alloc)).into_box() else {
        return Status::EmptyHandle;
    };
    let status = match &mut *kept {
        Kept::Thread(thread) => thread.follow(event),
        Kept::Seat(seat) => follow_seat(seat, event),
        Kept::Shard(_) | Kept::Journal(_) => Status::WrongHandle,
    };
    *thread = Handle::of(kept);
    status
}

// Lists the change of one event.
fn follow_seat(seat: &mut Seat, event: Event) -> Status
    requires { IsTrue (changes_thread event) }
    ensures { IsListed seat.old seat.new event (number_of result) }
{
    match list(seat, event) {
        Ok(()) => Status::Quiet,
        Err(why) => Status::Refused(why),
    }
}

// Split for the prover.
fn list(seat: &mut Seat, event: Event) -> Result<(), Refusal>
    requires { IsTrue (changes_thread event) }
    ensures refused { (why : Refusal) → refused_by (holdings_of seat.old) event ≡ Some why → result ≡ Err why }
    ensures accepted { OnOk result (refused_by (holdings_of seat.old) event ≡ None) }
    ensures ok { OnOk result (seat.new ≡ with_call seat.old (done event)) }
    ensures err { OnErr result (seat.new ≡ seat.old) }
    ensures memory { refused_by (holdings_of seat.old) event ≡ None → IsOkUnless result Refusal.OutOfMemory }
    ensures free { refused_by (holdings_of seat.old) event ≡ None → gives_back event ≡ true → IsOk result }
{
    match event {
        Event::Acquire(lock, mode) => seat.acquire(lock, mode),
        Event::Release(lock, mode) => seat.release(lock, mode),
        Event::IgnoreOn => seat.ignore_on(),
        Event::IgnoreOff => seat.ignore_off(),
        Event::Level(level) => seat.set_level(level),
        Event::Access(..) | Event::Reuse(_) | Event::Show(_) | Event::Sync(_) => Ok(()),
    }
}

/// Copies the numbers of the locks that the thread holds in any mode, rising, as far as there is room. `count` becomes how many it holds.
pub(crate) fn held(
    alloc: Global,
    thread: &mut Handle,
    locks: &mut [u32],
    count: &mut usize,
) -> Status
    ensures held { IsHeld thread.old.kept_box.kept locks.old locks.new count.old count.new (number_of result) }
    ensures thread { thread.new.kept_box.kept ≡ thread.old.kept_box.kept }
{
    let Some(kept) = replace(thread, Handle::empty(alloc)).into_box() else {
        return Status::EmptyHandle;
    };
    let status = match &*kept {
        Kept::Thread(thread) => copy_held(thread.held.held(), locks, count),
        Kept::Seat(seat) => copy_held(seat.held(), locks, count),
        Kept::Shard(_) | Kept::Journal(_) => Status::WrongHandle,
    };
    *thread = Handle::of(kept);
    status
}

fn copy_held(held: &Lockset, locks: &mut [u32], count: &mut usize) -> Status
    ensures count { count.new ≡ length held.now }
    ensures first { (n : ℕ) → n ≤ length held.now → n ≤ length locks.new → take n locks.new ≡ take n held.now }
    ensures rest { (n : ℕ) → length held.now ≤ n → drop n locks.new ≡ drop n locks.old }
    ensures size { length locks.new ≡ length locks.old }
    ensures quiet { result ≡ Status.Quiet }
{
    let held = held.as_slice();
    copy_locks(held, locks);
    *count = held.len();
    Status::Quiet
}

fn copy_locks(held: &[LockId], locks: &mut [u32])
    ensures first { (n : ℕ) → n ≤ length held.now → n ≤ length locks.new → take n locks.new ≡ take n held.now }
    ensures rest { (n : ℕ) → length held.now ≤ n → drop n locks.new ≡ drop n locks.old }
    ensures size { length locks.new ≡ length locks.old }
{
    for i in 0..held.len().min(locks.len()) {
        locks[i] = held[i].number();
    }
}
