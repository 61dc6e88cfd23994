//! `Seat`, one thread's handle.
#![tactic(auto, unfolding(crate::specs::Seats::with_call))]

ghost use Rattle.std.specs.Prelude.{◌≡◌, ◌≤◌, ◌<◌, ◌+◌, ◌↔◌, ◌⊎◌, [], ℕ, length, IsTrue, IsFalse, IsOk, IfOk, IsOkUnless, IsErrAnd, IsErrOf, OnOk, OnErr, None, Some, slice_get};
ghost use Rattle.er_held.specs.Held.{nothing_held};
ghost use Rattle.er_journal.specs.Entries.{Access, Call as Calls, Reset};
ghost use Rattle.er_model.specs.Events.{is_show};
ghost use Rattle.er_model.specs.Holdings.{refused_by};
ghost use Rattle.er_model.specs.Parts.{FitsEnd};
ghost use Rattle.er_journal.specs.Journals.{journal_state, mark_of_what, notes_of};
ghost use Rattle.er_journal.specs.Merges.{IsLegalSeat};
ghost use Rattle.er_shadow.specs.Shadows.{needs_set};
ghost use Rattle.er_shard.specs.Journaled.{entry_of, with_entry};
ghost use Rattle.er_settle.specs.Seats.{AreTicketed};
ghost use Rattle.er_seat.specs.Drawn.{EachDraw};
ghost use Rattle.er_seat.specs.Seats.{holdings_of, access_stamp, with_call, done, ignored, ticketed, calls_to_unwind, IsAfter};

use crate::drawn::DrawnTickets;
use er_event::{
    Event, Kind, Level, LockId, Lockset, Mode, NoRoom, PageRange, Refusal, Reply, Site, ThreadId,
    Word,
};
use er_held::Held;
use er_journal::{BriefReply, Call, Entry, HeldLocks, Stamp, Ticket};
use er_shard::ShardIn;
use er_table::{Grow, Store};
use std::alloc::{AllocError, Global};
use std::marker::Model;

/// A seat that no thread has taken: a detector's name, with room for the first call. Contracts see the name.
#[derive(Drop)]
pub struct VacantSeat {
    name: u64,
    calls: Vec<Call>,
    alloc: Global,
}

impl Model for VacantSeat {
    ghost use Rattle.std.specs.Prelude.{◌≡◌, ◌≤◌, [], ℕ, vec_capacity};

    ghost Value = { ℕ };

    ghost view = { λ s. s.name };

    ghost invariant = { λ s. (s.calls.items ≡ []) × (1 ≤ vec_capacity s.calls) };
}

impl VacantSeat {
    /// A vacant seat at the detector of this name. The only error is that there is no memory for the first call.
    pub fn new(alloc: Global, name: u64) -> Result<VacantSeat, AllocError>
        ensures { IfOk result (λ seat. seat ≡ name) }
    {
        let mut calls = Vec::new(alloc);
        calls.reserve(1)?;
        Ok(VacantSeat { name, calls, alloc })
    }

    /// The seat of a thread, which has made no call and holds nothing. It takes no memory.
    pub fn into_seat(self, thread: ThreadId) -> Seat
        ensures seat { result ≡ record { name = self; thread = thread; calls = [] } }
        ensures nothing { holdings_of result ≡ nothing_held }
    {
        let VacantSeat { name, calls, alloc } = self;
        Seat {
            name,
            thread,
            held: Held::new(alloc),
            recent: None,
            stamped: 0,
            tickets: DrawnTickets {
                left: 0..0,
                ahead: 1,
            },
            calls,
            alloc,
        }
    }
}

/// What one thread holds, and the calls that it made. Contracts see its detector's name, its thread and the calls. The list always has room for the
/// calls that give back what is held: a thread can let go of its locks and close its brackets if no memory is left.
#[derive(Drop)]
pub struct Seat {
    name: u64,
    thread: ThreadId,
    held: Held,
    // The locks that the last stamp had, and how many calls there were then. If no call came since, the thread holds just these.
    recent: Option<HeldLocks>,
    stamped: usize,
    tickets: DrawnTickets,
    calls: Vec<Call>,
    alloc: Global,
}

impl Model for Seat {
    ghost use Rattle.std.specs.Prelude.{vec_capacity};
    ghost use Rattle.er_settle.specs.Seats.{SeatList};
    ghost use Rattle.er_seat.specs.Inner.Stamped.{IsStamped};
    ghost use Rattle.er_seat.specs.Seats.{IsSeat};

    ghost Value = { SeatList };

    ghost view = { λ s. record { name = s.name; thread = s.thread; calls = s.calls.items } };

    ghost invariant = { λ s. IsSeat s.thread s.calls.items s.held (vec_capacity s.calls) × IsStamped s.thread s.stamped s.recent s.calls.items s.held };
}

impl Seat {
    /// The name of its detector.
    pub fn name(&self) -> u64
        ensures { result ≡ self.now.name }
    {
        self.name
    }

    /// Its thread.
    pub fn thread(&self) -> ThreadId
        ensures { result ≡ self.now.thread }
    {
        self.thread
    }

    /// The locks that the thread holds in any mode, which protect a read.
    pub fn held(&self) -> &Lockset
        ensures { result.now ≡ (holdings_of self.now).held }
    {
        self.held.held()
    }

    /// The locks that it holds in write mode, which protect a write.
    pub fn write_held(&self) -> &Lockset
        ensures { result.now ≡ (holdings_of self.now).write_held }
    {
        self.held.write_held()
    }

    /// Its interrupt level.
    pub fn level(&self) -> Level
        ensures { result ≡ (holdings_of self.now).level }
    {
        self.held.level()
    }

    /// Whether it is inside an ignore bracket.
    pub fn ignoring(&self) -> bool
        ensures { IsTrue result ↔ (0 < (holdings_of self.now).depth) }
    {
        self.held.ignoring()
    }

    /// The calls that were accepted, in order.
    pub fn calls(&self) -> &[Call]
        ensures calls { result.now ≡ self.now.calls }

        // The locks, the brackets and the levels, and the accesses in brackets, are answered as the list says.
        ensures legal { IsLegalSeat self.now.thread self.now.calls }

        // The others, which are counted accesses and reuses, drew tickets.
        ensures tickets { AreTicketed self.now.thread self.now.calls }
        ensures no_show { (j : ℕ) (call : Calls) → slice_get self.now.calls j ≡ Some call → IsFalse (is_show call.event) }
    {
        self.calls.as_slice()
    }

    /// A ticket for the shard with this journal: the next of those that the seat drew, if one is left and it is greater than the journal's last. If not, the
    /// first of those that `draw` draws now, at most `most`: one at first, twice as many as the last time if these are used up, and one if some are left,
    /// which are thrown away. The clauses of `DrawnTickets::next` say this. Contracts of a seat don't show what it has left: a refused call uses up a
    /// ticket, and still leaves the seat as it was.
    pub fn next_ticket<F: FnOnce(u64) -> u64>(
        &mut self,
        journal: &[Entry],
        most: u64,
        draw: F,
    ) -> u64
        requires some { 1 ≤ most }
        requires callable { F.IsAlwaysCallable draw }
        ensures same { self.new ≡ self.old }
        ensures ticket { ((count : ℕ) × ((1 ≤ count) × ((count ≤ most) × F.post draw count result))) ⊎ IsAfter journal.now result }
        ensures after { EachDraw (F.post draw) most (IsAfter journal.now) → IsAfter journal.now result }
    {
        self.tickets.next(journal, most, draw)
    }

    /// Takes a lock that is held in neither mode. Refused if it is a level's lock (`LevelLock`), if it is held (`AlreadyHeld`), if 64 locks were
    /// acquired (`HeldFull`), and if there is no memory (`OutOfMemory`).
    pub fn acquire(&mut self, lock: LockId, mode: Mode) -> Result<(), Refusal>
        ensures refused { (why : Refusal) → refused_by (holdings_of self.old) (Event.Acquire lock mode) ≡ Some why → result ≡ Err why }
        ensures accepted { OnOk result (refused_by (holdings_of self.old) (Event.Acquire lock mode) ≡ None) }
        ensures ok { OnOk result (self.new ≡ with_call self.old (done (Event.Acquire lock mode))) }
        ensures err { OnErr result (self.new ≡ self.old) }
        ensures memory { refused_by (holdings_of self.old) (Event.Acquire lock mode) ≡ None → IsOkUnless result Refusal.OutOfMemory }
    {
        self.held.acquire(lock, mode)?;
        if let Err(refused) = self.calls.reserve(1 + calls_to_unwind(&self.held)) {
            let released: Result<(), Refusal> = self.held.release(lock, mode);
            released.unwrap();
            return Err(refused.into());
        }
        self.calls.push_reserved(done(Event::Acquire(lock, mode)));
        Ok(())
    }

    /// Gives up a lock that is held in this mode. It takes no memory. Refused if it is a level's lock (`LevelLock`), if it isn't held (`NotHeld`),
    /// and if it is held in the other mode (`WrongMode`).
    pub fn release(&mut self, lock: LockId, mode: Mode) -> Result<(), Refusal>
        ensures refused { (why : Refusal) → refused_by (holdings_of self.old) (Event.Release lock mode) ≡ Some why → result ≡ Err why }
        ensures accepted { OnOk result (refused_by (holdings_of self.old) (Event.Release lock mode) ≡ None) }
        ensures free { refused_by (holdings_of self.old) (Event.Release lock mode) ≡ None → IsOk result }
        ensures ok { OnOk result (self.new ≡ with_call self.old (done (Event.Release lock mode))) }
        ensures err { OnErr result (self.new ≡ self.old) }
    {
        self.held.release(lock, mode)?;
        self.calls.push_reserved(done(Event::Release(lock, mode)));
        Ok(())
    }

    /// Opens an ignore bracket. Refused if 255 are open (`IgnoreTooDeep`), and if there is no memory (`OutOfMemory`).
    pub fn ignore_on(&mut self) -> Result<(), Refusal>
        ensures refused { (why : Refusal) → refused_by (holdings_of self.old) Event.IgnoreOn ≡ Some why → result ≡ Err why }
        ensures accepted { OnOk result (refused_by (holdings_of self.old) Event.IgnoreOn ≡ None) }
        ensures ok { OnOk result (self.new ≡ with_call self.old (done Event.IgnoreOn)) }
        ensures err { OnErr result (self.new ≡ self.old) }
        ensures memory { refused_by (holdings_of self.old) Event.IgnoreOn ≡ None → IsOkUnless result Refusal.OutOfMemory }
    {
        self.held.ignore_on()?;
        if let Err(refused) = self.calls.reserve(1 + calls_to_unwind(&self.held)) {
            let closed: Result<(), Refusal> = self.held.ignore_off();
            closed.unwrap();
            return Err(refused.into());
        }
        self.calls.push_reserved(done(Event::IgnoreOn));
        Ok(())
    }

    /// Closes the innermost ignore bracket. It takes no memory. Refused if none is open (`IgnoreNotOn`).
    pub fn ignore_off(&mut self) -> Result<(), Refusal>
        ensures refused { (why : Refusal) → refused_by (holdings_of self.old) Event.IgnoreOff ≡ Some why → result ≡ Err why }
        ensures accepted { OnOk result (refused_by (holdings_of self.old) Event.IgnoreOff ≡ None) }
        ensures free { refused_by (holdings_of self.old) Event.IgnoreOff ≡ None → IsOk result }
        ensures ok { OnOk result (self.new ≡ with_call self.old (done Event.IgnoreOff)) }
        ensures err { OnErr result (self.new ≡ self.old) }
    {
        self.held.ignore_off()?;
        self.calls.push_reserved(done(Event::IgnoreOff));
        Ok(())
    }

    /// Goes to an interrupt level, which may be the present one. Refused if there is no memory (`OutOfMemory`): the call's own entry may take some,
    /// even if the level doesn't rise.
    pub fn set_level(&mut self, level: Level) -> Result<(), Refusal>
        ensures ok { OnOk result (self.new ≡ with_call self.old (done (Event.Level level))) }
        ensures err { OnErr result (self.new ≡ self.old) }
        ensures memory { IsOkUnless result Refusal.OutOfMemory }
    {
        self.calls.reserve(1 + calls_to_unwind(&self.held))?;
        self.held.set_level(level)?;
        self.calls.push_reserved(done(Event::Level(level)));
        Ok(())
    }

    /// Lists an access inside an ignore bracket, which doesn't count: its reply is `Ignored`. The only error is that there is no memory.
    pub fn record_ignored(&mut self, word: Word, kind: Kind, site: Site) -> Result<(), AllocError>
        requires { 0 < (holdings_of self.old).depth }
        ensures ok { OnOk result (self.new ≡ with_call self.old (ignored (Event.Access kind word site))) }
        ensures err { OnErr result (self.new ≡ self.old) }
    {
        self.calls.reserve(1 + calls_to_unwind(&self.held))?;
        let call = Call::own(Event::Access(kind, word, site), BriefReply::ignored());
        self.calls.push_reserved(call);
        Ok(())
    }

    /// Makes an access outside any bracket in a shard, under a ticket, and lists it. Refused if there is no memory for the list, the stamp and a ticket
    /// of 2^32 or more (`OutOfMemory`), and then if the shard refuses it.
    #[tactic(auto, unfolding(crate::specs::Seats::with_call, crate::specs::Seats::access_stamp))]
    #[inline(always)]
    pub fn record_access<R, S: Grow<R>>(
        &mut self,
        rt: &R,
        shard: &mut ShardIn<S>,
        ticket: u64,
        word: Word,
        kind: Kind,
        site: Site,
    ) -> Result<Reply, NoRoom>
        requires { (holdings_of self.old).depth ≡ 0 }
        ensures call { IfOk result (λ reply. self.new ≡ with_call self.old (ticketed (Event.Access kind word site) ticket reply)) }
        ensures entry { IfOk result (λ reply. shard.new ≡ with_entry shard.old (entry_of ticket self.old.thread (Access (access_stamp self.old word kind site)) reply)) }
        ensures reply { IfOk result (λ reply. FitsEnd (notes_of shard.old.journal) (mark_of_what (Access (access_stamp self.old word kind site))) reply) }
        ensures race_or_quiet { IfOk result (λ reply. (reply ≡ Reply.Race) ⊎ (reply ≡ Reply.Quiet)) }
        ensures err { OnErr result (self.new ≡ self.old) }
        ensures err_shard { OnErr result (shard.new ≡ shard.old) }
        ensures full { shard.old.limit ≤ length shard.old.journal → IsErrAnd result (λ cause. (cause ≡ NoRoom.JournalFull) ⊎ (cause ≡ NoRoom.OutOfMemory)) }
        ensures full_only { IsErrOf result NoRoom.JournalFull → shard.old.limit ≤ length shard.old.journal }

        // The table isn't asked for a set while one thread alone has accessed the word.
        ensures table_full { IsErrOf result NoRoom.TableFull → IsTrue (needs_set (journal_state shard.old.journal word) self.old.thread) }
    {
        self.calls.reserve(1 + calls_to_unwind(&self.held))?;
        let listed = Ticket::new(self.alloc, ticket)?;
        let entered = Ticket::new(self.alloc, ticket)?;
        let locks = match &self.recent {
            Some(last) if self.stamped == self.calls.len() => last.share()?,
            _ => stamped_locks(self.alloc, &mut self.recent, self.thread, &self.held)?,
        };
        let stamp = Stamp {
            word,
            kind,
            site,
            locks,
        };
        let reply = shard.apply(rt, entered, stamp)?;
        let call = Call::counted(kind, word, site, reply, listed);
        self.calls.push_reserved(call);
        self.stamped = self.calls.len();
        Ok(reply.reply())
    }

    /// Makes one page part of a reuse in a shard, under a ticket, and lists it. Refused if there is no memory for the list and for the first locks that
    /// the seat shares (`OutOfMemory`), and then if the shard refuses it.
    pub fn reuse<S: Store>(
        &mut self,
        shard: &mut ShardIn<S>,
        ticket: u64,
        range: PageRange,
    ) -> Result<(), NoRoom>
        ensures call { OnOk result (self.new ≡ with_call self.old (ticketed (Event.Reuse range) ticket Reply.Done)) }
        ensures entry { OnOk result (shard.new ≡ with_entry shard.old (entry_of ticket self.old.thread (Reset range) Reply.Done)) }
        ensures err { OnErr result (self.new ≡ self.old) }
        ensures err_shard { OnErr result (shard.new ≡ shard.old) }
        ensures full { shard.old.limit ≤ length shard.old.journal → IsErrAnd result (λ cause. (cause ≡ NoRoom.JournalFull) ⊎ (cause ≡ NoRoom.OutOfMemory)) }
        ensures full_only { IsErrOf result NoRoom.JournalFull → shard.old.limit ≤ length shard.old.journal }
        ensures refusals { ¬ IsErrOf result NoRoom.TableFull }
    {
        self.calls.reserve(1 + calls_to_unwind(&self.held))?;
        // The entry has only the thread of these locks, so any that the seat has will do.
        let locks = match &self.recent {
            Some(last) => last.share()?,
            None => stamped_locks(self.alloc, &mut self.recent, self.thread, &self.held)?,
        };
        let range = &range;
        shard.reset(ticket, locks, *range)?;
        self.calls.push_reserved(Call::reuse(*range, ticket));
        Ok(())
    }
}

// A call that no shard sees, and that is done.
fn done(event: Event) -> Call
    ensures { result ≡ done event }
{
    Call::own(event, BriefReply::done())
}

// How many calls give back what is held.
fn calls_to_unwind(held: &Held) -> usize
    ensures count { result ≡ calls_to_unwind held.now }
    ensures limit { result ≤ 319 }
{
    held.acquired() + usize::from(held.depth())
}

// The locks that are held. They are copied only if the last stamp had others: most accesses are made under the same locks as the one before.
fn stamped_locks(
    alloc: Global,
    recent: &mut Option<HeldLocks>,
    thread: ThreadId,
    held: &Held,
) -> Result<HeldLocks, AllocError>
    ensures locks { IfOk result (λ locks. (locks ≡ record { thread = thread; held = held.now.held; write_held = held.now.write_held }) × (recent.new ≡ Some locks)) }
    ensures err { OnErr result (recent.new ≡ recent.old) }
{
    match recent {
        Some(last) if last.are(thread, held.held(), held.write_held()) => last.share(),
        _ => {
            let locks = HeldLocks::new(alloc, thread, held.held(), held.write_held())?;
            let shared = locks.share()?;
            *recent = Some(locks);
            Ok(shared)
        }
    }
}
