//! A detector: shards under locks of their own, and the two counters.
ghost use Rattle.std.specs.Prelude.{◌≡◌, ◌<◌, ◌≤◌, ◌⊎◌, ◌&&◌, ℕ, [], IsTrue, IsFalse, IfOk, IfErr, IfSome, IsErrOf, IsErrAnd, OnOk, OnErr, Err, Some, None, length, vec_len, ◌++◌, filter};
ghost use Rattle.std.specs.List.{All};
ghost use Rattle.er_event.specs.Span.{page_count, part_lo, parts_below, parts_of};
ghost use Rattle.er_held.specs.Held.{nothing_held};
ghost use Rattle.er_journal.specs.Journals.{journal_state};
ghost use Rattle.er_journal.specs.Merges.{shard_of};
ghost use Rattle.er_shadow.specs.Shadows.{needs_set};
ghost use Rattle.er_seat.specs.Seats.{holdings_of};
ghost use Rattle.er_detector.specs.Calls.{is_seat_of, is_shard_of, IsListed, IsEntered, IsIgnored, IsReused, HasReused, may_refuse, may_refuse_reuse};
ghost use Rattle.er_detector.specs.Limits.{IsShardCount};
ghost use Rattle.er_detector.specs.Races.{IsRace, is_race};

use crate::Config;
use crossbeam_utils::CachePadded;
use er_event::{Kind, PageRange, Refusal, Reply, Site, ThreadId, Word, WordRange};
use er_journal::Entry;
use er_seat::{Seat, VacantSeat};
use er_shard::Shard;
use er_table::LocksetTable;
use std::alloc::{AllocError, Global};
use std::marker::Model;
use std::sync::atomic::{AtomicU64, Ordering};
use std::sync::{Mutex, MutexGuard, Wait};

/// Shards under locks of their own, with the counters of tickets and of seats. Contracts see how it was made.
#[derive(Drop)]
pub struct Detector<'t> {
    config: Config,
    // What one thread writes must not share a cache line with what another reads.
    shards: Vec<CachePadded<Mutex<Shard<'t>>>>,
    tickets: CachePadded<AtomicU64>,
    opened: AtomicU64,
    alloc: Global,
}

impl<'t> Model for Detector<'t> {
    ghost use Rattle.std.specs.Prelude.{◌≡◌, vec_len};
    ghost use Rattle.er_detector.specs.declared.config.Config.{Config};

    ghost Value = { Config };

    ghost view = { λ d. d.config };

    ghost invariant = { λ d. vec_len d.shards ≡ d.config.shards };
}

/// A detector's shards, out of their locks.
#[derive(Drop)]
pub struct Parts<'t> {
    /// The detector's name.
    pub name: u64,
    /// How many seats were opened.
    pub opened: u64,
    /// The shards, by place: 1 to 64.
    pub shards: Vec<Shard<'t>>,
    pub ghost shard_count: { IsShardCount (vec_len shards) },
}

/// Where a reuse stopped, and why. All words of its range before that one were reset.
#[derive(Clone, Copy, Debug, PartialEq, Eq)]
pub struct ReuseStopped {
    /// The first word of the first page that was refused.
    pub first_word_not_done: Word,
    /// Why that page was refused.
    pub cause: Refusal,
}

impl<'t> Detector<'t> {
    /// A detector to which nothing was done. The sets of locks that its shards need go into the table. The only error is that there is no memory.
    pub fn new(
        alloc: Global,
        table: &'t LocksetTable,
        config: Config,
    ) -> Result<Detector<'t>, AllocError>
        ensures { IfOk result (λ detector. detector ≡ config) }
    {
        let mut shards = Vec::with_capacity(alloc, config.shards as usize)?;
        for number in 0..config.shards {
            let shard = empty_shard(alloc, table, config, number)?;
            shards.push_reserved(CachePadded::new(Mutex::new(shard)));
        }
        Ok(Detector {
            config,
            shards,
            tickets: CachePadded::new(AtomicU64::new(0)),
            opened: AtomicU64::new(0),
            alloc,
        })
    }

    /// A seat that made no call and whose thread holds nothing. Threads are numbered by their seats, from 0. Refused if there is no memory for the
    /// first call (`OutOfMemory`), and if all seats are taken (`TooManyThreads`).
    pub fn open_seat(&self) -> Result<Seat, Refusal>
        ensures name { IfOk result (λ seat. seat.name ≡ self.now.name) }
        ensures thread { IfOk result (λ seat. seat.thread < self.now.max_threads) }
        ensures calls { IfOk result (λ seat. seat.calls ≡ []) }
        ensures nothing { IfOk result (λ seat. holdings_of seat ≡ nothing_held) }
        ensures refusals { IfErr result (λ why. (why ≡ Refusal.OutOfMemory) ⊎ (why ≡ Refusal.TooManyThreads)) }
    {
        let vacant = VacantSeat::new(self.alloc, self.config.name)?;
        let number = self.opened.fetch_add(1, Ordering::SeqCst);
        match thread_of(self.config, number) {
            Some(thread) => Ok(vacant.into_seat(thread)),
            None => Err(Refusal::TooManyThreads),
        }
    }

    /// How it was made.
    pub fn config(&self) -> Config
        ensures { result ≡ self.now }
    {
        self.config
    }

    /// The shard of a word: its page's number modulo the number of shards.
    pub fn shard_of(&self, word: Word) -> u32
        ensures place { result ≡ shard_of self.now.shards word }
        ensures within { result < self.now.shards }
    {
        // By the numbers that stand here the compiler divides without a division.
        let page = word.page();
        match self.config.shards {
            64 => (page % 64) as u32,
            16 => (page % 16) as u32,
            4 => (page % 4) as u32,
            shards => (page % u64::from(shards)) as u32,
        }
    }

    /// A shard, under its lock. It waits until no other caller holds the lock.
    #[inline]
    pub fn shard<R: Wait>(&self, rt: &R, number: u32) -> MutexGuard<'_, Shard<'t>>
        requires { number < self.now.shards }
    {
        self.shards[number as usize].lock(rt)
    }

    /// Makes an access in a shard whose lock the caller holds. If the seat ignores, the access is listed and changes no shard. Refused if the seat or
    /// the shard isn't the detector's, or the word isn't the shard's (`ForeignSeat`), if the shard's journal is full (`JournalFull`), if a set of
    /// locks finds no place in the table (`TableFull`), and if there is no memory (`OutOfMemory`).
    pub fn access_in<R: Wait>(
        &self,
        rt: &R,
        shard: &mut Shard<'t>,
        seat: &mut Seat,
        word: Word,
        kind: Kind,
        site: Site,
    ) -> Result<Reply, Refusal>
        ensures counted { (holdings_of seat.old).depth ≡ 0 → IfOk result (λ reply. (ticket : ℕ) × (IsListed seat.old seat.new word kind site ticket reply × IsEntered seat.old shard.old shard.new word kind site ticket reply)) }
        ensures race_or_quiet { (holdings_of seat.old).depth ≡ 0 → IfOk result (λ reply. (reply ≡ Reply.Race) ⊎ (reply ≡ Reply.Quiet)) }
        ensures ignored { 0 < (holdings_of seat.old).depth → IfOk result (λ reply. reply ≡ Reply.Ignored) }
        ensures listed { 0 < (holdings_of seat.old).depth → OnOk result (IsIgnored seat.old seat.new word kind site) }
        ensures unchanged { 0 < (holdings_of seat.old).depth → shard.new ≡ shard.old }
        ensures err { OnErr result (seat.new ≡ seat.old) }
        ensures err_shard { OnErr result (shard.new ≡ shard.old) }
        ensures foreign { IsFalse (is_seat_of self.now seat.old && is_shard_of self.now shard.old word) → result ≡ Err Refusal.ForeignSeat }
        ensures foreign_only { IsErrOf result Refusal.ForeignSeat → IsFalse (is_seat_of self.now seat.old && is_shard_of self.now shard.old word) }
        ensures full { (holdings_of seat.old).depth ≡ 0 → shard.old.limit ≤ length shard.old.journal → IsTrue (is_seat_of self.now seat.old && is_shard_of self.now shard.old word) → IsErrAnd result (λ why. (why ≡ Refusal.JournalFull) ⊎ (why ≡ Refusal.OutOfMemory)) }
        ensures full_only { IsErrOf result Refusal.JournalFull → shard.old.limit ≤ length shard.old.journal }
        ensures table_full { IsErrOf result Refusal.TableFull → IsTrue (needs_set (journal_state shard.old.journal word) seat.old.thread) }
        ensures refusals { IfErr result (λ why. IsTrue (may_refuse (holdings_of seat.old).depth why)) }
    {
        if seat.name() != self.config.name || !self.has(shard, word) {
            return Err(Refusal::ForeignSeat);
        }
        if seat.ignoring() {
            return ignored(seat, word, kind, site);
        }
        let ticket = self.next_ticket(seat, shard);
        Ok(seat.record_access(rt, shard, ticket, word, kind, site)?)
    }

    /// The same under the lock of the word's shard, which isn't taken if the seat ignores. `ForeignSeat` also means that a caller of `shard` put
    /// another shard behind the lock.
    pub fn access<R: Wait>(
        &self,
        rt: &R,
        seat: &mut Seat,
        word: Word,
        kind: Kind,
        site: Site,
    ) -> Result<Reply, Refusal>
        ensures counted { (holdings_of seat.old).depth ≡ 0 → IfOk result (λ reply. (ticket : ℕ) × IsListed seat.old seat.new word kind site ticket reply) }
        ensures race_or_quiet { (holdings_of seat.old).depth ≡ 0 → IfOk result (λ reply. (reply ≡ Reply.Race) ⊎ (reply ≡ Reply.Quiet)) }
        ensures ignored { 0 < (holdings_of seat.old).depth → IfOk result (λ reply. reply ≡ Reply.Ignored) }
        ensures listed { 0 < (holdings_of seat.old).depth → OnOk result (IsIgnored seat.old seat.new word kind site) }
        ensures err { OnErr result (seat.new ≡ seat.old) }
        ensures foreign { IsFalse (is_seat_of self.now seat.old) → result ≡ Err Refusal.ForeignSeat }

        // Inside a bracket no shard is asked, so nothing else can be foreign.
        ensures foreign_only { 0 < (holdings_of seat.old).depth → IsErrOf result Refusal.ForeignSeat → IsFalse (is_seat_of self.now seat.old) }
        ensures refusals { IfErr result (λ why. IsTrue (may_refuse (holdings_of seat.old).depth why)) }
    {
        if seat.name() != self.config.name {
            return Err(Refusal::ForeignSeat);
        }
        if seat.ignoring() {
            return ignored(seat, word, kind, site);
        }
        // A caller of `shard` may have put another shard behind the lock. `access_in` would look at names and brackets again.
        let number = self.shard_of(word);
        let mut shard = self.shard(rt, number);
        if shard.name() != self.config.name || shard.number() != number {
            return Err(Refusal::ForeignSeat);
        }
        let ticket = self.next_ticket(seat, &shard);
        Ok(seat.record_access(rt, &mut shard, ticket, word, kind, site)?)
    }

    /// Puts a range of words to a new use, page by page and each page under its shard's lock. If a page is refused, those before it stay done.
    /// Refused as `access`, but never for a full table.
    pub fn reuse<R: Wait>(
        &self,
        rt: &R,
        seat: &mut Seat,
        range: &WordRange,
    ) -> Result<(), ReuseStopped>
        ensures done { OnOk result (HasReused seat.old seat.new (parts_of range.now)) }
        ensures stopped { IfErr result (λ stopped. (pages : ℕ) × ((pages < page_count range.now) × ((stopped.first_word_not_done ≡ part_lo range.now pages) × HasReused seat.old seat.new (parts_below range.now pages)))) }
        ensures foreign { IsFalse (is_seat_of self.now seat.old) → result ≡ Err (record { first_word_not_done = range.now.first; cause = Refusal.ForeignSeat }) }
        ensures refusals { IfErr result (λ stopped. IsTrue (may_refuse_reuse stopped.cause)) }
    {
        for page in 0..range.parts() {
            let part = range.part(page);
            let first_word_not_done = part.lo;
            if let Err(cause) = self.reuse_part(rt, seat, part) {
                return Err(ReuseStopped {
                    first_word_not_done,
                    cause,
                });
            }
        }
        Ok(())
    }

    /// The entries of races, shard by shard and each shard under its lock. Other threads may go on meanwhile, so it shows no one moment of all
    /// shards. The only error is that there is no memory.
    pub fn races<R: Wait>(&self, rt: &R) -> Result<Vec<Entry>, AllocError>
        ensures { IfOk result (λ races. All IsRace races.items) }
    {
        let mut races = Vec::new(self.alloc);
        for number in 0..self.config.shards {
            let shard = self.shard(rt, number);
            add_races(&mut races, shard.journal())?;
        }
        Ok(races)
    }

    /// Takes the shards out of their locks. The only error is that there is no memory; the shards are then dropped.
    pub fn into_parts(self) -> Result<Parts<'t>, AllocError>
        ensures name { IfOk result (λ parts. parts.name ≡ self.entry.name) }
        ensures opened { IfOk result (λ parts. parts.opened ≤ self.entry.max_threads) }
        ensures shards { IfOk result (λ parts. vec_len parts.shards ≡ self.entry.shards) }
    {
        let Detector {
            config,
            shards: locks,
            tickets: _,
            opened,
            alloc,
        } = self;
        let mut shards = Vec::with_capacity(alloc, locks.len())?;
        for lock in locks {
            shards.push_reserved(lock.into_inner().into_inner());
        }
        Ok(Parts {
            name: config.name,
            opened: opened.into_inner().min(u64::from(config.max_threads)),
            shards,
        })
    }

    // One page of a reuse, under its shard's lock.
    fn reuse_part<R: Wait>(&self, rt: &R, seat: &mut Seat, part: PageRange) -> Result<(), Refusal>
        ensures done { OnOk result ((ticket : ℕ) × IsReused seat.old seat.new part ticket) }
        ensures err { OnErr result (seat.new ≡ seat.old) }
        ensures foreign { IsFalse (is_seat_of self.now seat.old) → result ≡ Err Refusal.ForeignSeat }
        ensures refusals { IfErr result (λ why. IsTrue (may_refuse_reuse why)) }
    {
        if seat.name() != self.config.name {
            return Err(Refusal::ForeignSeat);
        }
        let part = &part;
        let mut shard = self.shard(rt, self.shard_of(part.lo));
        if !self.has(&shard, part.lo) {
            return Err(Refusal::ForeignSeat);
        }
        let ticket = self.next_ticket(seat, &shard);
        Ok(seat.reuse(&mut shard, ticket, *part)?)
    }

    // No clause rests on the number: settling compares tickets.
    #[inline(always)]
    fn next_ticket(&self, seat: &mut Seat, shard: &Shard<'t>) -> u64
        ensures { seat.new ≡ seat.old }
    {
        let draw = |count| { self.tickets.fetch_add(count, Ordering::SeqCst) };
        match self.config.most_drawn {
            1 => draw(1),
            most => seat.next_ticket(shard.journal(), u64::from(most), draw),
        }
    }

    fn has(&self, shard: &Shard<'t>, word: Word) -> bool
        ensures { result ≡ is_shard_of self.now shard.now word }
    {
        shard.name() == self.config.name && shard.number() == self.shard_of(word)
    }
}

fn empty_shard<'t>(
    alloc: Global,
    table: &'t LocksetTable,
    config: Config,
    number: u32,
) -> Result<Shard<'t>, AllocError>
    ensures { IfOk result (λ shard. shard ≡ record { name = config.name; number = number; limit = config.journal_limit; journal = [] }) }
{
    Shard::new(alloc, table, config.name, number, config.journal_limit)
}

// The thread of the seat that is the next after so many, or none if all seats are taken.
fn thread_of(config: Config, opened: u64) -> Option<ThreadId>
    ensures next { opened < config.max_threads → result ≡ Some opened }
    ensures none { config.max_threads ≤ opened → result ≡ None }
    ensures within { IfSome result (λ thread. thread < config.max_threads) }
{
    if opened < u64::from(config.max_threads) {
        Some(ThreadId::new(opened as u32))
    } else {
        None
    }
}

// An access by a seat that ignores, which is listed alone.
fn ignored(seat: &mut Seat, word: Word, kind: Kind, site: Site) -> Result<Reply, Refusal>
    requires { 0 < (holdings_of seat.old).depth }
    ensures reply { IfOk result (λ reply. reply ≡ Reply.Ignored) }
    ensures listed { OnOk result (IsIgnored seat.old seat.new word kind site) }
    ensures err { OnErr result (seat.new ≡ seat.old) }
    ensures memory { IfErr result (λ why. why ≡ Refusal.OutOfMemory) }
{
    seat.record_ignored(word, kind, site)?;
    Ok(Reply::Ignored)
}

/// Adds copies of the journal's entries of races, in order.
pub(crate) fn add_races(races: &mut Vec<Entry>, journal: &[Entry]) -> Result<(), AllocError>
    ensures { OnOk result (races.new.items ≡ races.old.items ++ filter is_race journal.now) }
{
    for entry in journal {
        if let Reply::Race = entry.reply().reply() {
            races.push(entry.copy()?)?;
        }
    }
    Ok(())
}
