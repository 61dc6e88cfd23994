//! A shard: its words, and the journal of which they are the replay.
ghost use Rattle.std.specs.Prelude.{ℕ, ◌≡◌, ◌≤◌, ◌<◌, ◌⊎◌, ◌+◌, [], Bool, length, IsTrue, IfOk, IsErrOf, OnOk, OnErr, vec_capacity};
ghost use Rattle.er_event.specs.declared.steps.WordState.TheVariants.{Virgin};
ghost use Rattle.er_journal.specs.Entries.{Access, Reset};
ghost use Rattle.er_journal.specs.Journals.{IsLegalJournal, journal_state, notes_of, mark_of_what};
ghost use Rattle.er_model.specs.Parts.{FitsEnd};
ghost use Rattle.er_shadow.specs.Shadows.{needs_set, states};
ghost use Rattle.er_shard.specs.Journaled.{entry_of};

use er_event::{Kind, NoRoom, PageRange, Reply, Word, WordState};
use er_journal::{BriefReply, Entry, HeldLocks, Stamp, Ticket};
use er_shadow::{OwnWords, ShadowMap, Words};
use er_table::{Grow, LocksetTable, Owned, Shared, Store};
use std::alloc::{AllocError, Global};
use std::marker::Model;

// How many sets of locks an owner can have.
const MOST_SETS: u32 = 1_048_576;

/// Some of memory's words, and the journal of what was done to them. Contracts see the journal, with the shard's name, number and limit: the words'
/// states are those that the journal gives.
#[derive(Drop)]
pub struct ShardIn<S: Store> {
    words: Words<S>,
    journal: Vec<Entry>,
    name: u64,
    number: u32,
    limit: u32,
}

/// A shard whose words share their sets of locks by a table, which may make it wait.
pub type Shard<'t> = ShardIn<Shared<'t>>;

/// A shard whose words have their sets of locks for themselves. It waits for nobody.
pub type OwnShard = ShardIn<Owned>;

impl<S: Store> Model for ShardIn<S> {
    ghost use Rattle.er_shard.specs.Journaled.{Journaled, IsReplayOf};

    ghost Value = { Journaled };

    ghost view = { λ s. record { name = s.name; number = s.number; limit = s.limit; journal = s.journal.items } };

    ghost invariant = { λ s. IsReplayOf s.journal.items s.limit s.words };
}

impl<'t> ShardIn<Shared<'t>> {
    /// A shard with an empty journal that takes `limit` entries. `name` is its detector's, and `number` its place there. The sets of locks that its
    /// words need go into the table. The only error is that there is no memory.
    pub fn new(
        alloc: Global,
        table: &'t LocksetTable,
        name: u64,
        number: u32,
        limit: u32,
    ) -> Result<Shard<'t>, AllocError>
        ensures { IfOk result (λ shard. shard ≡ record { name = name; number = number; limit = limit; journal = [] }) }
    {
        Ok(ShardIn::over(alloc, ShadowMap::new(alloc, table)?, name, number, limit))
    }
}

impl ShardIn<Owned> {
    /// A shard with an empty journal that takes `limit` entries. Its words take `max_sets` sets of locks, and never more than 1,048,576. The only error is
    /// that there is no memory.
    pub fn new(
        alloc: Global,
        max_sets: u32,
        name: u64,
        number: u32,
        limit: u32,
    ) -> Result<OwnShard, AllocError>
        ensures { IfOk result (λ shard. shard ≡ record { name = name; number = number; limit = limit; journal = [] }) }
    {
        let words = OwnWords::new(alloc, max_sets.min(MOST_SETS))?;
        Ok(ShardIn::over(alloc, words, name, number, limit))
    }
}

impl<S: Store> ShardIn<S> {
    ghost use Rattle.er_shard.specs.Journaled.{AreStamped, with_entry};

    // A shard of words that are all virgin.
    fn over(alloc: Global, words: Words<S>, name: u64, number: u32, limit: u32) -> ShardIn<S>
        requires virgin { (w : ℕ) → states words w ≡ Virgin }
        ensures { result ≡ record { name = name; number = number; limit = limit; journal = [] } }
    {
        ShardIn {
            words,
            journal: Vec::new(alloc),
            name,
            number,
            limit,
        }
    }

    /// The name of its detector.
    pub fn name(&self) -> u64
        ensures { result ≡ self.now.name }
    {
        self.name
    }

    /// Its number in its detector.
    pub fn number(&self) -> u32
        ensures { result ≡ self.now.number }
    {
        self.number
    }

    /// What was done to its words, oldest first.
    pub fn journal(&self) -> &[Entry]
        ensures journal { result.now ≡ self.now.journal }
        ensures legal { IsLegalJournal self.now.journal }
        ensures stamped { AreStamped self.now.journal }
        ensures within { length self.now.journal ≤ self.now.limit }
    {
        self.journal.as_slice()
    }

    /// What is known of a word. The only error is that there is no memory for its candidate set.
    pub fn state_of(&self, word: Word) -> Result<WordState, AllocError>
        ensures { IfOk result (λ state. state ≡ journal_state self.now.journal word) }
    {
        self.words.state_of(word)
    }

    /// Takes a counted access, and returns `Race` if it is reported, else `Quiet`. Refused if the journal is full (`JournalFull`), if a set of locks
    /// finds no place in the table (`TableFull`), and if there is no memory (`OutOfMemory`).
    #[inline(always)]
    pub fn apply<R>(&mut self, rt: &R, ticket: Ticket, stamp: Stamp) -> Result<BriefReply, NoRoom>
    where
        S: Grow<R>,
        ensures entry { IfOk result (λ reply. self.new ≡ with_entry self.old (entry_of ticket stamp.thread (Access stamp) reply)) }
        ensures reply { IfOk result (λ reply. FitsEnd (notes_of self.old.journal) (mark_of_what (Access stamp)) reply) }
        ensures race_or_quiet { IfOk result (λ reply. (reply ≡ Reply.Race) ⊎ (reply ≡ Reply.Quiet)) }
        ensures err { OnErr result (self.new ≡ self.old) }
        ensures full { self.old.limit ≤ length self.old.journal → IsErrOf result NoRoom.JournalFull }
        ensures full_only { IsErrOf result NoRoom.JournalFull → self.old.limit ≤ length self.old.journal }

        // The table isn't asked for a set while one thread alone has accessed the word.
        ensures table_full { IsErrOf result NoRoom.TableFull → IsTrue (needs_set (journal_state self.old.journal stamp.word) stamp.thread) }
    {
        reserve_entry(&mut self.journal, self.limit)?;
        let locks = match stamp.kind {
            Kind::Read => stamp.locks.held(),
            Kind::Write => stamp.locks.write_held(),
        };
        // Most accesses leave their word as it is, and these are found first.
        let (thread, word, kind) = (stamp.locks.thread(), stamp.word, stamp.kind);
        let quick = self.words.access_quickly(thread, word, kind, locks);
        let is_race = match quick {
            Some(_) => false,
            None => self
                .words
                .access_noting(rt, thread, word, kind, locks)?
                .is_race,
        };
        let reply = BriefReply::of_access(is_race);
        self.journal
            .push_reserved(Entry::access(ticket, stamp, reply));
        Ok(reply)
    }

    /// Makes the words of a range virgin, for the thread of these locks. Refused if the journal is full (`JournalFull`), and if there is no memory
    /// (`OutOfMemory`).
    pub fn reset(&mut self, ticket: u64, locks: HeldLocks, range: PageRange) -> Result<(), NoRoom>
        ensures entry { OnOk result (self.new ≡ with_entry self.old (entry_of ticket locks.thread (Reset range) Reply.Done)) }
        ensures err { OnErr result (self.new ≡ self.old) }
        ensures full { self.old.limit ≤ length self.old.journal → IsErrOf result NoRoom.JournalFull }
        ensures full_only { IsErrOf result NoRoom.JournalFull → self.old.limit ≤ length self.old.journal }
        ensures refusals { ¬ IsErrOf result NoRoom.TableFull }
    {
        reserve_entry(&mut self.journal, self.limit)?;
        let range = &range;
        self.words.reset(*range);
        self.journal
            .push_reserved(Entry::reset(ticket, locks, *range));
        Ok(())
    }
}

// Room for one more entry, in a journal that takes `limit` of them.
#[inline(always)]
fn reserve_entry(journal: &mut Vec<Entry>, limit: u32) -> Result<(), NoRoom>
    ensures room { OnOk result (length journal.new.items + 1 ≤ vec_capacity journal.new) }
    ensures below { OnOk result (length journal.old.items < limit) }
    ensures same { journal.new.items ≡ journal.old.items }
    ensures full { limit ≤ length journal.old.items → IsErrOf result NoRoom.JournalFull }
    ensures full_only { IsErrOf result NoRoom.JournalFull → limit ≤ length journal.old.items }
    ensures refusals { ¬ IsErrOf result NoRoom.TableFull }
{
    if journal.len() >= limit as usize {
        return Err(NoRoom::JournalFull);
    }
    journal.reserve(1)?;
    Ok(())
}
