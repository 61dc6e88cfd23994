//! What is settled: seats' calls and shards' journals, borrowed.
ghost use Rattle.std.specs.Prelude.{◌≡◌};
ghost use Rattle.er_journal.specs.Journals.{IsLegalJournal};
ghost use Rattle.er_settle.specs.Seats.{IsSeatList};

use er_event::ThreadId;
use er_journal::{Call, Entry};
use std::marker::Model;

/// One seat's calls, such as a seat can have: a call without a ticket has the reply that the list itself gives, and exactly the
/// counted accesses and the reuses have tickets.
#[derive(Drop)]
pub struct SeatView<'a> {
    name: u64,
    thread: ThreadId,
    calls: &'a [Call],
}

impl<'a> Model for SeatView<'a> {
    ghost use Rattle.er_settle.specs.Seats.{SeatList, IsSeatList};

    ghost Value = { SeatList };

    ghost view = { λ s. record { name = s.name; thread = s.thread; calls = s.calls.now } };

    ghost invariant = { λ s. IsSeatList s.thread s.calls.now };
}

impl<'a> SeatView<'a> {
    /// The calls of a thread's seat at the detector of this name.
    pub fn new(name: u64, thread: ThreadId, calls: &'a [Call]) -> Self
        requires { IsSeatList thread calls.now }
        ensures { result ≡ record { name = name; thread = thread; calls = calls.now } }
    {
        SeatView {
            name,
            thread,
            calls,
        }
    }

    /// The name of the seat's detector.
    pub fn name(&self) -> u64
        ensures { result ≡ self.now.name }
    {
        self.name
    }

    pub fn thread(&self) -> ThreadId
        ensures { result ≡ self.now.thread }
    {
        self.thread
    }

    /// The calls that were accepted, in order.
    pub fn calls(&self) -> &'a [Call]
        ensures calls { result.now ≡ self.now.calls }
        ensures legal { IsSeatList self.now.thread self.now.calls }
    {
        self.calls
    }
}

/// One shard's journal, in which each reply is the one that the journal itself gives.
#[derive(Drop)]
pub struct JournalView<'a> {
    entries: &'a [Entry],
}

impl<'a> Model for JournalView<'a> {
    ghost use Rattle.std.specs.Prelude.{List};
    ghost use Rattle.er_journal.specs.Entries.{Entry as EntryShown};
    ghost use Rattle.er_journal.specs.Journals.{IsLegalJournal};

    ghost Value = { List EntryShown };

    ghost view = { λ j. j.entries.now };

    ghost invariant = { λ j. IsLegalJournal j.entries.now };
}

impl<'a> JournalView<'a> {
    /// The journal of these entries.
    pub fn new(entries: &'a [Entry]) -> Self
        requires { IsLegalJournal entries.now }
        ensures { result ≡ entries.now }
    {
        JournalView { entries }
    }

    /// The entries, in order.
    pub fn entries(&self) -> &'a [Entry]
        ensures entries { result.now ≡ self.now }
        ensures legal { IsLegalJournal self.now }
    {
        self.entries
    }
}
