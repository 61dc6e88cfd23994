//! All calls in one order: those with tickets by rising ticket, each without one directly before its seat's next call with one, and
//! the rest at the end, by seat number.
ghost use Rattle.std.specs.Prelude.{◌≡◌, ◌≤◌, ◌+◌, ◌++◌, ℕ, length, drop, IfOk, OnOk, ◌<◌, IfErr, IfSome, IfNone};
ghost use Rattle.er_settle.specs.Seats.{calls_by};
ghost use Rattle.er_settle.specs.Faults.{AreDistinct, JournalsRise, Not};
ghost use Rattle.er_settle.specs.Inner.SeatChecks.{IsIndex, AreLegalJournals};
ghost use Rattle.er_settle.specs.Inner.JournalOrder.{OrderRises, IsOrder, IsLeast, IsNext, IsDisorder, sooner_of};
ghost use Rattle.er_settle.specs.Inner.EntryMatches.{AllGiven, AllAgree};
ghost use Rattle.er_settle.specs.Inner.CallOrder.{turns_by, next_turn, ticketed_turns, entry_turns, AreTaken};
ghost use Rattle.er_settle.specs.Runs.{calls_of, IsInOrder};
ghost use Rattle.er_journal.specs.Entries.{Entry as EntryShown};

use crate::seat_checks::{Index, is_above};
use crate::{JournalView, Made, SeatView, Unsettled};
use er_event::ThreadId;
use er_journal::{Call, Entry};
use std::alloc::Global;
use std::marker::Model;

/// An entry with its journal's place.
#[derive(Drop)]
pub(crate) struct PlacedEntry<'a> {
    pub(crate) place: usize,
    pub(crate) entry: &'a Entry,
}

impl<'a> Model for PlacedEntry<'a> {
    ghost use Rattle.er_settle.specs.Inner.JournalOrder.{EntryAt, entry_at};

    ghost Value = { EntryAt };

    ghost view = { λ d. entry_at d.place d.entry.now };
}

/// The entries of all journals, by rising ticket, taken by least next ticket.
pub(crate) fn merge_journals<'a>(
    alloc: Global,
    journals: &[JournalView<'a>],
) -> Result<Vec<PlacedEntry<'a>>, Unsettled>
    ensures order { IfOk result (λ order. IsOrder journals.now order.items) }
    ensures rise { IfOk result (λ order. JournalsRise journals.now) }
    ensures legal { IfOk result (λ order. AreLegalJournals journals.now) }
    ensures fault { IfErr result (IsDisorder journals.now) }
{
    let mut read = vec![in alloc; 0; journals.len()]?;
    let mut order = Vec::new(alloc);
    let mut last = None;
    while let Some(place) = next_journal(journals, read.as_slice()) {
        let at = read[place];
        let journal = journals[place].entries();
        let count = journal.len();
        prove!(at < count);
        let entry = &journal[at];
        let ticket = entry.ticket();
        if !is_above(last, ticket) {
            return Err(Unsettled::Order);
        }
        let Ok(()) = order.push(PlacedEntry { place, entry }) else {
            return Err(Unsettled::Memory);
        };
        read[place] = at + 1;
        last = Some(ticket);
    }
    Ok(order)
}

fn next_journal(journals: &[JournalView], read: &[usize]) -> Option<usize>
    requires { length journals.now ≡ length read.now }
    ensures some { IfSome result (IsLeast journals.now read.now) }
    ensures none { IfNone result ((p : ℕ) (e : EntryShown) → Not (IsNext journals.now read.now p e)) }
    ensures legal { AreLegalJournals journals.now }
{
    let mut least = None;
    for (place, journal) in journals.iter().enumerate() {
        let journal = journal.entries();
        let at = read[place];
        if at >= journal.len() {
            continue;
        }
        let entry = &journal[at];
        least = sooner(least, entry.ticket(), place);
    }
    match least {
        Some((_, place)) => Some(place),
        None => None,
    }
}

// The smaller of two tickets, with its place. The first one may be missing.
fn sooner(least: Option<(u64, usize)>, ticket: u64, place: usize) -> Option<(u64, usize)>
    ensures { result ≡ sooner_of least ticket place }
{
    match least {
        Some((first, at)) if first <= ticket => Some((first, at)),
        _ => Some((ticket, place)),
    }
}

/// One call of one thread, in its turn.
#[derive(Drop)]
pub(crate) struct Turn<'a> {
    pub(crate) thread: ThreadId,
    pub(crate) call: &'a Call,
}

impl<'a> Model for Turn<'a> {
    ghost use Rattle.er_settle.specs.Runs.{TurnShown, turn_of};

    ghost Value = { TurnShown };

    ghost view = { λ a. turn_of a.thread a.call.now };
}

/// The turns of some calls of each seat, and the place of each seat's next call.
#[derive(Drop)]
pub(crate) struct Taken<'a> {
    pub(crate) next: Vec<usize>,
    pub(crate) turns: Vec<Turn<'a>>,
}

/// All calls of all seats, in order.
pub(crate) fn merge_calls<'a>(
    alloc: Global,
    index: &Index,
    seats: &[SeatView<'a>],
    order: &[PlacedEntry],
) -> Made<Vec<Turn<'a>>>
    requires index { IsIndex seats.now index.now }
    requires once { AreDistinct seats.now }
    requires rise { OrderRises order.now }
    requires given { AllGiven seats.now order.now }
    requires agree { AllAgree seats.now order.now }
    ensures calls { IfOk result (λ turns. (t : ℕ) → calls_of t turns.items ≡ calls_by seats.now t) }
    ensures told { IfOk result (λ turns. ticketed_turns turns.items ≡ entry_turns order.now) }
    ensures order { IfOk result (λ turns. IsInOrder turns.items) }
{
    let Taken { next, mut turns } = take_ticketed(alloc, index, seats, order)?;
    let places: Vec<usize> = index.values().copied().collect(alloc)?;
    for &place in &places {
        let count = seats.len();
        prove!(place < count);
        take_turn(&mut turns, &seats[place], next[place])?;
    }
    Ok(turns)
}

// Takes each seat's calls up to its last one with a ticket.
fn take_ticketed<'a>(
    alloc: Global,
    index: &Index,
    seats: &[SeatView<'a>],
    order: &[PlacedEntry],
) -> Made<Taken<'a>>
    requires index { IsIndex seats.now index.now }
    requires once { AreDistinct seats.now }
    requires given { AllGiven seats.now order.now }
    requires agree { AllAgree seats.now order.now }
    ensures { IfOk result (λ taken. AreTaken seats.now order.now taken.next.items taken.turns.items) }
{
    let mut next = vec![in alloc; 0; seats.len()]?;
    let mut turns = Vec::new(alloc);
    for placed in order {
        let number = placed.entry.thread().number();
        let Some(at) = index.get(&number).copied() else {
            unreachable!()
        };
        let count = seats.len();
        prove!(at < count);
        next[at] = take_turn(&mut turns, &seats[at], next[at])?;
    }
    Ok(Taken { next, turns })
}

// Takes a seat's calls from a place on, up to the next one that has a ticket, and that one. Returns the place behind it.
fn take_turn<'a>(turns: &mut Vec<Turn<'a>>, seat: &SeatView<'a>, from: usize) -> Made<usize>
    requires { from ≤ length seat.now.calls }
    ensures next { IfOk result (λ next. next ≡ from + length (next_turn (drop from seat.now.calls))) }
    ensures turns { OnOk result (turns.new.items ≡ turns.old.items ++ turns_by seat.now.thread (next_turn (drop from seat.now.calls))) }
{
    let thread = seat.thread();
    let calls = seat.calls();
    for at in from..calls.len() {
        let call = &calls[at];
        turns.push(Turn { thread, call })?;
        if call.ticket().is_some() {
            return Ok(at + 1);
        }
    }
    Ok(calls.len())
}
