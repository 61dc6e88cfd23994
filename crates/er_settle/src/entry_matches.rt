//! Whether each call with a ticket has its entry, and each entry its call.
ghost use Rattle.std.specs.Prelude.{◌≡◌, ◌<◌, ◌↔◌, List, IsTrue, [], ◌∷◌, Some, IfOk, IfErr};
ghost use Rattle.er_settle.specs.Faults.{AreDistinct, place_of, IsAlike};
ghost use Rattle.er_settle.specs.Inner.EntryMatches.{AreGrouped, AllAgree, AllInPlace, ticketed_calls, ticketed_entries, AllGiven, IsUngiven};
ghost use Rattle.er_journal.specs.Entries.{event_of};
ghost use Rattle.er_settle.specs.Inner.SeatChecks.{IsIndex};
ghost use Rattle.er_held.specs.Held.{nothing_held};
ghost use Rattle.er_journal.specs.Merges.{stamp_by, stamps_in};
ghost use Rattle.er_settle.specs.Inner.ReplyMatches.{AreAlike, AllAlike};

use crate::call_order::PlacedEntry;
use crate::seat_checks::Index;
use crate::{Made, SeatView, Unsettled};
use er_event::ThreadId;
use er_held::Held;
use er_journal::{Call, Entry};
use std::alloc::Global;
use std::marker::Model;

/// Entries of one thread, by rising ticket. It stands for a `Vec`, so that contracts see a list of lists.
#[derive(Drop)]
pub(crate) struct EntryGroup<'a> {
    entries: Vec<PlacedEntry<'a>>,
}

impl<'a> Model for EntryGroup<'a> {
    ghost use Rattle.std.specs.Prelude.{List};
    ghost use Rattle.er_settle.specs.Inner.JournalOrder.{EntryAt};

    ghost Value = { List EntryAt };

    ghost view = { λ h. h.entries.items };
}

/// The entries of each seat's thread, in order. The fault is an entry whose thread has no seat.
pub(crate) fn group_by_thread<'a>(
    alloc: Global,
    index: &Index,
    seats: &[SeatView],
    order: &[PlacedEntry<'a>],
) -> Result<Vec<EntryGroup<'a>>, Unsettled>
    requires index { IsIndex seats.now index.now }
    requires once { AreDistinct seats.now }
    ensures given { IfOk result (λ groups. AllGiven seats.now order.now) }
    ensures groups { IfOk result (λ groups. AreGrouped seats.now order.now groups.items) }
    ensures fault { IfErr result (IsUngiven seats.now order.now) }
{
    let mut groups = empty_groups(alloc, seats)?;
    for placed in order {
        let (place, entry) = (placed.place, placed.entry);
        let thread = entry.thread().number();
        let Some(at) = index.get(&thread).copied() else {
            return Err(Unsettled::Entries);
        };
        let group = &mut groups[at];
        let Ok(()) = group.entries.push(PlacedEntry { place, entry }) else {
            return Err(Unsettled::Memory);
        };
    }
    Ok(groups)
}

fn empty_groups<'a>(alloc: Global, seats: &[SeatView]) -> Made<Vec<EntryGroup<'a>>>
    ensures { IfOk result (λ groups. AreGrouped seats.now [] groups.items) }
{
    let mut groups = Vec::with_capacity(alloc, seats.len())?;
    for _seat in seats {
        let entries = Vec::new(alloc);
        groups.push(EntryGroup { entries })?;
    }
    Ok(groups)
}

// Whether the calls with tickets and the entries of their thread agree, one after the other.
fn is_matched<'a>(calls: &[Call], group: &[PlacedEntry<'a>]) -> bool
    ensures { IsTrue result ↔ (ticketed_calls calls.now ≡ ticketed_entries group.now) }
{
    let mut at = 0;
    for call in calls {
        let Some(ticket) = call.ticket() else {
            continue;
        };
        if at >= group.len() {
            return false;
        }
        let placed = &group[at];
        let entry = placed.entry;
        if ticket != entry.ticket() || !entry.records(call.event()) {
            return false;
        }
        at += 1;
    }
    at == group.len()
}

/// Whether each seat's calls with tickets and the entries of its thread agree, one after the other.
pub(crate) fn all_matched<'a>(
    seats: &[SeatView],
    groups: &[EntryGroup<'a>],
    order: &[PlacedEntry<'a>],
) -> bool
    requires { AreGrouped seats.now order.now groups.now }
    ensures { IsTrue result ↔ AllAgree seats.now order.now }
{
    for (at, seat) in seats.iter().enumerate() {
        let group = &groups[at];
        if !is_matched(seat.calls(), &group.entries) {
            return false;
        }
    }
    true
}

pub(crate) fn all_in_place(shards: usize, order: &[PlacedEntry]) -> bool
    requires { 0 < shards }
    ensures { IsTrue result ↔ AllInPlace shards order.now }
{
    order.iter().all(|placed| is_in_place(shards, placed))
}

fn is_in_place(shards: usize, placed: &PlacedEntry) -> bool
    requires { 0 < shards }
    ensures { IsTrue result ↔ (place_of shards placed.now.entry.what ≡ placed.now.place) }
{
    placed.entry.first_word().page() as usize % shards == placed.place
}

/// Whether each seat's calls have the replies and the locks of their entries.
pub(crate) fn all_answered(
    alloc: Global,
    seats: &[SeatView],
    groups: &[EntryGroup],
    order: &[PlacedEntry],
) -> Made<bool>
    requires dealt { AreGrouped seats.now order.now groups.now }
    requires agree { AllAgree seats.now order.now }
    ensures { IfOk result (λ alike. IsTrue alike ↔ AllAlike seats.now order.now) }
{
    for (at, seat) in seats.iter().enumerate() {
        let group = &groups[at];
        if !is_answered(&mut Held::new(alloc), seat, &group.entries)? {
            return Ok(false);
        }
    }
    Ok(true)
}

// Whether the seat's calls with tickets have the replies and the locks of these entries, by what the seat holds at each call.
fn is_answered(held: &mut Held, seat: &SeatView, group: &[PlacedEntry]) -> Made<bool>
    requires nothing { held.old ≡ nothing_held }
    requires calls { ticketed_calls seat.now.calls ≡ ticketed_entries group.now }
    ensures { IfOk result (λ alike. IsTrue alike ↔ AreAlike seat.now group.now) }
{
    let thread = seat.thread();
    let mut at = 0;
    for call in seat.calls() {
        if call.ticket().is_some() {
            let count = group.len();
            prove!(at < count);
            let placed = &group[at];
            if !is_alike(held, thread, call, placed.entry) {
                return Ok(false);
            }
            at += 1;
        }
        held.follow(call.event())?;
    }
    Ok(true)
}

fn is_alike(held: &Held, thread: ThreadId, call: &Call, entry: &Entry) -> bool
    requires { call.now.event ≡ event_of entry.now.what }
    ensures { IsTrue result ↔ IsAlike held.now thread call.now entry.now }
{
    entry.reply() == call.reply() && is_stamped(held, thread, entry)
}

fn is_stamped(held: &Held, thread: ThreadId, entry: &Entry) -> bool
    ensures { IsTrue result ↔ (stamp_by held.now thread (event_of entry.now.what) ≡ stamps_in (entry.now ∷ [])) }
{
    match entry.locks() {
        Some(locks) => { !held.ignoring() && locks.are(thread, held.held(), held.write_held()) }
        None => true,
    }
}
