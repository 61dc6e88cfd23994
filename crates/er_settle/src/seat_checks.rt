//! Whether the seats are the detector's, each once and all that were opened.
ghost use Rattle.std.specs.Prelude.{◌<◌, ◌↔◌, Some, IfOk, IfErr, IsTrue};
ghost use Rattle.er_settle.specs.Faults.{AreOfDetector, AreDistinct, AreComplete, CallsRise, ListsRise};
ghost use Rattle.er_settle.specs.Inner.SeatChecks.{IsIndex, IsTwice, IsAbove, AreSeatLists};

use crate::{SeatView, Unsettled};
use er_journal::Call;
use std::alloc::Global;
use std::collections::BTreeMap;

/// Where the seat of each thread stands.
pub(crate) type Index = BTreeMap<u32, usize>;

pub(crate) fn are_of_detector(name: u64, seats: &[SeatView]) -> bool
    ensures { IsTrue result ↔ AreOfDetector name seats.now }
{
    seats.iter().all(|seat| seat.name() == name)
}

/// Where the seat of each thread stands. The fault is `SeatTwice`, if two seats have one thread.
pub(crate) fn index_by_thread(alloc: Global, seats: &[SeatView]) -> Result<Index, Unsettled>
    ensures once { IfOk result (λ index. AreDistinct seats.now) }
    ensures index { IfOk result (λ index. IsIndex seats.now index) }
    ensures twice { IfErr result (IsTwice seats.now) }
{
    let mut index = BTreeMap::new(alloc);
    for (at, seat) in seats.iter().enumerate() {
        let number = seat.thread().number();
        if index.contains_key(&number) {
            return Err(Unsettled::SeatTwice);
        }
        let Ok(_) = index.insert(number, at) else {
            return Err(Unsettled::Memory);
        };
    }
    Ok(index)
}

pub(crate) fn are_complete(opened: u32, seats: &[SeatView], index: &Index) -> bool
    requires index { IsIndex seats.now index.now }
    ensures { IsTrue result ↔ AreComplete opened seats.now }
{
    for number in 0..opened {
        if !index.contains_key(&number) {
            return false;
        }
    }
    true
}

/// Whether the tickets of each list rise.
pub(crate) fn lists_rise(seats: &[SeatView]) -> bool
    ensures rise { IsTrue result ↔ ListsRise seats.now }
    ensures legal { IsTrue result → AreSeatLists seats.now }
{
    seats.iter().all(|seat| calls_rise(seat.calls()))
}

fn calls_rise(calls: &[Call]) -> bool
    ensures { IsTrue result ↔ CallsRise calls.now }
{
    let mut last = None;
    for call in calls {
        let Some(ticket) = call.ticket() else {
            continue;
        };
        if !is_above(last, ticket) {
            return false;
        }
        last = Some(ticket);
    }
    true
}

pub(crate) fn is_above(last: Option<u64>, ticket: u64) -> bool
    ensures { IsTrue result ↔ IsAbove last ticket }
{
    match last {
        None => true,
        Some(last) => last < ticket,
    }
}
