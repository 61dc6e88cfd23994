//! Shards with journals and seats, settled.
ghost use Rattle.std.specs.Prelude.{◌≡◌, ◌<◌, ◌⊎◌, length, Ok, Err, IfOk, IfErr, OnErr};
ghost use Rattle.er_settle.specs.Faults.{IsFirst};
ghost use Rattle.er_settle.specs.declared.unsettled.Unsettled.{Unsettled as Fault};
ghost use Rattle.eraser_c.specs.Settlements.{IsOneRun, IsTold, all_behind, all_kept, behind, each_in, journal_in, seat_in, status_of_fault};

use crate::handle::Handle;
use crate::kept::Kept;
use crate::status::Status;
use er_event::Refusal;
use er_settle::{JournalView, SeatView, Unsettled, settle_lists};
use std::alloc::{AllocError, Global};
use std::mem::replace;

/// Settles the shards and the seats that the handles lead to. How many steps they make.
pub(crate) fn settle(
    alloc: Global,
    name: u64,
    opened: u32,
    shards: &mut [Handle],
    seats: &mut [Handle],
) -> Result<u64, Status>
    ensures told { IsTold name opened (all_kept shards.old) (all_kept seats.old) result }
    ensures shards { all_kept shards.new ≡ all_kept shards.old }
    ensures seats { all_kept seats.new ≡ all_kept seats.old }
{
    let Ok(kept_shards) = take_all(alloc, shards) else {
        return Err(Status::Refused(Refusal::OutOfMemory));
    };
    let Ok(kept_seats) = take_all(alloc, seats) else {
        put_back(alloc, shards, kept_shards);
        return Err(Status::Refused(Refusal::OutOfMemory));
    };
    let (journals, lists) = (kept_shards.as_slice(), kept_seats.as_slice());
    let told = settle_kept(alloc, name, opened, journals, lists);
    put_back(alloc, shards, kept_shards);
    put_back(alloc, seats, kept_seats);
    told
}

// What the handles lead to. They are empty then.
fn take_all(alloc: Global, handles: &mut [Handle]) -> Result<Vec<Option<Box<Kept>>>, AllocError>
    ensures taken { IfOk result (λ taken. all_behind (λ boxed. boxed.value) taken.items ≡ all_kept handles.old) }
    ensures size { length handles.new ≡ length handles.old }
    ensures err { OnErr result (all_kept handles.new ≡ all_kept handles.old) }
{
    let mut taken = Vec::with_capacity(alloc, handles.len())?;
    for i in 0..handles.len() {
        taken.push_reserved(replace(&mut handles[i], Handle::empty(alloc)).into_box());
    }
    Ok(taken)
}

// Makes the handles lead to these.
fn put_back(alloc: Global, handles: &mut [Handle], taken: Vec<Option<Box<Kept>>>)
    requires { length handles.old ≡ length taken.items }
    ensures { all_kept handles.new ≡ all_behind (λ boxed. boxed.value) taken.items }
{
    let mut at = 0;
    for kept in taken {
        handles[at] = leading_to(alloc, kept);
        at += 1;
    }
}

fn leading_to(alloc: Global, kept: Option<Box<Kept>>) -> Handle
    ensures { result.kept_box.kept ≡ behind (λ boxed. boxed.value) kept }
{
    match kept {
        Some(kept) => Handle::of(kept),
        None => Handle::empty(alloc),
    }
}

fn settle_kept(
    alloc: Global,
    name: u64,
    opened: u32,
    shards: &[Option<Box<Kept>>],
    seats: &[Option<Box<Kept>>],
) -> Result<u64, Status>
    ensures { IsTold name opened (all_behind (λ boxed. boxed.value) shards.now) (all_behind (λ boxed. boxed.value) seats.now) result }
{
    let journals = journal_views(alloc, name, shards)?;
    let seats = seat_views(alloc, seats)?;
    if journals.is_empty() {
        return Err(Status::EmptyHandle);
    }
    settle_views(alloc, name, opened, seats.as_slice(), journals.as_slice())
}

fn settle_views(
    alloc: Global,
    name: u64,
    opened: u32,
    seats: &[SeatView],
    journals: &[JournalView],
) -> Result<u64, Status>
    requires { 0 < length journals.now }
    ensures ok { IfOk result (λ count. IsOneRun name opened seats.now journals.now count) }
    ensures err { IfErr result (λ why. (fault : Fault) × ((why ≡ status_of_fault fault) × IsFirst name opened seats.now journals.now fault)) }
{
    match settle_lists(alloc, name, opened, seats, journals) {
        Ok(run) => Ok(run.steps.len() as u64),
        Err(fault) => Err(status_of_fault(fault)),
    }
}

fn status_of_fault(fault: Unsettled) -> Status
    ensures { result ≡ status_of_fault fault }
{
    match fault {
        Unsettled::ForeignSeat => Status::Refused(Refusal::ForeignSeat),
        Unsettled::SeatTwice => Status::SeatTwice,
        Unsettled::SeatMissing => Status::SeatMissing,
        Unsettled::Order => Status::Order,
        Unsettled::Entries => Status::Entries,
        Unsettled::Answer => Status::Answer,
        Unsettled::Memory => Status::Refused(Refusal::OutOfMemory),
    }
}

fn journal_views<'a>(
    alloc: Global,
    name: u64,
    shards: &'a [Option<Box<Kept>>],
) -> Result<Vec<JournalView<'a>>, Status>
    ensures ok { IfOk result (λ views. each_in (journal_in name) (all_behind (λ boxed. boxed.value) shards.now) ≡ Ok views.items) }
    ensures err { IfErr result (λ why. (why ≡ Status.Refused Refusal.OutOfMemory) ⊎ (each_in (journal_in name) (all_behind (λ boxed. boxed.value) shards.now) ≡ Err why)) }
{
    let mut views = Vec::new(alloc);
    for shard in shards {
        let view = journal_view(name, shard)?;
        let Ok(()) = views.push(view) else {
            return Err(Status::Refused(Refusal::OutOfMemory));
        };
    }
    Ok(views)
}

fn journal_view(name: u64, shard: &Option<Box<Kept>>) -> Result<JournalView<'_>, Status>
    ensures { result ≡ journal_in name (behind (λ boxed. boxed.value) shard.now) }
{
    let Some(kept) = shard else {
        return Err(Status::EmptyHandle);
    };
    match &**kept {
        Kept::Journal(shard) if shard.name() == name => Ok(JournalView::new(shard.journal())),
        Kept::Journal(_) => Err(Status::ForeignShard),
        Kept::Shard(_) | Kept::Thread(_) | Kept::Seat(_) => Err(Status::WrongHandle),
    }
}

fn seat_views<'a>(
    alloc: Global,
    seats: &'a [Option<Box<Kept>>],
) -> Result<Vec<SeatView<'a>>, Status>
    ensures ok { IfOk result (λ views. each_in seat_in (all_behind (λ boxed. boxed.value) seats.now) ≡ Ok views.items) }
    ensures err { IfErr result (λ why. (why ≡ Status.Refused Refusal.OutOfMemory) ⊎ (each_in seat_in (all_behind (λ boxed. boxed.value) seats.now) ≡ Err why)) }
{
    let mut views = Vec::new(alloc);
    for seat in seats {
        let view = seat_view(seat)?;
        let Ok(()) = views.push(view) else {
            return Err(Status::Refused(Refusal::OutOfMemory));
        };
    }
    Ok(views)
}

fn seat_view(seat: &Option<Box<Kept>>) -> Result<SeatView<'_>, Status>
    ensures { result ≡ seat_in (behind (λ boxed. boxed.value) seat.now) }
{
    let Some(kept) = seat else {
        return Err(Status::EmptyHandle);
    };
    match &**kept {
        Kept::Seat(seat) => Ok(SeatView::new(seat.name(), seat.thread(), seat.calls())),
        Kept::Shard(_) | Kept::Thread(_) | Kept::Journal(_) => Err(Status::WrongHandle),
    }
}
