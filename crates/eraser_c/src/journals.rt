//! What a call does to a shard with a journal and to a seat.
ghost use Rattle.eraser_c.specs.Recorded.{ByJournal, IsListedReset, IsRecorded, IsUsed};
ghost use Rattle.eraser_c.specs.Statuses.{number_of};

use crate::handle::Handle;
use crate::kept::Kept;
use crate::status::Status;
use er_event::{Kind, PageRange, Reply, Site, Word};
use er_seat::Seat;
use er_shard::OwnShard;
use std::alloc::Global;
use std::mem::replace;

/// What a seat's thread does to words.
#[derive(Clone, Copy)]
pub enum Use {
    /// It reads or writes a word.
    Access(Kind, Word),
    /// It gives the words of a range a new use.
    Reset(PageRange),
}

/// Lets the thread whose seat a handle leads to use words.
pub(crate) fn record(
    alloc: Global,
    shard: &mut Handle,
    thread: &mut Handle,
    ticket: u64,
    what: Use,
) -> Status
    ensures { IsRecorded what ticket thread.old.kept_box.kept thread.new.kept_box.kept shard.old.kept_box.kept shard.new.kept_box.kept (number_of result) }
{
    let Some(mut kept) = replace(thread, Handle::empty(alloc)).into_box() else {
        return Status::EmptyHandle;
    };
    let status = match &mut *kept {
        Kept::Seat(seat) => record_by(alloc, shard, seat, ticket, what),
        Kept::Shard(_) | Kept::Thread(_) | Kept::Journal(_) => Status::WrongHandle,
    };
    *thread = Handle::of(kept);
    status
}

fn record_by(alloc: Global, shard: &mut Handle, seat: &mut Seat, ticket: u64, what: Use) -> Status
    ensures { ByJournal (IsUsed what ticket) seat.old seat.new shard.old.kept_box.kept shard.new.kept_box.kept (number_of result) }
{
    let Some(mut kept) = replace(shard, Handle::empty(alloc)).into_box() else {
        return Status::EmptyHandle;
    };
    let status = match &mut *kept {
        Kept::Journal(shard) => record_in(shard, seat, ticket, what),
        Kept::Shard(_) | Kept::Thread(_) | Kept::Seat(_) => Status::WrongHandle,
    };
    *shard = Handle::of(kept);
    status
}

fn record_in(shard: &mut OwnShard, seat: &mut Seat, ticket: u64, what: Use) -> Status
    ensures { IsUsed what ticket seat.old seat.new shard.old shard.new (number_of result) }
{
    match what {
        Use::Access(kind, word) => access(shard, seat, ticket, kind, word),
        Use::Reset(range) => reset(shard, seat, ticket, range),
    }
}

fn access(shard: &mut OwnShard, seat: &mut Seat, ticket: u64, kind: Kind, word: Word) -> Status
    ensures { IsUsed (Use.Access kind word) ticket seat.old seat.new shard.old shard.new (number_of result) }
{
    if seat.ignoring() {
        return Status::Ignored;
    }
    match seat.record_access(&(), shard, ticket, word, kind, Site::MISSING) {
        Ok(Reply::Race) => Status::Race,
        Ok(_) => Status::Quiet,
        Err(why) => Status::Refused(why.refusal()),
    }
}

fn reset(shard: &mut OwnShard, seat: &mut Seat, ticket: u64, range: PageRange) -> Status
    ensures { IsListedReset range ticket seat.old seat.new shard.old shard.new (number_of result) }
{
    match seat.reuse(shard, ticket, range) {
        Ok(()) => Status::Quiet,
        Err(why) => Status::Refused(why.refusal()),
    }
}
