//! What C calls of an audited run: shards with journals, seats, and what settles them.
ghost use Rattle.std.specs.Prelude.{◌≡◌, ◌≢◌, ◌<◌, ◌≤◌, ◌^◌, ◌/◌, ◌-◌, ℕ, [], Result};
ghost use Rattle.er_event.specs.Span.{IsOutsideMemory, most_bytes, page_count, part_of, span_of_bytes};
ghost use Rattle.eraser_c.specs.Answers.{IsMade, kind_of};
ghost use Rattle.eraser_c.specs.Recorded.{IsRecorded};
ghost use Rattle.eraser_c.specs.Settlements.{IsTold, IsToldBy, all_kept};
ghost use Rattle.eraser_c.specs.Statuses.{number_of};
ghost use Rattle.eraser_c.specs.declared.status.Status.{Status as StatusShown};

use crate::exports::{fill, kind_of};
use crate::handle::Handle;
use crate::journals::{Use, record};
use crate::kept::Kept;
use crate::settlement::settle;
use crate::shards::words_of;
use crate::status::Status;
use er_event::{Refusal, ThreadId, Word};
use er_seat::VacantSeat;
use er_shard::OwnShard;
use std::alloc::Global;

/// Makes the handle lead to a new shard with a journal, of the detector of this name: in contracts its number there is 0. It has at most `max_sets`
/// different sets of locks, and its journal takes 4,294,967,295 entries. What the handle led to before is freed.
#[unsafe(no_mangle)]
pub extern "C" fn eraser_journal_new(
    alloc: Global,
    shard: &mut Handle,
    name: u64,
    max_sets: u32,
) -> u32
    ensures { IsMade shard.old.kept_box.kept shard.new.kept_box.kept (Kept.Journal (record { name = name; number = 0; limit = 2 ^ 32 - 1; journal = [] })) result }
{
    let Ok(made) = OwnShard::new(alloc, max_sets, name, 0, u32::MAX) else {
        return Status::Refused(Refusal::OutOfMemory).number();
    };
    fill(alloc, shard, Kept::Journal(made)).number()
}

/// Makes the handle lead to the seat of a new thread, which holds nothing, at the detector of this name. What it led to before is freed. Refused
/// (`TooManyThreads`) for a number of 2^30 or more.
#[unsafe(no_mangle)]
pub extern "C" fn eraser_seat_new(alloc: Global, thread: &mut Handle, name: u64, number: u32) -> u32
    ensures made { number < 2 ^ 30 → IsMade thread.old.kept_box.kept thread.new.kept_box.kept (Kept.Seat (record { name = name; thread = number; calls = [] })) result }
    ensures refused { 2 ^ 30 ≤ number → result ≡ number_of (Status.Refused Refusal.TooManyThreads) }
    ensures unchanged { 2 ^ 30 ≤ number → thread.new.kept_box.kept ≡ thread.old.kept_box.kept }
{
    if number >= 1 << 30 {
        return Status::Refused(Refusal::TooManyThreads).number();
    }
    let Ok(made) = VacantSeat::new(alloc, name) else {
        return Status::Refused(Refusal::OutOfMemory).number();
    };
    let seat = Kept::Seat(made.into_seat(ThreadId::new(number)));
    fill(alloc, thread, seat).number()
}

/// The seat's thread reads the word at an address, or writes it if `writes`, under a ticket: the seat's list and the shard's journal get it. An access in
/// an ignore bracket is in neither. Refused (`AddressOutOfRange`) from 2^48 on.
#[unsafe(no_mangle)]
pub extern "C" fn eraser_record(
    alloc: Global,
    shard: &mut Handle,
    thread: &mut Handle,
    ticket: u64,
    address: u64,
    writes: bool,
) -> u32
    ensures recorded { address < 2 ^ 48 → IsRecorded (Use.Access (kind_of writes) (address / 4)) ticket thread.old.kept_box.kept thread.new.kept_box.kept shard.old.kept_box.kept shard.new.kept_box.kept result }
    ensures refused { 2 ^ 48 ≤ address → result ≡ number_of (Status.Refused Refusal.AddressOutOfRange) }
    ensures shard { 2 ^ 48 ≤ address → shard.new.kept_box.kept ≡ shard.old.kept_box.kept }
    ensures thread { 2 ^ 48 ≤ address → thread.new.kept_box.kept ≡ thread.old.kept_box.kept }
{
    match Word::of_address(address) {
        Ok(word) => {
            let access = Use::Access(kind_of(writes), word);
            record(alloc, shard, thread, ticket, access).number()
        }
        Err(_) => Status::Refused(Refusal::AddressOutOfRange).number(),
    }
}

/// Makes each word of a page that has one of `bytes` bytes from an address on virgin, under a ticket: the seat's list and the shard's journal get it. Refused
/// (`SizeTooLarge`) if the bytes are on several pages or more than 4,194,304, and (`AddressOutOfRange`) if one has an address of 2^48 or more. No bytes
/// are answered `Quiet`, and nothing gets them.
#[unsafe(no_mangle)]
pub extern "C" fn eraser_record_reset(
    alloc: Global,
    shard: &mut Handle,
    thread: &mut Handle,
    ticket: u64,
    address: u64,
    bytes: u64,
) -> u32
    ensures recorded { 0 < bytes → bytes ≤ most_bytes → ¬ IsOutsideMemory address bytes → page_count (span_of_bytes address bytes) ≡ 1 → IsRecorded (Use.Reset (part_of (span_of_bytes address bytes) 0)) ticket thread.old.kept_box.kept thread.new.kept_box.kept shard.old.kept_box.kept shard.new.kept_box.kept result }
    ensures several { 0 < bytes → bytes ≤ most_bytes → ¬ IsOutsideMemory address bytes → page_count (span_of_bytes address bytes) ≢ 1 → (result ≡ number_of (Status.Refused Refusal.SizeTooLarge)) × ((thread.new.kept_box.kept ≡ thread.old.kept_box.kept) × (shard.new.kept_box.kept ≡ shard.old.kept_box.kept)) }
    ensures too_large { most_bytes < bytes → (result ≡ number_of (Status.Refused Refusal.SizeTooLarge)) × ((thread.new.kept_box.kept ≡ thread.old.kept_box.kept) × (shard.new.kept_box.kept ≡ shard.old.kept_box.kept)) }
    ensures out_of_range { bytes ≤ most_bytes → IsOutsideMemory address bytes → (result ≡ number_of (Status.Refused Refusal.AddressOutOfRange)) × ((thread.new.kept_box.kept ≡ thread.old.kept_box.kept) × (shard.new.kept_box.kept ≡ shard.old.kept_box.kept)) }
    ensures none { bytes ≡ 0 → address < 2 ^ 48 → (result ≡ number_of Status.Quiet) × ((thread.new.kept_box.kept ≡ thread.old.kept_box.kept) × (shard.new.kept_box.kept ≡ shard.old.kept_box.kept)) }
{
    match words_of(address, bytes) {
        Ok(words) if words.parts() == 1 => {
            let reset = Use::Reset(words.part(0));
            record(alloc, shard, thread, ticket, reset).number()
        }
        Ok(_) => Status::Refused(Refusal::SizeTooLarge).number(),
        Err(status) => status.number(),
    }
}

/// Whether the shards, by place, and the seats make one run of the detector of this name, of whose seats those of the numbers below `opened` are all to
/// be there: of n shards the one in place i has the pages i, i + n, i + 2n and so on. If they do, `steps` becomes how many steps it has, else 0. If they
/// don't, what is wrong with the first shard is returned, then with the first seat (`EmptyHandle`, `WrongHandle`, and `ForeignShard` for a shard of another
/// name), then `EmptyHandle` if there is no shard, then the first fault of settling; and `OutOfMemory` if there is no memory. The handles lead to what
/// they led to.
#[unsafe(no_mangle)]
pub extern "C" fn eraser_settle_handles(
    alloc: Global,
    name: u64,
    opened: u32,
    shards: &mut [Handle],
    seats: &mut [Handle],
    steps: &mut u64,
) -> u32
    ensures settled { (told : Result ℕ StatusShown) × (IsTold name opened (all_kept shards.old) (all_kept seats.old) told × IsToldBy told steps.new result) }
    ensures shards { all_kept shards.new ≡ all_kept shards.old }
    ensures seats { all_kept seats.new ≡ all_kept seats.old }
{
    *steps = 0;
    match settle(alloc, name, opened, shards, seats) {
        Ok(count) => {
            *steps = count;
            Status::Quiet.number()
        }
        Err(status) => status.number(),
    }
}
