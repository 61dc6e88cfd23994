//! What C calls.
ghost use Rattle.std.specs.Prelude.{◌≡◌, ◌<◌, ◌≤◌, ◌^◌, ◌/◌, [], None};
ghost use Rattle.er_event.specs.Span.{IsOutsideMemory, most_bytes, span_of_bytes};
ghost use Rattle.er_held.specs.Held.{nothing_held};
ghost use Rattle.eraser_c.specs.Accesses.{IsAccess, IsSpanAccess};
ghost use Rattle.eraser_c.specs.Answers.{IsChanged, IsHeld, IsMade, IsReset, IsStateOf, LeavesStates, NamesRace, OfShard, kind_of, mode_of};
ghost use Rattle.eraser_c.specs.Statuses.{number_of};

use crate::handle::Handle;
use crate::kept::Kept;
use crate::shards::{SpanAnswer, access, access_span, reset, state, words_of};
use crate::status::Status;
use crate::threads::{Thread, change, held};
use er_event::{Event, Kind, Level, LockId, Mode, Refusal, ThreadId, Word};
use er_held::Held;
use er_online::Shard;
use std::alloc::Global;

/// Makes the handle lead to a new shard, which has at most `max_sets` different sets of locks. What it led to before is freed.
#[unsafe(no_mangle)]
pub extern "C" fn eraser_shard_new(alloc: Global, shard: &mut Handle, max_sets: u32) -> u32
    ensures { IsMade shard.old.kept_box.kept shard.new.kept_box.kept (Kept.Shard []) result }
{
    let Ok(made) = Shard::new(alloc, max_sets) else {
        return Status::Refused(Refusal::OutOfMemory).number();
    };
    fill(alloc, shard, Kept::Shard(made)).number()
}

/// Frees what the handle leads to and leaves it empty.
#[unsafe(no_mangle)]
pub extern "C" fn eraser_shard_free(alloc: Global, shard: &mut Handle) -> u32
    ensures freed { shard.new.kept_box.kept ≡ None }
    ensures quiet { result ≡ number_of Status.Quiet }
{
    *shard = Handle::empty(alloc);
    Status::Quiet.number()
}

/// Makes the handle lead to a new thread, which holds nothing. What it led to before is freed. Refused (`TooManyThreads`) for a number of 2^30 or
/// more.
#[unsafe(no_mangle)]
pub extern "C" fn eraser_thread_new(alloc: Global, thread: &mut Handle, number: u32) -> u32
    ensures made { number < 2 ^ 30 → IsMade thread.old.kept_box.kept thread.new.kept_box.kept (Kept.Thread (record { number = number; held = nothing_held })) result }
    ensures refused { 2 ^ 30 ≤ number → result ≡ number_of (Status.Refused Refusal.TooManyThreads) }
    ensures unchanged { 2 ^ 30 ≤ number → thread.new.kept_box.kept ≡ thread.old.kept_box.kept }
{
    if number >= 1 << 30 {
        return Status::Refused(Refusal::TooManyThreads).number();
    }
    let made = Thread {
        number: ThreadId::new(number),
        held: Held::new(alloc),
    };
    fill(alloc, thread, Kept::Thread(made)).number()
}

/// Frees what the handle leads to and leaves it empty.
#[unsafe(no_mangle)]
pub extern "C" fn eraser_thread_free(alloc: Global, thread: &mut Handle) -> u32
    ensures freed { thread.new.kept_box.kept ≡ None }
    ensures quiet { result ≡ number_of Status.Quiet }
{
    *thread = Handle::empty(alloc);
    Status::Quiet.number()
}

/// The thread takes a lock: in write mode if `writes`, else in read mode.
#[unsafe(no_mangle)]
pub extern "C" fn eraser_acquire(alloc: Global, thread: &mut Handle, lock: u32, writes: bool) -> u32
    ensures { IsChanged thread.old.kept_box.kept thread.new.kept_box.kept (Event.Acquire lock (mode_of writes)) result }
{
    let acquire = Event::Acquire(LockId::new(lock), mode_of(writes));
    change(alloc, thread, acquire).number()
}

/// The thread gives up a lock, which it holds in write mode if `writes`, else in read mode.
#[unsafe(no_mangle)]
pub extern "C" fn eraser_release(alloc: Global, thread: &mut Handle, lock: u32, writes: bool) -> u32
    ensures { IsChanged thread.old.kept_box.kept thread.new.kept_box.kept (Event.Release lock (mode_of writes)) result }
{
    let release = Event::Release(LockId::new(lock), mode_of(writes));
    change(alloc, thread, release).number()
}

/// Opens an ignore bracket of the thread, in which its accesses don't count. Brackets may nest.
#[unsafe(no_mangle)]
pub extern "C" fn eraser_thread_ignore_on(alloc: Global, thread: &mut Handle) -> u32
    ensures { IsChanged thread.old.kept_box.kept thread.new.kept_box.kept Event.IgnoreOn result }
{
    change(alloc, thread, Event::IgnoreOn).number()
}

/// Closes the innermost ignore bracket of the thread.
#[unsafe(no_mangle)]
pub extern "C" fn eraser_thread_ignore_off(alloc: Global, thread: &mut Handle) -> u32
    ensures { IsChanged thread.old.kept_box.kept thread.new.kept_box.kept Event.IgnoreOff result }
{
    change(alloc, thread, Event::IgnoreOff).number()
}

/// The thread goes to an interrupt level. Refused (`LevelTooHigh`) above 31.
#[unsafe(no_mangle)]
pub extern "C" fn eraser_level(alloc: Global, thread: &mut Handle, level: u32) -> u32
    ensures changed { level ≤ 31 → IsChanged thread.old.kept_box.kept thread.new.kept_box.kept (Event.Level level) result }
    ensures refused { 31 < level → result ≡ number_of (Status.Refused Refusal.LevelTooHigh) }
    ensures unchanged { 31 < level → thread.new.kept_box.kept ≡ thread.old.kept_box.kept }
{
    match Level::of_number(u64::from(level)) {
        Ok(level) => change(alloc, thread, Event::Level(level)).number(),
        Err(_) => Status::Refused(Refusal::LevelTooHigh).number(),
    }
}

/// Copies the numbers of the locks that the thread holds in any mode into `locks`, rising, as far as there is room. `count` becomes how many it
/// holds.
#[unsafe(no_mangle)]
pub extern "C" fn eraser_held(
    alloc: Global,
    thread: &mut Handle,
    locks: &mut [u32],
    count: &mut usize,
) -> u32
    ensures held { IsHeld thread.old.kept_box.kept locks.old locks.new count.old count.new result }
    ensures thread { thread.new.kept_box.kept ≡ thread.old.kept_box.kept }
{
    held(alloc, thread, locks, count).number()
}

/// The thread reads the word at an address, or writes it if `writes`. Refused (`AddressOutOfRange`) from 2^48 on. In an ignore bracket nothing
/// changes (`Ignored`), if both handles are right.
#[unsafe(no_mangle)]
pub extern "C" fn eraser_access(
    alloc: Global,
    shard: &mut Handle,
    thread: &mut Handle,
    address: u64,
    writes: bool,
) -> u32
    ensures answered { address < 2 ^ 48 → IsAccess thread.old.kept_box.kept (kind_of writes) (address / 4) shard.old.kept_box.kept shard.new.kept_box.kept result }
    ensures refused { 2 ^ 48 ≤ address → result ≡ number_of (Status.Refused Refusal.AddressOutOfRange) }
    ensures unchanged { 2 ^ 48 ≤ address → shard.new.kept_box.kept ≡ shard.old.kept_box.kept }
    ensures thread { thread.new.kept_box.kept ≡ thread.old.kept_box.kept }
{
    match Word::of_address(address) {
        Ok(word) => access(alloc, shard, thread, kind_of(writes), word).number(),
        Err(_) => Status::Refused(Refusal::AddressOutOfRange).number(),
    }
}

/// The thread reads each word that has one of `bytes` bytes from an address on, or writes it if `writes`. `first_race` becomes the address of the
/// first word that is a race, or the greatest number if none is, and `settled` 1 only if no word's state changed, else 0. If a word finds no room,
/// those before it stay done.
#[unsafe(no_mangle)]
pub extern "C" fn eraser_access_span(
    alloc: Global,
    shard: &mut Handle,
    thread: &mut Handle,
    address: u64,
    bytes: u64,
    writes: bool,
    first_race: &mut u64,
    settled: &mut u8,
) -> u32
    ensures answered { 0 < bytes → bytes ≤ most_bytes → ¬ IsOutsideMemory address bytes → IsSpanAccess thread.old.kept_box.kept (kind_of writes) (span_of_bytes address bytes) first_race.new shard.old.kept_box.kept shard.new.kept_box.kept result }
    ensures too_large { most_bytes < bytes → (result ≡ number_of (Status.Refused Refusal.SizeTooLarge)) × (shard.new.kept_box.kept ≡ shard.old.kept_box.kept) }
    ensures out_of_range { bytes ≤ most_bytes → IsOutsideMemory address bytes → (result ≡ number_of (Status.Refused Refusal.AddressOutOfRange)) × (shard.new.kept_box.kept ≡ shard.old.kept_box.kept) }
    ensures none { bytes ≡ 0 → address < 2 ^ 48 → (result ≡ number_of Status.Quiet) × (shard.new.kept_box.kept ≡ shard.old.kept_box.kept) }
    ensures named { NamesRace first_race.new result }
    ensures settled { settled.new ≡ 1 → LeavesStates shard.old.kept_box.kept shard.new.kept_box.kept result }
    ensures flag { settled.new ≤ 1 }
    ensures thread { thread.new.kept_box.kept ≡ thread.old.kept_box.kept }
{
    let answer = match words_of(address, bytes) {
        Ok(words) => access_span(alloc, shard, thread, kind_of(writes), words),
        Err(status) => SpanAnswer::without_race(status),
    };
    *first_race = answer.first_race;
    *settled = u8::from(answer.is_settled);
    answer.status.number()
}

/// Makes each word that has one of `bytes` bytes from an address on virgin.
#[unsafe(no_mangle)]
pub extern "C" fn eraser_reset(alloc: Global, shard: &mut Handle, address: u64, bytes: u64) -> u32
    ensures done { 0 < bytes → bytes ≤ most_bytes → ¬ IsOutsideMemory address bytes → OfShard (λ before after number. IsReset (span_of_bytes address bytes) before after number) shard.old.kept_box.kept shard.new.kept_box.kept result }
    ensures too_large { most_bytes < bytes → (result ≡ number_of (Status.Refused Refusal.SizeTooLarge)) × (shard.new.kept_box.kept ≡ shard.old.kept_box.kept) }
    ensures out_of_range { bytes ≤ most_bytes → IsOutsideMemory address bytes → (result ≡ number_of (Status.Refused Refusal.AddressOutOfRange)) × (shard.new.kept_box.kept ≡ shard.old.kept_box.kept) }
    ensures none { bytes ≡ 0 → address < 2 ^ 48 → (result ≡ number_of Status.Quiet) × (shard.new.kept_box.kept ≡ shard.old.kept_box.kept) }
{
    match words_of(address, bytes) {
        Ok(words) => reset(alloc, shard, words).number(),
        Err(status) => status.number(),
    }
}

/// What is known of the word at an address. Refused (`AddressOutOfRange`) from 2^48 on.
#[unsafe(no_mangle)]
pub extern "C" fn eraser_state(alloc: Global, shard: &mut Handle, address: u64) -> u32
    ensures state { address < 2 ^ 48 → IsStateOf (address / 4) shard.old.kept_box.kept shard.new.kept_box.kept result }
    ensures refused { 2 ^ 48 ≤ address → result ≡ number_of (Status.Refused Refusal.AddressOutOfRange) }
    ensures unchanged { 2 ^ 48 ≤ address → shard.new.kept_box.kept ≡ shard.old.kept_box.kept }
{
    match Word::of_address(address) {
        Ok(word) => state(alloc, shard, word).number(),
        Err(_) => Status::Refused(Refusal::AddressOutOfRange).number(),
    }
}

/// Makes the handle lead to this, if there is memory.
pub(crate) fn fill(alloc: Global, handle: &mut Handle, kept: Kept) -> Status
    ensures { IsMade handle.old.kept_box.kept handle.new.kept_box.kept kept (number_of result) }
{
    let Ok(made) = Box::new(alloc, kept) else {
        return Status::Refused(Refusal::OutOfMemory);
    };
    *handle = Handle::of(made);
    Status::Quiet
}

pub(crate) fn kind_of(writes: bool) -> Kind
    ensures { result ≡ kind_of writes }
{
    if writes { Kind::Write } else { Kind::Read }
}

fn mode_of(writes: bool) -> Mode
    ensures { result ≡ mode_of writes }
{
    if writes { Mode::Write } else { Mode::Read }
}
