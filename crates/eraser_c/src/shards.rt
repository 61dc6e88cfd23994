//! What a call does to the shard that a handle leads to.
ghost use Rattle.std.specs.Prelude.{◌≡◌, ◌<◌, ◌≤◌, ◌^◌, true, false, None, Err, IfOk, IsOk};
ghost use Rattle.er_event.specs.Span.{IsOutsideMemory, most_bytes, span_of_bytes};
ghost use Rattle.er_journal.specs.Journals.{IsLegalJournal, journal_state};
ghost use Rattle.eraser_c.specs.Accesses.{IsAccess, IsSpanAccess};
ghost use Rattle.eraser_c.specs.Answers.{IsAccessed, IsReset, IsSpanFound, IsState, IsStateOf, IsStatus, LeavesStates, NamesRace, OfShard, UnlessIgnoring, address_of, race_if, race_of, status_of_state};
ghost use Rattle.eraser_c.specs.Statuses.{number_of};
ghost use Rattle.er_online.specs.Taken.{HasSameStates};

use crate::handle::Handle;
use crate::kept::Kept;
use crate::status::Status;
use crate::threads::Thread;
use er_event::{Kind, Refusal, Word, WordRange, WordState};
use er_online::Shard;
use er_shard::OwnShard;
use std::alloc::Global;
use std::mem::replace;

/// Makes one access of the thread that a handle leads to.
pub(crate) fn access(
    alloc: Global,
    shard: &mut Handle,
    thread: &mut Handle,
    kind: Kind,
    word: Word,
) -> Status
    ensures answered { IsAccess thread.old.kept_box.kept kind word shard.old.kept_box.kept shard.new.kept_box.kept (number_of result) }
    ensures thread { thread.new.kept_box.kept ≡ thread.old.kept_box.kept }
{
    let Some(kept) = replace(thread, Handle::empty(alloc)).into_box() else {
        return Status::EmptyHandle;
    };
    let status = match &*kept {
        Kept::Thread(thread) => access_by(alloc, shard, thread, kind, word),
        Kept::Shard(_) => Status::WrongHandle,
        Kept::Journal(_) => Status::WrongHandle,
        Kept::Seat(_) => Status::WrongHandle,
    };
    *thread = Handle::of(kept);
    status
}

#[inline(always)]
fn access_by(alloc: Global, shard: &mut Handle, thread: &Thread, kind: Kind, word: Word) -> Status
    ensures { OfShard (λ before after number. UnlessIgnoring thread.now before after number (IsAccessed thread.now kind word before after number)) shard.old.kept_box.kept shard.new.kept_box.kept (number_of result) }
{
    let Some(mut kept) = replace(shard, Handle::empty(alloc)).into_box() else {
        return Status::EmptyHandle;
    };
    let status = match &mut *kept {
        Kept::Shard(shard) => take(shard, thread, kind, word),
        Kept::Thread(_) | Kept::Journal(_) | Kept::Seat(_) => Status::WrongHandle,
    };
    *shard = Handle::of(kept);
    status
}

#[inline(always)]
#[tactic(auto, unfolding(crate::specs::Answers::IsAccessed))]
fn take(shard: &mut Shard, thread: &Thread, kind: Kind, word: Word) -> Status
    ensures { UnlessIgnoring thread.now shard.old shard.new (number_of result) (IsAccessed thread.now kind word shard.old shard.new (number_of result)) }
{
    if thread.held.ignoring() {
        return Status::Ignored;
    }
    match shard.access(thread.number, kind, word, thread.locks(kind)) {
        Ok(noted) => if_race(noted.is_race),
        Err(why) => Status::Refused(why.refusal()),
    }
}

#[inline(always)]
fn if_race(is_race: bool) -> Status
    ensures { result ≡ race_if is_race }
{
    if is_race { Status::Race } else { Status::Quiet }
}

/// What the accesses of a run of words are answered.
#[derive(Clone, Copy)]
pub(crate) struct SpanAnswer {
    pub status: Status,
    /// The address of the first word that is a race, or the greatest number if none is.
    pub first_race: u64,
    /// No word's state changed. It may be false of such accesses too.
    pub is_settled: bool,
}

impl SpanAnswer {
    /// That of accesses that weren't made.
    pub(crate) fn without_race(status: Status) -> SpanAnswer
        ensures status { result.status ≡ status }
        ensures none { result.first_race ≡ address_of None }
        ensures unsettled { result.is_settled ≡ false }
    {
        SpanAnswer {
            status,
            first_race: u64::MAX,
            is_settled: false,
        }
    }
}

/// Makes an access of each word of a run by the thread that a handle leads to.
pub(crate) fn access_span(
    alloc: Global,
    shard: &mut Handle,
    thread: &mut Handle,
    kind: Kind,
    words: WordRange,
) -> SpanAnswer
    ensures answered { IsSpanAccess thread.old.kept_box.kept kind words result.first_race shard.old.kept_box.kept shard.new.kept_box.kept (number_of result.status) }
    ensures named { NamesRace result.first_race (number_of result.status) }
    ensures settled { result.is_settled ≡ true → LeavesStates shard.old.kept_box.kept shard.new.kept_box.kept (number_of result.status) }
    ensures thread { thread.new.kept_box.kept ≡ thread.old.kept_box.kept }
{
    let Some(kept) = replace(thread, Handle::empty(alloc)).into_box() else {
        return SpanAnswer::without_race(Status::EmptyHandle);
    };
    let answer = match &*kept {
        Kept::Thread(thread) => span_by(alloc, shard, thread, kind, words),
        Kept::Shard(_) => SpanAnswer::without_race(Status::WrongHandle),
        Kept::Journal(_) => SpanAnswer::without_race(Status::WrongHandle),
        Kept::Seat(_) => SpanAnswer::without_race(Status::WrongHandle),
    };
    *thread = Handle::of(kept);
    answer
}

fn span_by(
    alloc: Global,
    shard: &mut Handle,
    thread: &Thread,
    kind: Kind,
    words: WordRange,
) -> SpanAnswer
    ensures answered { OfShard (λ before after number. UnlessIgnoring thread.now before after number (IsSpanFound thread.now kind words result.first_race before after number)) shard.old.kept_box.kept shard.new.kept_box.kept (number_of result.status) }
    ensures named { NamesRace result.first_race (number_of result.status) }
    ensures settled { result.is_settled ≡ true → LeavesStates shard.old.kept_box.kept shard.new.kept_box.kept (number_of result.status) }
{
    let Some(mut kept) = replace(shard, Handle::empty(alloc)).into_box() else {
        return SpanAnswer::without_race(Status::EmptyHandle);
    };
    let answer = match &mut *kept {
        Kept::Shard(shard) => take_span(shard, thread, kind, words),
        Kept::Thread(_) | Kept::Journal(_) | Kept::Seat(_) => SpanAnswer::without_race(
            Status::WrongHandle,
        ),
    };
    *shard = Handle::of(kept);
    answer
}

fn take_span(shard: &mut Shard, thread: &Thread, kind: Kind, words: WordRange) -> SpanAnswer
    ensures answered { UnlessIgnoring thread.now shard.old shard.new (number_of result.status) (IsSpanFound thread.now kind words result.first_race shard.old shard.new (number_of result.status)) }
    ensures named { NamesRace result.first_race (number_of result.status) }
    ensures settled { result.is_settled ≡ true → HasSameStates shard.old shard.new }
    ensures quiet { result.is_settled ≡ true → result.status ≡ Status.Quiet }
{
    if thread.held.ignoring() {
        return SpanAnswer::without_race(Status::Ignored);
    }
    let spanned = shard.access_span(thread.number, kind, words, thread.locks(kind));
    let first_race = race_address(spanned.first_race);
    let status = match spanned.refused {
        Some(why) => Status::Refused(why.refusal()),
        None => race_status(spanned.first_race),
    };
    SpanAnswer {
        status,
        first_race,
        is_settled: spanned.is_settled,
    }
}

fn race_address(first_race: Option<Word>) -> u64
    ensures { result ≡ address_of first_race }
{
    match first_race {
        Some(word) => word.address(),
        None => u64::MAX,
    }
}

fn race_status(first_race: Option<Word>) -> Status
    ensures { result ≡ race_of first_race }
{
    match first_race {
        Some(_) => Status::Race,
        None => Status::Quiet,
    }
}

/// Makes the words of a run virgin.
pub(crate) fn reset(alloc: Global, shard: &mut Handle, words: WordRange) -> Status
    ensures { OfShard (λ before after number. IsReset words before after number) shard.old.kept_box.kept shard.new.kept_box.kept (number_of result) }
{
    let Some(mut kept) = replace(shard, Handle::empty(alloc)).into_box() else {
        return Status::EmptyHandle;
    };
    let status = match &mut *kept {
        Kept::Shard(shard) => {
            shard.reset_span(words);
            Status::Quiet
        }
        Kept::Thread(_) | Kept::Journal(_) | Kept::Seat(_) => Status::WrongHandle,
    };
    *shard = Handle::of(kept);
    status
}

/// What is known of a word.
pub(crate) fn state(alloc: Global, shard: &mut Handle, word: Word) -> Status
    ensures { IsStateOf word shard.old.kept_box.kept shard.new.kept_box.kept (number_of result) }
{
    let Some(kept) = replace(shard, Handle::empty(alloc)).into_box() else {
        return Status::EmptyHandle;
    };
    let status = match &*kept {
        Kept::Shard(shard) => state_of(shard, word),
        Kept::Journal(shard) => journal_state_of(shard, word),
        Kept::Thread(_) | Kept::Seat(_) => Status::WrongHandle,
    };
    *shard = Handle::of(kept);
    status
}

fn state_of(shard: &Shard, word: Word) -> Status
    ensures { IsState word shard.now shard.now (number_of result) }
{
    match shard.state_of(word) {
        Ok(state) => state_status(&state),
        Err(_) => Status::Refused(Refusal::OutOfMemory),
    }
}

fn journal_state_of(shard: &OwnShard, word: Word) -> Status
    ensures legal { IsLegalJournal shard.now.journal }
    ensures state { IsStatus (journal_state shard.now.journal word) (number_of result) }
{
    let _journal = shard.journal();
    match shard.state_of(word) {
        Ok(state) => state_status(&state),
        Err(_) => Status::Refused(Refusal::OutOfMemory),
    }
}

fn state_status(state: &WordState) -> Status
    ensures { result ≡ status_of_state state.now }
{
    match state {
        WordState::Virgin => Status::Virgin,
        WordState::Exclusive(_) => Status::Exclusive,
        WordState::Shared(_) => Status::Shared,
        WordState::SharedModified(_) => Status::SharedModified,
    }
}

/// The words that have one of `bytes` bytes from an address on, or what a call that is given these is answered.
pub(crate) fn words_of(address: u64, bytes: u64) -> Result<WordRange, Status>
    ensures words { IfOk result (λ words. words ≡ span_of_bytes address bytes) }
    ensures ok { 0 < bytes → bytes ≤ most_bytes → ¬ IsOutsideMemory address bytes → IsOk result }
    ensures too_large { most_bytes < bytes → result ≡ Err (Status.Refused Refusal.SizeTooLarge) }
    ensures out_of_range { bytes ≤ most_bytes → IsOutsideMemory address bytes → result ≡ Err (Status.Refused Refusal.AddressOutOfRange) }
    ensures none { bytes ≡ 0 → address < 2 ^ 48 → result ≡ Err Status.Quiet }
{
    match WordRange::of_bytes(address, bytes) {
        Ok(Some(words)) => Ok(words),
        Ok(None) => Err(Status::Quiet),
        Err(why) => Err(Status::Refused(why)),
    }
}
