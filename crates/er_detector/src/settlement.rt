//! A detector's parts and its seats, settled.
ghost use Rattle.std.specs.Prelude.{◌≡◌, ◌<◌, ◌^◌, ℕ, length, slice_get, Some, Ok, IfOk, IfErr};
ghost use Rattle.er_event.specs.declared.steps.Step.{Step as StepShown};
ghost use Rattle.er_model.specs.Answers.{answer, state_end};
ghost use Rattle.er_journal.specs.Journals.{journal_state};
ghost use Rattle.er_journal.specs.Merges.{IsMerge, reply_at, shard_of};
ghost use Rattle.er_settle.specs.Seats.{SeatList, calls_by};
ghost use Rattle.er_settle.specs.Faults.{AreOfDetector, AreDistinct, IsFirst, IsSettled};
ghost use Rattle.er_settle.specs.Runs.{journal_at, IsInTurn};
ghost use Rattle.er_detector.specs.Settlement.{journals_of, MayBeFirst};

use crate::{Detector, Parts};
use er_seat::Seat;
use er_settle::{JournalView, Run, SeatView, Unsettled, settle_lists};
use er_shard::Shard;
use std::alloc::{AllocError, Global};

/// Settles a detector's parts and its seats, as `settle_lists` of `er_settle` does with what they keep. A shard is known by its place among
/// the parts.
pub fn settle_parts(alloc: Global, parts: Parts<'_>, seats: Vec<Seat>) -> Result<Run, Unsettled>
    ensures first { IfErr result (IsFirst parts.entry.name parts.entry.opened seats.items (journals_of parts.entry.shards.items)) }
    ensures settled { IfOk result (λ run. IsSettled parts.entry.name parts.entry.opened seats.items (journals_of parts.entry.shards.items)) }
    ensures merge { IfOk result (λ run. IsMerge (length parts.entry.shards.items) run.steps.items run.replies.items (calls_by seats.items) (journal_at (journals_of parts.entry.shards.items))) }
    ensures replies { IfOk result (λ run. (k : ℕ) (step : StepShown) → slice_get run.steps.items k ≡ Some step → answer run.steps.items k ≡ Ok (reply_at run.replies.items k)) }
    ensures states { IfOk result (λ run. (w : ℕ) → journal_state (journal_at (journals_of parts.entry.shards.items) (shard_of (length parts.entry.shards.items) w)) w ≡ state_end run.steps.items w) }
    ensures order { IfOk result (λ run. IsInTurn seats.items run.steps.items run.replies.items) }
{
    let views = seat_views(alloc, seats.as_slice())?;
    let journals = journal_views(alloc, parts.shards.as_slice())?;

    // All numbers are below 2^30, so where more seats than this were opened, one is missing either way.
    let opened = parts.opened.min(u64::from(u32::MAX)) as u32;
    let (seats, journals) = (views.as_slice(), journals.as_slice());
    settle_lists(alloc, parts.name, opened, seats, journals)
}

/// Takes a detector's shards out of their locks and settles them with its seats. No caller knows what the shards held, so of a
/// fault this says what the seats show.
pub fn settle(alloc: Global, detector: Detector<'_>, seats: Vec<Seat>) -> Result<Run, Unsettled>
    ensures first { IfErr result (MayBeFirst detector.entry.name detector.entry.max_threads seats.items) }
    ensures settled { IfOk result (λ run. AreOfDetector detector.entry.name seats.items × AreDistinct seats.items) }
    ensures replies { IfOk result (λ run. (k : ℕ) (step : StepShown) → slice_get run.steps.items k ≡ Some step → answer run.steps.items k ≡ Ok (reply_at run.replies.items k)) }
    ensures order { IfOk result (λ run. IsInTurn seats.items run.steps.items run.replies.items) }
{
    let parts = detector.into_parts()?;
    settle_parts(alloc, parts, seats)
}

// The seats, to be settled. A thread's number keeps its limit, and so do those of all seats.
fn seat_views(alloc: Global, seats: &[Seat]) -> Result<Vec<SeatView<'_>>, AllocError>
    ensures views { IfOk result (λ views. views.items ≡ seats.now) }
    ensures small { IfOk result (λ views. (i : ℕ) (seat : SeatList) → slice_get seats.now i ≡ Some seat → seat.thread < 2 ^ 30) }
{
    let mut views = Vec::with_capacity(alloc, seats.len())?;
    for seat in seats {
        let thread = seat.thread();
        let number = thread.number();
        prove!(number < 1 << 30);
        views.push(SeatView::new(seat.name(), thread, seat.calls()))?;
    }
    Ok(views)
}

fn journal_views<'a>(alloc: Global, shards: &'a [Shard]) -> Result<Vec<JournalView<'a>>, AllocError>
    ensures { IfOk result (λ views. views.items ≡ journals_of shards.now) }
{
    let mut views = Vec::with_capacity(alloc, shards.len())?;
    for shard in shards {
        views.push(JournalView::new(shard.journal()))?;
    }
    Ok(views)
}
