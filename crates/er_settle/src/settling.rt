//! The one run that seats and journals make.
ghost use Rattle.std.specs.Prelude.{◌≡◌, ◌<◌, ℕ, length, slice_get, Some, Ok, IfOk, IfErr};
ghost use Rattle.er_event.specs.declared.steps.Step.{Step as StepShown};
ghost use Rattle.er_model.specs.Answers.{answer, state_end};
ghost use Rattle.er_journal.specs.Journals.{journal_state};
ghost use Rattle.er_journal.specs.Merges.{IsMerge, reply_at, shard_of};
ghost use Rattle.er_settle.specs.Seats.{calls_by};
ghost use Rattle.er_settle.specs.Faults.{IsFirst, IsSettled};
ghost use Rattle.er_settle.specs.Runs.{steps_of, replies_to, races_in, journal_at, IsInTurn};
ghost use Rattle.er_settle.specs.Inner.Checks.{AreChecked};
ghost use Rattle.er_settle.specs.Inner.EntryMatches.{AreInTurn};

use crate::call_order::{PlacedEntry, Turn, merge_calls, merge_journals};
use crate::entry_matches::{all_answered, all_in_place, all_matched, group_by_thread};
use crate::seat_checks::{Index, are_complete, are_of_detector, index_by_thread, lists_rise};
use crate::{JournalView, Made, SeatView, Unsettled};
use er_event::{Reply, Step};
use std::alloc::Global;

/// What all threads did, in one order, with what each step was answered.
#[derive(Drop)]
pub struct Run {
    /// The steps.
    pub steps: Vec<Step>,
    /// The reply to each of them.
    pub replies: Vec<Reply>,
}

impl Run {
    /// How many of its steps were answered with a race.
    pub fn races(&self) -> usize
        ensures { result ≡ races_in self.now.replies.items }
    {
        self.replies
            .iter()
            .filter(|reply| matches!(reply, Reply::Race))
            .count()
    }
}

/// Settles seats and journals: checks that they agree, and merges them. The journals are given by the places of their shards.
/// A fault other than `Memory` is the first that applies. The run has each seat's calls in their order, those with tickets by rising
/// ticket, one without a ticket directly before its seat's next call with one, and the rest at the end by seat number.
pub fn settle_lists(
    alloc: Global,
    name: u64,
    opened: u32,
    seats: &[SeatView],
    journals: &[JournalView],
) -> Result<Run, Unsettled>
    requires { 0 < length journals.now }
    ensures first { IfErr result (IsFirst name opened seats.now journals.now) }
    ensures settled { IfOk result (λ run. IsSettled name opened seats.now journals.now) }
    ensures merge { IfOk result (λ run. IsMerge (length journals.now) run.steps.items run.replies.items (calls_by seats.now) (journal_at journals.now)) }
    ensures replies { IfOk result (λ run. (k : ℕ) (step : StepShown) → slice_get run.steps.items k ≡ Some step → answer run.steps.items k ≡ Ok (reply_at run.replies.items k)) }
    ensures states { IfOk result (λ run. (w : ℕ) → journal_state (journal_at journals.now (shard_of (length journals.now) w)) w ≡ state_end run.steps.items w) }
    ensures order { IfOk result (λ run. IsInTurn seats.now run.steps.items run.replies.items) }
{
    let lists = check_all(alloc, name, opened, seats, journals)?;
    let turns = merge_calls(alloc, &lists.index, seats, lists.order.as_slice())?;
    let run = run_of(alloc, turns.as_slice())?;
    Ok(run)
}

fn run_of(alloc: Global, turns: &[Turn]) -> Made<Run>
    ensures steps { IfOk result (λ run. run.steps.items ≡ steps_of turns.now) }
    ensures replies { IfOk result (λ run. run.replies.items ≡ replies_to turns.now) }
{
    let mut steps = Vec::with_capacity(alloc, turns.len())?;
    let mut replies = Vec::with_capacity(alloc, turns.len())?;
    for turn in turns {
        steps.push(Step {
            thread: turn.thread,
            event: turn.call.event(),
        })?;
        replies.push(turn.call.reply().reply())?;
    }
    Ok(Run { steps, replies })
}

// What the checks of names, numbers and tickets find: where the seat of each thread stands, and the entries by rising ticket.
#[derive(Drop)]
struct Checked<'a> {
    index: Index,
    order: Vec<PlacedEntry<'a>>,
}

// Checks all that can be wrong. The fault is the first that applies.
fn check_all<'a>(
    alloc: Global,
    name: u64,
    opened: u32,
    seats: &[SeatView],
    journals: &[JournalView<'a>],
) -> Result<Checked<'a>, Unsettled>
    requires { 0 < length journals.now }
    ensures first { IfErr result (IsFirst name opened seats.now journals.now) }
    ensures settled { IfOk result (λ lists. IsSettled name opened seats.now journals.now) }
    ensures checked { IfOk result (λ lists. AreChecked name opened seats.now journals.now lists.index lists.order.items) }
    ensures turn { IfOk result (λ lists. AreInTurn seats.now journals.now lists.order.items) }
{
    if !are_of_detector(name, seats) {
        return Err(Unsettled::ForeignSeat);
    }
    let index = index_by_thread(alloc, seats)?;
    if !are_complete(opened, seats, &index) {
        return Err(Unsettled::SeatMissing);
    }
    if !lists_rise(seats) {
        return Err(Unsettled::Order);
    }
    let order = merge_journals(alloc, journals)?;
    let lists = Checked { index, order };
    let order = lists.order.as_slice();
    let groups = group_by_thread(alloc, &lists.index, seats, order)?;
    if !all_in_place(journals.len(), order) {
        return Err(Unsettled::Entries);
    }
    if !all_matched(seats, groups.as_slice(), order) {
        return Err(Unsettled::Entries);
    }
    let is_answered = all_answered(alloc, seats, groups.as_slice(), order)?;
    if !is_answered {
        return Err(Unsettled::Answer);
    }
    Ok(lists)
}
