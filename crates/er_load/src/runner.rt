//! What one thread of a workload does in one stage: its script, and the calls that make it at a detector.
ghost use Rattle.std.specs.Prelude.{◌≡◌, ◌<◌, IsTrue, IfOk, IfErr, OnOk, ◌+◌, ◌*◌, ◌≤◌, ◌++◌, ◌^◌};
ghost use Rattle.er_load.specs.Faults.{may_meet};
ghost use Rattle.er_load.specs.Inner.Accepted.{accepts};
ghost use Rattle.er_load.specs.Inner.Progress.{HasMade, IsSeatAt, done_before, done_after};
ghost use Rattle.er_load.specs.Inner.Scripts.{events_by, events_in_all};
ghost use Rattle.er_load.specs.Workloads.{thread_count, each_word, times, locked, page, page_events, count_events, ignored_events, table_events, stage_events};
ghost use Rattle.er_seat.specs.Seats.{holdings_of};

use crate::workloads::{Stage, Task, Workload};
use er_detector::{Detector, Gate};
use er_event::{Kind, LockId, Mode, Refusal, Site, Word, WordRange};
use er_seat::Seat;
use std::alloc::{AllocError, Global};
use std::sync::Wait;

/// A seat that has made the calls of a task, or why a call was refused.
pub(crate) type Answer = Result<Seat, Refusal>;

type Made = Result<(), Refusal>;

type Put = Result<(), AllocError>;

/// Runs a thread's task at a detector. It is a trait and not a closure, because the prover knows nothing of a closure whose captured
/// value itself holds a borrow, as a `Detector` borrows its table.
pub(crate) trait Runner: Sync {
    /// The seat, once it has made the calls of the task.
    fn run_task<R: Wait>(&self, rt: &R, alloc: Global, task: Task, seat: Seat) -> Answer
        requires number { task.thread < thread_count task.workload }
        requires before { IsSeatAt task.thread (done_before task.workload task.stage task.thread) seat }
        ensures seat { IfOk result (λ seat. IsSeatAt task.thread (done_after task.workload task.stage task.thread) seat) }
        ensures refusals { IfErr result (λ why. IsTrue (may_meet why)) };
}

/// A detector, and the gate that each thread passes before its first call.
#[derive(Clone, Copy)]
pub(crate) struct DetectorRunner<'a, 't, G: Gate> {
    pub(crate) detector: &'a Detector<'t>,
    pub(crate) gate: &'a G,
}

impl<'a, 't, G: Gate> Runner for DetectorRunner<'a, 't, G> {
    fn run_task<R: Wait>(&self, rt: &R, alloc: Global, task: Task, mut seat: Seat) -> Answer {
        let mut script = Vec::new(alloc);
        add_task(&mut script, task)?;
        if seat.calls().is_empty() && !script.is_empty() {
            self.gate.enter(seat.thread().number());
        }
        run_script(rt, self.detector, &mut seat, script.as_slice())?;
        Ok(seat)
    }
}

// Makes the calls of a script, in order.
fn run_script<R: Wait>(rt: &R, detector: &Detector<'_>, seat: &mut Seat, script: &[Action]) -> Made
    requires { IsTrue (accepts (holdings_of seat.old) (events_in_all script.now)) }
    ensures made { OnOk result (HasMade seat.old seat.new (events_in_all script.now)) }
    ensures refusals { IfErr result (λ why. IsTrue (may_meet why)) }
{
    for action in script {
        make_calls(rt, detector, seat, *action)?;
    }
    Ok(())
}

// Makes the call of one action.
fn make_calls<R: Wait>(rt: &R, detector: &Detector<'_>, seat: &mut Seat, action: Action) -> Made
    requires { IsTrue (accepts (holdings_of seat.old) (events_by action)) }
    ensures made { OnOk result (HasMade seat.old seat.new (events_by action)) }
    ensures refusals { IfErr result (λ why. IsTrue (may_meet why)) }
{
    let lock = LockId::new(1);
    match action {
        Action::Acquire(mode) => seat.acquire(lock, mode),
        Action::Release(mode) => seat.release(lock, mode),
        Action::Access(kind, word) => {
            detector.access(rt, seat, word, kind, Site::MISSING)?;
            Ok(())
        }
        Action::Reuse(range) => detector
            .reuse(rt, seat, &range)
            .map_err(|stopped| stopped.cause),
        Action::IgnoreOn => seat.ignore_on(),
        Action::IgnoreOff => seat.ignore_off(),
    }
}

/// One or more calls of one seat. The lock is lock 1, and no site is given.
#[derive(Clone, Copy)]
enum Action {
    /// Takes the lock.
    Acquire(Mode),
    /// Gives the lock up.
    Release(Mode),
    /// Reads or writes a word.
    Access(Kind, Word),
    /// Puts words to a new use.
    Reuse(WordRange),
    /// Opens an ignore bracket.
    IgnoreOn,
    /// Closes it.
    IgnoreOff,
}

// The word that is shared, and the first one of several.
const SHARED: u64 = 0x400;

#[tactic(auto, unfolding(crate::specs::Workloads::stage_events, crate::specs::Inner::Scripts::events_in_all))]
fn add_task(script: &mut Vec<Action>, task: Task) -> Put
    requires { task.thread < thread_count task.workload }
    ensures { OnOk result (events_in_all script.new.items ≡ events_in_all script.old.items ++ stage_events task.workload task.stage task.thread) }
{
    let number = u64::from(task.thread.number());
    match (task.stage, task.workload, number) {
        (Stage::First, Workload::LockedCounter, _) => add_rounds(script, &locked_count(), 100),
        (Stage::First, Workload::RacyCounter, _) => add_rounds(script, &[at(Kind::Write, 0)], 2),
        (Stage::First, Workload::InitThenRead, 0) => add_words(script, Kind::Write, SHARED, 16),
        (Stage::Second, Workload::InitThenRead, 1..) => add_words(script, Kind::Read, SHARED, 16),
        (Stage::First, Workload::RwTable, _) => add_rounds(script, &table_round(number), 10),
        (Stage::First, Workload::ReusePool, _) => add_page(script, 1 + number),
        (Stage::Second, Workload::ReusePool, _) => add_page(script, 2 - number),
        (Stage::First, Workload::IgnoredStats, _) => add_ignored(script),
        _ => Ok(()),
    }
}

// An access to one of the first words.
fn at(kind: Kind, place: u64) -> Action
    requires { place < 1024 }
    ensures { result ≡ Action.Access kind (1024 + place) }
{
    Action::Access(kind, Word::new(SHARED + place))
}

// A word read and written under the lock.
#[tactic(auto, unfolding(crate::specs::Inner::Scripts::events_in_all))]
fn locked_count() -> [Action; 4]
    ensures { events_in_all result ≡ locked Mode.Write count_events }
{
    let (read, write) = (at(Kind::Read, 0), at(Kind::Write, 0));
    let (take, give) = (Action::Acquire(Mode::Write), Action::Release(Mode::Write));
    [take, read, write, give]
}

// One round at a table, which the first thread writes and the others read.
#[tactic(auto, unfolding(crate::specs::Inner::Scripts::events_in_all, crate::specs::Workloads::each_word))]
fn table_round(thread: u64) -> [Action; 6]
    ensures { events_in_all result ≡ table_events thread }
{
    let (mode, kind) = match thread {
        0 => (Mode::Write, Kind::Write),
        _ => (Mode::Read, Kind::Read),
    };
    [
        Action::Acquire(mode),
        at(kind, 0),
        at(kind, 1),
        at(kind, 2),
        at(kind, 3),
        Action::Release(mode),
    ]
}

// Adds counts of a word in an ignore bracket.
#[tactic(auto, unfolding(crate::specs::Inner::Scripts::events_in_all))]
fn add_ignored(script: &mut Vec<Action>) -> Put
    ensures { OnOk result (events_in_all script.new.items ≡ events_in_all script.old.items ++ ignored_events) }
{
    script.push(Action::IgnoreOn)?;
    add_rounds(script, &[at(Kind::Read, 0), at(Kind::Write, 0)], 10)?;
    script.push(Action::IgnoreOff)?;
    Ok(())
}

// Adds writes of a page's first words, and the page's reuse.
fn add_page(script: &mut Vec<Action>, number: u64) -> Put
    requires { number ≤ 2 }
    ensures { OnOk result (events_in_all script.new.items ≡ events_in_all script.old.items ++ page_events number) }
{
    add_words(script, Kind::Write, Word::PER_PAGE * number, 8)?;
    script.push(Action::Reuse(whole_page(number)))?;
    Ok(())
}

fn add_rounds(script: &mut Vec<Action>, round: &[Action], count: u32) -> Put
    ensures { OnOk result (events_in_all script.new.items ≡ events_in_all script.old.items ++ times count (events_in_all round.now)) }
{
    for _ in 0..count {
        script.extend_from_slice(round)?;
    }
    Ok(())
}

// Adds accesses to so many words, from this one on.
fn add_words(script: &mut Vec<Action>, kind: Kind, first: u64, count: u64) -> Put
    requires { first + count < 2 ^ 46 }
    ensures { OnOk result (events_in_all script.new.items ≡ events_in_all script.old.items ++ each_word kind first count) }
{
    for at in 0..count {
        script.push(Action::Access(kind, Word::new(first + at)))?;
    }
    Ok(())
}

fn whole_page(number: u64) -> WordRange
    requires { number ≤ 2 }
    ensures { result ≡ page number }
{
    let bytes = Word::BYTES * Word::PER_PAGE;
    let range: Result<_, Refusal> = WordRange::of_bytes(bytes * number, bytes);
    range.unwrap().unwrap()
}
