//! A whole workload: its detector, its seats, its stages, and the run that they make.
ghost use Rattle.std.specs.Prelude.{◌≡◌, ◌≤◌, [], ℕ, IfOk, IfErr, OnOk, Ok, Some, length, slice_get, vec_len, ◌<◌, ◌⊎◌, map, IsTrue, vec_capacity};
ghost use Rattle.er_event.specs.declared.steps.Step.{Step as StepShown};
ghost use Rattle.er_model.specs.Answers.{answer};
ghost use Rattle.er_model.specs.Locality.{events_of};
ghost use Rattle.er_journal.specs.Merges.{reply_at};
ghost use Rattle.er_load.specs.declared.workloads.Workload.{Workload as WorkloadShown};
ghost use Rattle.er_load.specs.Faults.{MayFail, may_meet};
ghost use Rattle.er_load.specs.Inner.Progress.{detector_name, AreSeatsAt, done_before, done_after, IsSeatAt, AreWorkers, AreAnswersAt, AreMet, first_refusal};
ghost use Rattle.er_load.specs.Workloads.{workload_events, step_count, thread_count};
ghost use Rattle.er_load.specs.declared.workloads.Stage.{Stage as StageShown};

use crate::runner::{Answer, DetectorRunner, Runner};
use crate::workloads::{Stage, Task};
use crate::{LoadFault, Workload};
use er_detector::{Config, Detector, Gate, Run, Unsettled, settle};
use er_event::Refusal;
use er_seat::Seat;
use er_table::LocksetTable;
use std::alloc::Global;
use std::sync::Wait;
use std::thread;
use std::thread::{Promise, PromisedHandle, Threads};

type Opened = Result<(), LoadFault>;

// How many sets of locks a workload's table takes.
const MAX_SETS: u32 = 1024;

/// Runs a workload, each of its threads on a thread of its own, and settles it. Each passes the gate under its number before its first call.
/// If several threads of a stage are refused, the fault has the refusal of the one with the least number, unless memory is refused after that.
/// If the seats that are opened aren't numbered 0, 1 and so on, the fault is `Unsettled(SeatMissing)`.
pub fn run_workload<G: Gate, R: Threads + Wait + Sync>(
    rt: &R,
    alloc: Global,
    workload: Workload,
    gate: &G,
) -> Result<Run, LoadFault>
    ensures events { IfOk result (λ run. (t : ℕ) → events_of run.steps.items t (length run.steps.items) ≡ workload_events workload t) }
    ensures count { IfOk result (λ run. vec_len run.steps ≡ step_count workload) }
    ensures replies { IfOk result (λ run. (k : ℕ) (step : StepShown) → slice_get run.steps.items k ≡ Some step → answer run.steps.items k ≡ Ok (reply_at run.replies.items k)) }
    ensures faults { IfErr result MayFail }
{
    let table = LocksetTable::new(alloc, MAX_SETS)?;
    let detector = Detector::new(alloc, &table, config())?;
    let seats = run_stages(rt, alloc, &detector, workload, gate)?;
    match settle(alloc, detector, seats) {
        Ok(run) => Ok(run),
        Err(fault) => Err(LoadFault::Unsettled(fault)),
    }
}

// The detector that a workload calls: it has a seat for each thread, and a journal that takes an entry for every step.
fn config() -> Config
    ensures name { result.name ≡ detector_name }
    ensures seats { (workload : WorkloadShown) → thread_count workload ≤ result.max_threads }
    ensures entries { (workload : WorkloadShown) → step_count workload ≤ result.journal_limit }
{
    let config: Option<_> = Config::new(1, 8, 1024, 3);
    config.unwrap()
}

fn run_stages<G: Gate, R: Threads + Wait + Sync>(
    rt: &R,
    alloc: Global,
    detector: &Detector<'_>,
    workload: Workload,
    gate: &G,
) -> Result<Vec<Seat>, LoadFault>
    requires { detector.now.name ≡ detector_name }
    ensures count { IfOk result (λ seats. vec_len seats ≡ thread_count workload) }
    ensures seats { IfOk result (λ seats. AreSeatsAt (done_after workload Stage.Second) seats.items) }
    ensures faults { IfErr result MayFail }
{
    let runner = DetectorRunner { detector, gate };
    let mut seats = Vec::new(alloc);
    open_seats(detector, workload, &mut seats)?;
    let seats = run_stage(rt, alloc, &runner, workload, Stage::First, seats)?;
    run_stage(rt, alloc, &runner, workload, Stage::Second, seats)
}

// Opens a seat for each thread, by its number, and puts them into an empty list.
fn open_seats(detector: &Detector<'_>, workload: Workload, seats: &mut Vec<Seat>) -> Opened
    requires name { detector.now.name ≡ detector_name }
    requires empty { seats.old.items ≡ [] }
    ensures count { OnOk result (vec_len seats.new ≡ thread_count workload) }
    ensures seats { OnOk result (AreSeatsAt (done_before workload Stage.First) seats.new.items) }
    ensures faults { IfErr result MayFail }
{
    for number in 0..workload.threads() {
        let seat = detector.open_seat()?;
        if seat.thread().number() != number {
            return Err(LoadFault::Unsettled(Unsettled::SeatMissing));
        }
        let Ok(()) = seats.push(seat) else {
            return Err(LoadFault::Refused(Refusal::OutOfMemory));
        };
    }
    Ok(())
}

// What a thread promises: its seat, which is done with the task, or a refusal that no definition gives.
impl Promise<Result<Seat, Refusal>> for Task {
    ghost use Rattle.std.specs.Prelude.{IsTrue, IfOk, IfErr};
    ghost use Rattle.er_load.specs.Faults.{may_meet};
    ghost use Rattle.er_load.specs.Inner.Progress.{IsSeatAt, done_after};

    ghost kept_by = { λ p r. IfOk r (λ seat. IsSeatAt p.thread (done_after p.workload p.stage p.thread) seat) × IfErr r (λ why. IsTrue (may_meet why)) };
}

// The thread that runs a seat's task.
#[derive(Drop)]
struct Worker {
    handle: PromisedHandle<Result<Seat, Refusal>, Task>,
}

// Runs one stage of a workload, each task on a thread of its own. All threads are joined, whatever they answer.
fn run_stage<P: Runner, R: Threads + Wait + Sync>(
    rt: &R,
    alloc: Global,
    runner: &P,
    workload: Workload,
    stage: Stage,
    seats: Vec<Seat>,
) -> Result<Vec<Seat>, LoadFault>
    requires count { vec_len seats ≡ thread_count workload }
    requires before { AreSeatsAt (done_before workload stage) seats.items }
    ensures count { IfOk result (λ after. vec_len after ≡ thread_count workload) }
    ensures after { IfOk result (λ after. AreSeatsAt (done_after workload stage) after.items) }
    ensures faults { IfErr result MayFail }
{
    thread::scope(
        thread::scope_env(),
        rt,
        |scope| -> Result<Vec<Seat>, LoadFault>
            requires { (vec_len seats ≡ thread_count workload) × AreSeatsAt (done_before workload stage) seats.items }
            ensures count { IfOk result (λ after. vec_len after ≡ thread_count workload) }
            ensures after { IfOk result (λ after. AreSeatsAt (done_after workload stage) after.items) }
            ensures faults { IfErr result MayFail }
        {
            let room = Vec::with_capacity(alloc, seats.len())?;
            let mut workers = Vec::with_capacity(alloc, seats.len())?;
            for seat in seats {
                let task = Task {
                    workload,
                    stage,
                    thread: seat.thread(),
                };
                let started = scope.spawn_with(
                    task,
                    move || -> Result<Seat, Refusal>
                        requires { (task.thread < thread_count task.workload) × IsSeatAt task.thread (done_before task.workload task.stage task.thread) seat }
                        ensures { IfOk result (λ seat. IsSeatAt task.thread (done_after task.workload task.stage task.thread) seat) × IfErr result (λ why. IsTrue (may_meet why)) }
                    { runner.run_task(rt, alloc, task, seat) },
                );
                let Ok(handle) = started else {
                    // Those that were started are waited for all the same.
                    drop(join_all(rt, workers, room));
                    return Err(LoadFault::WorkerNotStarted);
                };
                workers.push_reserved(Worker { handle });
            }
            let answers = join_all(rt, workers, room);
            Ok(all_seats(alloc, answers)?)
        },
    )
}

// What all workers answer, in their order, put into a list that has the room. All are joined.
fn join_all<R: Threads>(rt: &R, workers: Vec<Worker>, mut answers: Vec<Answer>) -> Vec<Answer>
    requires empty { answers.items ≡ [] }
    requires room { vec_len workers ≤ vec_capacity answers }
    ensures count { vec_len result ≡ vec_len workers }
    ensures answers { (workload : WorkloadShown) (stage : StageShown) → AreWorkers workload stage workers.items → AreAnswersAt (done_after workload stage) result.items }
    ensures refusals { AreMet result.items }
{
    for worker in workers {
        answers.push_reserved(worker.handle.join(rt));
    }
    answers
}

// The seats of all workers, or the first refusal among their answers.
fn all_seats(alloc: Global, answers: Vec<Answer>) -> Result<Vec<Seat>, Refusal>
    ensures seats { IfOk result (λ seats. answers.items ≡ map Ok seats.items) }
    ensures first { IfErr result (λ why. (why ≡ Refusal.OutOfMemory) ⊎ (first_refusal answers.items ≡ Some why)) }
{
    let mut seats = Vec::with_capacity(alloc, answers.len())?;
    for answer in answers {
        seats.push_reserved(answer?);
    }
    Ok(seats)
}
