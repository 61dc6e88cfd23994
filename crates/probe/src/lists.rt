//! Steps of a machine, and what a list of steps is answered by others and explained by.

use crate::Host;
use crate::work::{Fault, Found, Made, Work, World, lock_of, made, number_of, table_of};
use crate::writing::{put_answers, put_explanation, put_reply};
use er_check::check_explanation;
use er_event::{Refusal, Step};
use er_explain::{Explanation, Uncovered, explain};
use er_gate::OpenGate;
use er_journal::Outcome;
use er_load::{LoadFault, Workload, run_workload};
use er_parallel::{ReplayConfig, ReplayFault, replay_parallel};
use er_replay::{Machine, run};
use std::alloc::{AllocError, Global};
use std::fmt::Write;
use std::sync::Wait;

/// `thread M CALL`: one more step, which the machine answers. One that finds no memory isn't put into the list.
pub(crate) fn step<R: Wait>(rt: &R, world: &mut World, work: &mut Work) -> Made {
    let thread = work.thread()?;
    let event = work.event()?;
    world.steps.reserve(1)?;
    let answer = world.machine.step(rt, Step { thread, event });
    if !matches!(&answer, Err(Refusal::OutOfMemory)) {
        world.steps.push_reserved(Step { thread, event });
    }
    Ok(put_reply(&mut work.answer, answer?)?)
}

/// `run SETS`: the answers of a new machine, over a table of so many sets, up to where it stops.
pub(crate) fn replayed<R: Host>(rt: &R, steps: &[Step], work: &mut Work) -> Made {
    let table = table_of(rt.alloc(), work.count()?)?;
    let mut machine = Machine::new(rt.alloc(), &table)?;
    let outcome = run(rt, rt.alloc(), &mut machine, steps);
    made(put_outcome(&mut work.answer, outcome))
}

fn put_outcome(out: &mut String, outcome: Outcome) -> Result<(), AllocError> {
    put_answers(out, &outcome.answers)?;
    match outcome.stopped {
        Some(stopped) => write!(out, "; stopped at {}: {}", stopped.at, stopped.cause),
        None => Ok(()),
    }
}

/// `parallel SHARDS SETS WORKERS`: the same by several workers.
pub(crate) fn replayed_in_parallel<R: Host>(rt: &R, steps: &[Step], work: &mut Work) -> Made {
    let config = ReplayConfig::new(work.count()?, work.count()?).ok_or(Fault::BadRow)?;
    let workers = work.count()?;
    if workers < 1 || workers > 16 {
        return Err(Fault::BadRow);
    }
    match replay_parallel(rt, rt.alloc(), config, steps, workers, &OpenGate) {
        Ok(outcome) => made(put_outcome(&mut work.answer, outcome)),
        Err(ReplayFault::Memory) => Err(AllocError.into()),
        Err(ReplayFault::TableFull) => Err(Refusal::TableFull.into()),
        Err(ReplayFault::WorkerNotStarted) => work.say("worker not started"),
        Err(ReplayFault::WorkerLost) => Err(Fault::System),
    }
}

/// `explain K`: why step K is a race.
pub(crate) fn explained(alloc: Global, steps: &[Step], work: &mut Work) -> Made {
    let found = explain(alloc, steps, work.number()?)?;
    made(put_explanation(&mut work.answer, found.as_ref()))
}

/// `check K FIRST JOIN WRITE LOCK@PLACE ..`: whether this explains step K.
pub(crate) fn check(alloc: Global, steps: &[Step], work: &mut Work) -> Made {
    let place = work.number()?;
    let explanation = Explanation {
        first: work.number()?,
        join: work.number()?,
        write: work.number()?,
        uncovered: uncovered_of(alloc, work)?,
    };
    let is_accepted = check_explanation(alloc, steps, place, &explanation)?;
    work.say(if is_accepted { "yes" } else { "no" })
}

fn uncovered_of(alloc: Global, work: &mut Work) -> Found<Vec<Uncovered>> {
    let mut uncovered = Vec::new(alloc);
    for _ in work.left.split_whitespace() {
        let (lock, at) = work.next()?.split_once('@').ok_or(Fault::BadRow)?;
        let (lock, at) = (lock_of(lock)?, number_of(at)?);
        uncovered.push(Uncovered { lock, at })?;
    }
    Ok(uncovered)
}

/// `workload NAME`: how many steps a workload's run has, and how many races.
pub(crate) fn workload<R: Host>(rt: &R, work: &mut Work) -> Made {
    let name = work.next()?;
    let workload = Workload::ALL
        .into_iter()
        .find(|workload| workload.name() == name);
    match run_workload(rt, rt.alloc(), workload.ok_or(Fault::BadRow)?, &OpenGate) {
        Ok(run) => {
            let (steps, races) = (run.steps.len(), run.races());
            made(write!(work.answer, "steps {steps}, races {races}"))
        }
        Err(LoadFault::Refused(why)) => Err(why.into()),
        Err(LoadFault::Unsettled(why)) => work.say(why.text()),
        Err(LoadFault::WorkerNotStarted | LoadFault::WorkerLost) => Err(Fault::System),
    }
}
