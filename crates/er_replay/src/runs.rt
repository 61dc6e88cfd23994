//! The run of a list of steps.
ghost use Rattle.std.specs.Prelude.{◌≡◌, ◌<◌, ◌++◌, ◌∷◌, [], List, length, slice_set, MatchOption, IsFalse, IfErr, IfSome, OnOk, OnErr, Err};
ghost use Rattle.er_event.specs.Refusal.{refusal_of};
ghost use Rattle.er_event.specs.declared.steps.Step.{Step as Steps};
ghost use Rattle.er_model.specs.Answers.{answer_next};
ghost use Rattle.er_model.specs.Runs.{answers_after};
ghost use Rattle.er_replay.specs.Standing.{Stands, found_no_room};
ghost use Rattle.er_journal.specs.Stops.{answered_steps};
ghost use Rattle.er_replay.specs.Stops.{MayLack, MayStop};

use crate::Machine;
use er_event::{NoRoom, Refusal, Reply, Step};
use er_journal::{Answers, Outcome, Stopped};
use std::alloc::Global;
use std::sync::Wait;

/// Takes the steps of a list in turn, up to the first that finds no room. The room for the whole list of answers is taken
/// first, and where there is none the run stops at place 0. An empty list takes no memory.
pub fn run<R: Wait>(rt: &R, alloc: Global, machine: &mut Machine<'_>, steps: &[Step]) -> Outcome
    ensures answers { (past : List Steps) → Stands machine.old past → result.answers ≡ answers_after past (answered_steps steps.now result.stopped) }
    ensures goes_on { (past : List Steps) → Stands machine.old past → Stands machine.new (past ++ answered_steps steps.now result.stopped) }
    ensures within { IfSome result.stopped (λ stopped. stopped.at < length steps.now) }
    ensures cause { (past : List Steps) → Stands machine.old past → IfSome result.stopped (λ stopped. MayStop past steps.now stopped) }
{
    if steps.is_empty() {
        return Outcome {
            answers: Answers::new(alloc),
            stopped: None,
        };
    }
    let Ok(mut answers) = Answers::of_len(alloc, steps.len()) else {
        return Outcome {
            answers: Answers::new(alloc),
            stopped: Some(Stopped {
                at: 0,
                cause: NoRoom::OutOfMemory,
            }),
        };
    };
    for (at, step) in steps.iter().enumerate() {
        if let Err(cause) = take_step(rt, machine, *step, &mut answers, at) {
            answers.truncate(at);
            return Outcome {
                answers,
                stopped: Some(Stopped {
                    at: at as u64,
                    cause,
                }),
            };
        }
    }
    Outcome {
        answers,
        stopped: None,
    }
}

// Takes one step and puts its answer in its place.
fn take_step<R: Wait>(
    rt: &R,
    machine: &mut Machine<'_>,
    step: Step,
    answers: &mut Answers,
    at: usize,
) -> Result<(), NoRoom>
    requires { at < length answers.old }
    ensures answer { OnOk result ((past : List Steps) → Stands machine.old past → answers.new ≡ slice_set answers.old at (answer_next past step)) }
    ensures goes_on { OnOk result ((past : List Steps) → Stands machine.old past → Stands machine.new (past ++ step ∷ [])) }
    ensures stays { OnErr result ((past : List Steps) → Stands machine.old past → Stands machine.new past) }
    ensures err { OnErr result (answers.new ≡ answers.old) }
    ensures lacks { (past : List Steps) → Stands machine.old past → IfErr result (λ cause. MayLack past step cause) }
    ensures length { length answers.new ≡ length answers.old }
{
    let answer = machine.step(rt, step);
    if let Some(cause) = no_room(&answer) {
        return Err(cause);
    }
    answers.set(at, answer)?;
    Ok(())
}

/// What had no room, if the answer is that something had none.
pub fn no_room(answer: &Result<Reply, Refusal>) -> Option<NoRoom>
    ensures { MatchOption result (IsFalse (found_no_room answer.now)) (λ cause. answer.now ≡ Err (refusal_of cause)) }
{
    match answer {
        Err(Refusal::JournalFull) => Some(NoRoom::JournalFull),
        Err(Refusal::TableFull) => Some(NoRoom::TableFull),
        Err(Refusal::OutOfMemory) => Some(NoRoom::OutOfMemory),
        _ => None,
    }
}
