//! The replay of a list of steps by several workers.
ghost use Rattle.std.specs.Prelude.{◌≡◌, ◌≤◌, [], IfOk, IsErrOf, None};
ghost use Rattle.er_model.specs.Answers.{answers};
ghost use Rattle.er_parallel.specs.Crews.{AreUnusual};
ghost use Rattle.er_parallel.specs.Faults.{AsksForSet};
ghost use Rattle.er_parallel.specs.Usual.{usual_answers};

use crate::worker::usual_answer;
use crate::{Crew, ReplayConfig, ReplayFault, Unusual};
use er_event::Step;
use er_gate::Gate;
use er_journal::{Answers, Outcome};
use std::alloc::{AllocError, Global};
use std::sync::Wait;
use std::thread::Threads;

/// Answers a list of steps by this number of workers, 1 to 16, as one batch of a [`Crew`] of its own. A worker first enters
/// the gate under the number of each of its shards, by rising number, also if no step is in the shard. Then it goes once over the whole
/// list, since it needs the locks of every thread.
///
/// If a thread can't be started to make a worker's machine, the fault is `WorkerNotStarted`; one that can't be started later has its part
/// done by the caller. Otherwise each worker stops at the first step, in the order of the
/// list, that finds no room: one that it answers, or one whose locks, bracket or level it follows. The fault is then that of the least
/// shard whose step found none, `TableFull` or `Memory`. `Memory` also comes if the list of answers finds none. `TableFull` comes only
/// if some step needs a set of locks, so never for a list on which each word has one thread.
///
/// The clauses below don't say which worker's fault it is, since a caller never sees the workers: the clause `fault` of `merge` in `crew.rt`
/// does.
pub fn replay_parallel<G: Gate, R: Threads + Wait + Sync>(
    rt: &R,
    alloc: Global,
    config: ReplayConfig,
    steps: &[Step],
    workers: u32,
    gate: &G,
) -> Result<Outcome, ReplayFault>
    requires { (1 ≤ workers) × (workers ≤ 16) }
    ensures stopped { IfOk result (λ outcome. outcome.stopped ≡ None) }
    ensures answers { IfOk result (λ outcome. outcome.answers ≡ answers steps.now) }

    // The table is full only if some step, as the list stands before it, asks for a set. No worker that was started is lost.
    ensures table_full { IsErrOf result ReplayFault.TableFull → AsksForSet steps.now }
    ensures none_lost { ¬ IsErrOf result ReplayFault.WorkerLost }
{
    let mut crew = Crew::new(rt, alloc, config, workers)?;
    let unusual = crew.take(rt, steps, false, gate)?;
    drop(crew);
    Ok(Outcome {
        answers: gather(alloc, steps, unusual)?,
        stopped: None,
    })
}

// The answers to all steps of a list, of which these aren't the usual ones.
fn gather(alloc: Global, steps: &[Step], unusual: Vec<Unusual>) -> Result<Answers, AllocError>
    requires { AreUnusual [] steps.now unusual.items }
    ensures { IfOk result (λ given. given ≡ answers steps.now) }
{
    let mut given = usual_answers(alloc, steps)?;
    for item in unusual {
        let Unusual { at, answer, .. } = item;
        given.set(at, answer)?;
    }
    Ok(given)
}

// The usual answer to each step.
fn usual_answers(alloc: Global, steps: &[Step]) -> Result<Answers, AllocError>
    ensures { IfOk result (λ given. given ≡ usual_answers steps.now) }
{
    let mut given = Answers::new(alloc);
    given.reserve(steps.len())?;
    for step in steps {
        given.push(usual_answer(step))?;
    }
    Ok(given)
}
