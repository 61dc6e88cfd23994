//! Workers that answer the steps of a list, one batch after another.
ghost use Rattle.std.specs.Prelude.{◌≡◌, ◌⊎◌, ◌<◌, ◌≤◌, ◌+◌, ◌++◌, [], ℕ, List, length, slice_index_or, IfOk, OnOk, IfErr, IsTrue, MatchOption};
ghost use Rattle.er_event.specs.declared.steps.Step.{Step as Steps};
ghost use Rattle.er_parallel.specs.Crews.{AreNoted, AreUnusual, HasFollowed, HaveAnswered};
ghost use Rattle.er_parallel.specs.Faults.{MayFail};
ghost use Rattle.er_parallel.specs.Inner.Crewing.{AreFresh};
ghost use Rattle.er_parallel.specs.Inner.Faults.{IsFaultOf, IsLeastFault, IsLesser, NoFaultBelow};
ghost use Rattle.er_parallel.specs.Inner.Merging.{AreApart, AreMerged, IsLeastHead, IsLesserHead, IsTaken, NoHeadBelow, machines_of};
ghost use Rattle.er_parallel.specs.Inner.Taking.{HasTaken};
ghost use Rattle.er_parallel.specs.declared.worker.Worker.{Worker as Workers};
ghost use Rattle.er_replay.specs.Standing.{Stands};

use crate::worker::{Fresh, Share, WorkFault, Worker};
use crate::{ReplayConfig, ReplayFault, Unusual};
use er_event::Step;
use er_gate::Gate;
use std::alloc::{AllocError, Global};
use std::marker::Model;
use std::sync::Wait;
use std::thread;
use std::thread::{PromisedHandle, Threads};

/// Workers that answer the steps of a list, one batch after another.
#[derive(Drop)]
pub struct Crew {
    alloc: Global,
    shards: u32,
    workers: Vec<Worker>,
}

impl Model for Crew {
    ghost use Rattle.std.specs.Prelude.{◌≤◌, map, length};
    ghost use Rattle.er_parallel.specs.Crews.{Crewed};
    ghost use Rattle.er_parallel.specs.Limits.{IsShardCount};

    ghost Value = { Crewed };

    ghost view = { λ c. record { shards = c.shards; machines = map (λ w. w.machine) c.workers.items } };

    ghost invariant = { λ c. IsShardCount c.shards × (1 ≤ length c.workers.items) × (length c.workers.items ≤ 16) };
}

impl Crew {
    /// Workers that have answered no step, 1 to 16, each with a machine and sets of locks of its own. The words are in shards by their pages, and worker
    /// `w` answers the steps of the shards whose number is `w` modulo the number of workers.
    ///
    /// Each machine is made by a thread of its worker's. The fault is `WorkerNotStarted` if a thread for one of them can't be started,
    /// and `Memory` if there is no memory.
    pub fn new<R: Threads + Wait + Sync>(
        rt: &R,
        alloc: Global,
        config: ReplayConfig,
        workers: u32,
    ) -> Result<Crew, ReplayFault>
        requires { (1 ≤ workers) × (workers ≤ 16) }
        ensures none { IfOk result (λ crew. HaveAnswered crew []) }
        ensures fault { IfErr result (λ why. (why ≡ ReplayFault.Memory) ⊎ (why ≡ ReplayFault.WorkerNotStarted)) }
    {
        let workers = start(rt, alloc, config, workers)?;
        Ok(Crew {
            alloc,
            shards: config.shards,
            workers,
        })
    }

    /// Answers the next steps and returns those whose answers aren't the usual ones, by rising position. Every other step of the batch
    /// has its usual answer. With `noting` the steps that are returned include each access that changed its word's state. Each worker
    /// has a thread of its own if one can be started. Otherwise the workers of a thread go one after another. A worker first enters the
    /// gate of each of its shards, by rising number.
    ///
    /// Each worker stops at the first step that finds no room. The fault is then that of the least shard whose step found none,
    /// `TableFull` or `Memory`. `Memory` also comes if the list of answers finds none. After a fault the workers may have answered
    /// different parts of the batch.
    pub fn take<R: Threads + Wait + Sync, G: Gate>(
        &mut self,
        rt: &R,
        steps: &[Step],
        noting: bool,
        gate: &G,
    ) -> Result<Vec<Unusual>, ReplayFault>
        ensures count { length self.new.machines ≡ length self.old.machines }
        ensures goes_on { (past : List Steps) → HaveAnswered self.old past → OnOk result (HaveAnswered self.new (past ++ steps.now)) }
        ensures answers { (past : List Steps) → HaveAnswered self.old past → IfOk result (λ unusual. AreUnusual past steps.now unusual.items) }
        ensures noted { (past : List Steps) → HaveAnswered self.old past → IsTrue noting → IfOk result (λ unusual. AreNoted past steps.now unusual.items) }

        // The table is full only if some step, as the list stands before it, asks for a set. No worker is lost.
        ensures fault { (past : List Steps) → HaveAnswered self.old past → IfErr result (λ why. MayFail (past ++ steps.now) why) }
    {
        let workers = self.workers.as_mut_slice();
        answer_each(rt, self.alloc, self.shards, workers, steps, noting, gate);
        merge(self.alloc, workers)
    }
}

// Workers that have answered no step. A thread of each makes it. All threads that were started are joined.
fn start<R: Threads + Wait + Sync>(
    rt: &R,
    alloc: Global,
    config: ReplayConfig,
    workers: u32,
) -> Result<Vec<Worker>, ReplayFault>
    requires { (1 ≤ workers) × (workers ≤ 16) }
    ensures count { IfOk result (λ all. length all.items ≡ workers) }
    ensures fresh { IfOk result (λ all. AreFresh all.items) }
    ensures fault { IfErr result (λ why. (why ≡ ReplayFault.Memory) ⊎ (why ≡ ReplayFault.WorkerNotStarted)) }
{
    thread::scope(
        thread::scope_env(),
        rt,
        |scope| -> Result<Vec<Worker>, ReplayFault>
            requires { (1 ≤ workers) × (workers ≤ 16) }
            ensures count { IfOk result (λ all. length all.items ≡ workers) }
            ensures fresh { IfOk result (λ all. AreFresh all.items) }
            ensures fault { IfErr result (λ why. (why ≡ ReplayFault.Memory) ⊎ (why ≡ ReplayFault.WorkerNotStarted)) }
        {
            let mut handles = Vec::with_capacity(alloc, workers as usize)?;
            for _ in 0..workers {
                let started = scope.spawn_with(
                    Fresh,
                    move || -> Result<Worker, AllocError>
                        ensures { IfOk result (λ worker. Stands worker.machine []) }
                    { Worker::new(alloc, config) },
                );
                match started {
                    Ok(handle) => handles.push_reserved(handle),
                    Err(refused) => {
                        drop(refused);
                        // Those that were started are waited for all the same.
                        drop(join_all(rt, alloc, handles));
                        return Err(ReplayFault::WorkerNotStarted);
                    }
                }
            }
            Ok(join_all(rt, alloc, handles)?)
        },
    )
}

// Joins all threads that make workers, also if one of them has found no memory.
fn join_all<R: Threads>(
    rt: &R,
    alloc: Global,
    handles: Vec<PromisedHandle<Result<Worker, AllocError>, Fresh>>,
) -> Result<Vec<Worker>, AllocError>
    ensures count { IfOk result (λ all. length all.items ≡ length handles.items) }
    ensures fresh { IfOk result (λ all. AreFresh all.items) }
{
    let mut all = Vec::new(alloc);
    let mut lacking = false;
    for handle in handles {
        if !add(&mut all, handle.join(rt)) {
            lacking = true;
        }
    }
    if lacking { Err(AllocError) } else { Ok(all) }
}

// Adds a worker that was made, and says whether it is there.
fn add(all: &mut Vec<Worker>, made: Result<Worker, AllocError>) -> bool
    requires { IfOk made (λ worker. Stands worker.machine []) }
    ensures fresh { AreFresh all.old.items → AreFresh all.new.items }
    ensures count { IsTrue result → length all.new.items ≡ length all.old.items + 1 }
{
    match made {
        Ok(worker) => all.push(worker).is_ok(),
        Err(_) => false,
    }
}

// Each worker answers its steps of the batch, in a thread of its own if one can be started.
fn answer_each<R: Threads + Wait + Sync, G: Gate>(
    rt: &R,
    alloc: Global,
    shards: u32,
    workers: &mut [Worker],
    steps: &[Step],
    noting: bool,
    gate: &G,
)
    requires { (1 ≤ shards) × (shards ≤ 64) × (1 ≤ length workers.old) × (length workers.old ≤ 16) }
    ensures count { length workers.new ≡ length workers.old }
    ensures taken { (past : List Steps) (i : ℕ) (d : Workers) → i < length workers.old → HasFollowed shards (length workers.old) i past (slice_index_or workers.old i d).machine
        → HasTaken past steps.now (record { shards = shards; worker = i; workers = length workers.old; noting = noting }) (slice_index_or workers.new i d) }
{
    let count = workers.len();
    thread::for_each_mut(
        rt,
        workers,
        count,
        &|at: usize, worker: &mut Worker|
            requires { (1 ≤ shards) × (shards ≤ 64) × (at < count) × (count ≤ 16) }
            ensures { (past : List Steps) → HasFollowed shards count at past worker.entry.now.machine → HasTaken past steps.entry.now (record { shards = shards; worker = at; workers = count; noting = noting }) worker.exit.now }
        {
            let share = Share {
                shards,
                worker: at as u32,
                workers: count as u32,
                noting,
            };
            for shard in 0..shards {
                if shard % share.workers == share.worker {
                    gate.enter(shard);
                }
            }
            worker.take(alloc, steps, share);
        },
    );
}

// Takes the items that the workers have found out of them, by rising position. The fault is that of the least shard that has one.
fn merge(alloc: Global, workers: &mut [Worker]) -> Result<Vec<Unusual>, ReplayFault>
    ensures machines { machines_of workers.new ≡ machines_of workers.old }
    ensures merged { AreApart workers.old → IfOk result (λ items. AreMerged workers.old workers.new items.items) }
    ensures none_left { IfOk result (λ items. NoHeadBelow (length workers.new) workers.new) }
    ensures none_fails { IfOk result (λ items. NoFaultBelow (length workers.old) workers.old) }
    ensures fault { IfErr result (λ given. IsFaultOf workers.old given) }
{
    if let Some(fault) = least_fault(workers) {
        return Err(ReplayFault::from(fault.cause));
    }
    let mut items = Vec::new(alloc);
    while let Some(item) = take_least(workers) {
        if items.push(item).is_err() {
            return Err(ReplayFault::Memory);
        }
    }
    Ok(items)
}

// The fault of the least shard that has one. Of two faults of one shard it is the later worker's.
fn least_fault(workers: &[Worker]) -> Option<WorkFault>
    ensures { MatchOption result (NoFaultBelow (length workers.now) workers.now) (λ fault. IsLeastFault (length workers.now) workers.now fault) }
{
    let mut least = None;
    for worker in workers {
        if let Some(fault) = worker.fault {
            least = Some(lesser(least, fault));
        }
    }
    least
}

// The fault of the lesser shard, and of two faults of one shard the other.
fn lesser(known: Option<WorkFault>, other: WorkFault) -> WorkFault
    ensures { IsLesser known other result }
{
    match known {
        Some(known) if known.shard < other.shard => known,
        _ => other,
    }
}

// Takes the first item of the worker whose first item has the least position.
fn take_least(workers: &mut [Worker]) -> Option<Unusual>
    ensures { MatchOption result ((workers.new ≡ workers.old) × NoHeadBelow (length workers.old) workers.old) (λ item. IsTaken workers.old item workers.new) }
{
    let index = least_head(workers)?;
    workers[index].found.pop_front()
}

// The worker whose first item has the least position, if a worker has an item.
fn least_head(workers: &[Worker]) -> Option<usize>
    ensures { MatchOption result (NoHeadBelow (length workers.now) workers.now) (λ index. (at : ℕ) × IsLeastHead (length workers.now) workers.now index at) }
{
    let mut least = None;
    for (index, worker) in workers.iter().enumerate() {
        if let Some(head) = worker.found.front() {
            least = Some(lesser_head(least, index, head.at));
        }
    }
    match least {
        Some((index, _)) => Some(index),
        None => None,
    }
}

// The known head, unless this one's position is before it.
fn lesser_head(known: Option<(usize, usize)>, index: usize, at: usize) -> (usize, usize)
    ensures { IsLesserHead known (index, at) result }
{
    match known {
        Some((least, least_at)) if least_at <= at => (least, least_at),
        _ => (index, at),
    }
}
