//! A worker of a crew: it answers the steps of its shards, and follows what the other steps make of their threads' holdings.
ghost use Rattle.std.specs.Prelude.{◌≡◌, ◌<◌, ◌%◌, ◌+◌, ◌≤◌, ◌++◌, [], ℕ, false, List, drop, length, slice_get, take, IsTrue, IsFalse, IfOk, OnOk, IsErrOf, IfErr, Ok, Err, Some};
ghost use Rattle.er_event.specs.declared.steps.Step.{Step as Steps};
ghost use Rattle.er_parallel.specs.Crews.{HasFollowed};
ghost use Rattle.er_parallel.specs.Faults.{AsksForSet};
ghost use Rattle.er_parallel.specs.Inner.Faults.{MayBeFull};
ghost use Rattle.er_parallel.specs.Inner.Taking.{AreIdle, HasCome, HasDone, HasTaken, IsBusy, IsIdle, IsKept, IsOwn, IsPassed};
ghost use Rattle.er_parallel.specs.Tasks.{IsShare, shard_for, worker_for};
ghost use Rattle.er_parallel.specs.Usual.{usual};
ghost use Rattle.er_replay.specs.Standing.{found_no_room, holding, in_full, states, Stands};
ghost use Rattle.er_replay.specs.Wants.{is_access};

use crate::ReplayConfig;
use er_event::{Event, Lockset, NoRoom, Refusal, Reply, Step, ThreadId};
use er_replay::{Brief, OwnMachine, no_room};
use std::alloc::{AllocError, Global};
use std::collections::VecDeque;
use std::thread::Promise;

/// How many steps a worker copies at a time if it is the only one: those of 8 KiB, which stay in its processor's cache.
const COPIES: usize = 256;

/// A step whose answer isn't the usual one. The usual answer to an access is `Quiet`, and to any other step `Done`. If changes are
/// noted, it may also be an access that changed its word's state, with any answer.
#[derive(Debug, Drop)]
pub struct Unusual {
    /// The position of the step in its batch.
    pub at: usize,
    /// The answer to the step.
    pub answer: Result<Reply, Refusal>,
    /// The locks that the step's thread holds there, if the answer is a race. Otherwise it has none.
    pub held: Lockset,
}

/// A worker's share of all steps: of so many workers, the one of this number answers the steps of the shards that have its number modulo
/// theirs. A step that is on no word goes with shard 0. With `noting` it also keeps the accesses that changed their words' states.
#[derive(Clone, Copy)]
pub(crate) struct Share {
    pub(crate) shards: u32,
    pub(crate) worker: u32,
    pub(crate) workers: u32,
    pub(crate) noting: bool,
}

/// What a thread that makes a worker promises: the worker has answered no step.
#[derive(Drop)]
pub(crate) struct Fresh;

impl Promise<Result<Worker, AllocError>> for Fresh {
    ghost use Rattle.std.specs.Prelude.{[], IfOk};
    ghost use Rattle.er_replay.specs.Standing.{Stands};

    ghost kept_by = { λ _ r. IfOk r (λ worker. Stands worker.machine []) };
}

/// Why a worker has no answers, and the shard of the step that found no room.
#[derive(Clone, Copy, Debug, Drop)]
pub(crate) struct WorkFault {
    pub(crate) shard: u32,
    pub(crate) cause: NoRoom,
}

/// A worker: its machine, and what it found in the last batch.
#[derive(Drop)]
pub(crate) struct Worker {
    pub(crate) machine: OwnMachine,
    pub(crate) found: VecDeque<Unusual>,
    pub(crate) fault: Option<WorkFault>,
}

impl Worker {
    /// A worker that has answered no step, and keeps as many sets of locks as this configuration says.
    pub(crate) fn new(alloc: Global, config: ReplayConfig) -> Result<Worker, AllocError>
        ensures { IfOk result (λ worker. Stands worker.machine []) }
    {
        let ReplayConfig { max_sets, keys, .. } = config;
        Ok(Worker {
            machine: OwnMachine::keyed(alloc, max_sets, keys)?,
            found: VecDeque::new(alloc),
            fault: None,
        })
    }

    /// Answers the steps of a batch that are its own. Its unusual answers stay in `found`, or the reason why there are none in `fault`.
    pub(crate) fn take(&mut self, alloc: Global, steps: &[Step], share: Share)
        requires { IsShare share }
        ensures { (past : List Steps) → HasFollowed share.shards share.workers share.worker past self.old.machine → HasTaken past steps.now share self.new }
    {
        self.found.clear();
        let answered = answer_all(alloc, steps, share, &mut self.machine, &mut self.found);
        self.fault = answered.err();
    }
}

// Answers the steps of a batch that are the worker's own.
fn answer_all(
    alloc: Global,
    steps: &[Step],
    share: Share,
    machine: &mut OwnMachine,
    found: &mut VecDeque<Unusual>,
) -> Result<(), WorkFault>
    requires share { IsShare share }
    requires empty { found.old.items ≡ [] }
    ensures done { (past : List Steps) → HasFollowed share.shards share.workers share.worker past machine.old → OnOk result (HasDone past steps.now share found.new.items machine.new) }
    ensures fault { (past : List Steps) → HasFollowed share.shards share.workers share.worker past machine.old → IfErr result (λ fault. MayBeFull (past ++ steps.now) fault) }
{
    if share.workers == 1 {
        return answer_alone(alloc, steps, share, machine, found);
    }
    let mut at = next_busy(steps, share, 0);
    while at < steps.len() {
        let step = &steps[at];
        if let Err(cause) = go_on(alloc, steps, share, at, step, machine, found) {
            let shard = shard_for(share.shards, step.event);
            return Err(WorkFault { shard, cause });
        }
        at = next_busy(steps, share, at + 1);
    }
    Ok(())
}

// The same for a worker that is the only one, so that all steps are its own. It copies some of them at a time, since other threads have written them: to
// copy them waits for fewer of them than to look at one after another.
fn answer_alone(
    alloc: Global,
    steps: &[Step],
    share: Share,
    machine: &mut OwnMachine,
    found: &mut VecDeque<Unusual>,
) -> Result<(), WorkFault>
    requires share { IsShare share }
    requires alone { share.workers ≡ 1 }
    requires empty { found.old.items ≡ [] }
    ensures done { (past : List Steps) → HasFollowed share.shards share.workers share.worker past machine.old → OnOk result (HasDone past steps.now share found.new.items machine.new) }
    ensures fault { (past : List Steps) → HasFollowed share.shards share.workers share.worker past machine.old → IfErr result (λ fault. MayBeFull (past ++ steps.now) fault) }
{
    let nothing = Step {
        thread: ThreadId::new(0),
        event: Event::IgnoreOn,
    };
    let mut copies = [nothing; COPIES];
    let mut from = 0;
    while from < steps.len() {
        let near = copied(&mut copies, &steps[from..]);
        answer_near(alloc, steps, share, from, near, machine, found)?;
        from += near.len();
    }
    Ok(())
}

// Copies of the first of these steps, as many as there is room for.
fn copied<'c>(copies: &'c mut [Step; COPIES], steps: &[Step]) -> &'c [Step]
    ensures front { result.now ≡ take (length result.now) steps.now }
    ensures within { length result.now ≤ length steps.now }
    ensures some { 1 ≤ length steps.now → 1 ≤ length result.now }
{
    let count = steps.len().min(COPIES);
    copies[..count].copy_from_slice(&steps[..count]);
    &copies[..count]
}

// Answers the steps of a batch from this position on of which these are copies, and reads the words of the next few ahead.
fn answer_near(
    alloc: Global,
    steps: &[Step],
    share: Share,
    from: usize,
    near: &[Step],
    machine: &mut OwnMachine,
    found: &mut VecDeque<Unusual>,
) -> Result<(), WorkFault>
    requires share { IsShare share }
    requires alone { share.workers ≡ 1 }
    requires within { from + length near.now ≤ length steps.now }
    requires copied { near.now ≡ take (length near.now) (drop from steps.now) }
    ensures far { (past : List Steps) → HasCome from past steps.now share found.old.items machine.old → OnOk result (HasCome (from + length near.now) past steps.now share found.new.items machine.new) }
    ensures fault { (past : List Steps) → HasCome from past steps.now share found.old.items machine.old → IfErr result (λ fault. MayBeFull (past ++ steps.now) fault) }
{
    for k in 0..near.len() {
        machine.look_ahead(near, k);
        let step = &near[k];
        if let Err(cause) = answer_own(alloc, steps, share, from + k, step, machine, found) {
            let shard = shard_for(share.shards, step.event);
            return Err(WorkFault { shard, cause });
        }
    }
    Ok(())
}

// The first position from here on, in a batch, of a step that isn't idle, or the end of the batch. It is a loop of its own, so that its few values stay
// in registers.
#[inline(always)]
fn next_busy(steps: &[Step], share: Share, from: usize) -> usize
    requires share { IsShare share }
    requires within { from ≤ length steps.now }
    ensures behind { from ≤ result }
    ensures within { result ≤ length steps.now }
    ensures idle { AreIdle share from result steps.now }
    ensures busy { (step : Steps) → slice_get steps.now result ≡ Some step → IsBusy share step.event }
{
    for at in from..steps.len() {
        if !is_idle(share, &steps[at]) {
            return at;
        }
    }
    steps.len()
}

// Whether the step is an access of another worker's word, which changes nothing of this worker.
#[inline(always)]
fn is_idle(share: Share, step: &Step) -> bool
    requires { IsShare share }
    ensures idle { IsTrue result → IsIdle share step.now.event }
    ensures busy { IsFalse result → IsBusy share step.now.event }
{
    is_access(step) && worker_for(share.shards, share.workers, step.event) != share.worker
}

// Takes the next step of a batch, and keeps its answer unless it is another worker's step, or a plain one. It is called, so that the loop over the steps
// stays short.
#[inline(never)]
fn go_on(
    alloc: Global,
    steps: &[Step],
    share: Share,
    at: usize,
    step: &Step,
    machine: &mut OwnMachine,
    found: &mut VecDeque<Unusual>,
) -> Result<(), NoRoom>
    requires share { IsShare share }
    requires there { slice_get steps.now at ≡ Some step.now }
    ensures far { (past : List Steps) → HasCome at past steps.now share found.old.items machine.old → OnOk result (HasCome (at + 1) past steps.now share found.new.items machine.new) }
    ensures full { (past : List Steps) → HasCome at past steps.now share found.old.items machine.old → IsErrOf result NoRoom.TableFull → AsksForSet (past ++ steps.now) }
{
    if worker_for(share.shards, share.workers, step.event) != share.worker {
        machine.pass(*step)?;
        return Ok(());
    }
    answer_own(alloc, steps, share, at, step, machine, found)
}

// Takes the next step of a batch, which is the worker's own, and keeps its answer unless it is a plain one.
#[inline(always)]
fn answer_own(
    alloc: Global,
    steps: &[Step],
    share: Share,
    at: usize,
    step: &Step,
    machine: &mut OwnMachine,
    found: &mut VecDeque<Unusual>,
) -> Result<(), NoRoom>
    requires there { slice_get steps.now at ≡ Some step.now }
    requires own { IsOwn share step.now.event }
    ensures far { (past : List Steps) → HasCome at past steps.now share found.old.items machine.old → OnOk result (HasCome (at + 1) past steps.now share found.new.items machine.new) }
    ensures full { (past : List Steps) → HasCome at past steps.now share found.old.items machine.old → IsErrOf result NoRoom.TableFull → AsksForSet (past ++ steps.now) }
{
    let (brief, changed) = machine.take(&(), *step);
    if is_passed_over(brief, share.noting, changed) {
        return Ok(());
    }
    keep(alloc, machine, step, at, brief, found)
}

// Keeps the answer to the step at this position, which is this one in brief, with the thread's locks if it is a race, unless the step found no room. It is
// a call, so that the loop over the steps doesn't clear the room for a whole answer at each of them.
#[inline(never)]
fn keep(
    alloc: Global,
    machine: &OwnMachine,
    step: &Step,
    at: usize,
    brief: Result<Brief, Refusal>,
    found: &mut VecDeque<Unusual>,
) -> Result<(), NoRoom>
    ensures room { OnOk result (IsFalse (found_no_room brief)) }
    ensures kept { OnOk result (IsKept at (in_full (states machine.now) step.now.event brief) (holding machine.now step.now.thread).held found.old.items found.new.items) }
    ensures full { IsErrOf result NoRoom.TableFull → brief ≡ Err Refusal.TableFull }
{
    let answer = machine.in_full(step, brief);
    if let Some(cause) = no_room(&answer) {
        return Err(cause);
    }
    let held = match answer {
        Ok(Reply::Race) => machine.held(step.thread).held().copy()?,
        _ => Lockset::new(alloc),
    };
    found.push_back(Unusual { at, answer, held })?;
    Ok(())
}

/// The usual answer to a step.
#[inline]
pub fn usual_answer(step: &Step) -> Result<Reply, Refusal>
    ensures { result ≡ usual step.now.event }
{
    Ok(if is_access(step) {
        Reply::Quiet
    } else {
        Reply::Done
    })
}

// Whether a step that is answered so isn't kept: it has its usual answer, and with `noting` it is no access that may have changed its word's state.
#[inline(always)]
fn is_passed_over(answer: Result<Brief, Refusal>, noting: bool, changed: bool) -> bool
    ensures { IsTrue result → IsPassed answer noting changed }
{
    match answer {
        Ok(Brief::Quiet | Brief::First) => !(noting && changed),
        Ok(Brief::Done) => true,
        _ => false,
    }
}

// Whether the step reads or writes a word.
#[inline]
fn is_access(step: &Step) -> bool
    ensures { result ≡ is_access step.now.event }
{
    matches!(step.event, Event::Access(..))
}

// The shard of an event's words. An event on no word goes with shard 0.
#[inline]
fn shard_for(shards: u32, event: Event) -> u32
    requires { 0 < shards }
    ensures shard { result ≡ shard_for shards event }
    ensures limit { result < shards }
{
    match event {
        Event::Access(_, word, _) | Event::Show(word) => remainder(word.page(), shards),
        Event::Reuse(range) => remainder(range.lo.page(), shards),
        _ => 0,
    }
}

// The number of the worker that answers the event.
#[inline]
fn worker_for(shards: u32, workers: u32, event: Event) -> u32
    requires shards { 0 < shards }
    requires workers { 0 < workers }
    ensures { result ≡ worker_for shards workers event }
{
    let shard = shard_for(shards, event);
    remainder(u64::from(shard), workers)
}

// What is left of a division. By the numbers that stand here the compiler divides without a division, which would take as long as the
// rest of what a worker does at a step that isn't its own.
#[inline]
fn remainder(number: u64, by: u32) -> u32
    requires { 0 < by }
    ensures value { result ≡ number % by }
    ensures limit { result < by }
{
    match by {
        1 => 0,
        2 => (number % 2) as u32,
        4 => (number % 4) as u32,
        8 => (number % 8) as u32,
        16 => (number % 16) as u32,
        32 => (number % 32) as u32,
        64 => (number % 64) as u32,
        _ => (number % u64::from(by)) as u32,
    }
}
