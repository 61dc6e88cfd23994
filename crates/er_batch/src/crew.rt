//! The lockset rule by several workers, as an analyst.
ghost use Rattle.std.specs.Prelude.{◌≡◌, ◌+◌, ◌++◌, ◌<◌, ◌≤◌, ◌^◌, ℕ, List, All, IfOk, IfErr, MatchOption, None, OnOk, map, Some, is_some, length, slice_get, true, false};
ghost use Rattle.std.specs.Thread.{IsSync};
ghost use Rattle.er_batch.specs.Analysts.{Asked, HasCrewRun};
ghost use Rattle.er_batch.specs.Inner.Answering.{Lags};
ghost use Rattle.er_batch.specs.Inner.Items.{AreItems, HaveTaken, Holds, IsNext, IsTold, is_reuse};
ghost use Rattle.er_batch.specs.Runs.{all_of};
ghost use Rattle.er_event.specs.declared.steps.Step.{Step as Steps};
ghost use Rattle.er_parallel.specs.Crews.{AreUnusual, HaveAnswered, Rise};
ghost use Rattle.er_parallel.specs.Faults.{MayFail};
ghost use Rattle.er_reading.specs.Chunks.{step_lists};
ghost use Rattle.er_report.specs.Builder.{IsReported};
ghost use Rattle.er_report.specs.Names.{HasNames};
ghost use Rattle.er_report.specs.Report.{report_of, told};
ghost use Rattle.er_rules.specs.Rules.{targets_of};
ghost use Rattle.er_text.specs.Batches.{joined};
ghost use Rattle.er_trace.specs.Trace.{Recording, no_steps};

use crate::answering::{add_behind, has_room};
use crate::{Analyst, Answered, Options};
use er_event::{Event, Step};
use er_explain::cover_in;
use er_lines::Touch;
use er_parallel::{Crew, OpenGate, ReplayConfig, ReplayFault, Unusual, usual_answer};
use er_reading::Chunk;
use er_replay::OwnMachine;
use er_report::{Report, ReportBuilder};
use er_rules::Suppressions;
use er_trace::Trace;
use std::alloc::{AllocError, Global};
use std::collections::VecDeque;
use std::marker::Model;
use std::sync::Wait;
use std::thread::{Threads, join_mut};

// Whether the workers have answered steps, or why not.
type Taken = Result<(), ReplayFault>;

/// Answers steps by the lockset rule and several workers, up to a batch that these can't answer.
#[derive(Drop)]
pub struct CrewAnalyst<'r> {
    // Takes what each step makes of its thread's holdings, and no word, if reasons are wanted.
    holder: OwnMachine,
    crew: Result<Crew, ReplayFault>,
    // Of each chunk of the last batch whose steps aren't in the report.
    items: VecDeque<Vec<Unusual>>,
    builder: ReportBuilder<'r>,
}

impl<'r> Model for CrewAnalyst<'r> {
    ghost use Rattle.er_batch.specs.Analysts.{CrewRan};
    ghost use Rattle.std.specs.Prelude.{map};

    ghost Value = { CrewRan };

    ghost view = { λ a. record { holder = a.holder; crew = a.crew; items = map (λ v. v.items) a.items.items; builder = a.builder } };
}

impl<'r> CrewAnalyst<'r> {
    /// Before any step, with so many workers, and the shards, sets and keys of these options.
    pub fn new<R: Threads + Wait + Sync>(
        rt: &R,
        alloc: Global,
        suppressions: &'r Suppressions,
        options: &Options,
        workers: u32,
    ) -> Result<CrewAnalyst<'r>, AllocError>
        requires { (1 ≤ workers) × (workers ≤ 16) }
        ensures stands { (asked : Asked) → asked.rules ≡ targets_of suppressions.now → asked.explain ≡ options.now.explain → IfOk result (λ analyst. HasCrewRun analyst asked no_steps) }
    {
        let Options { explain, keys, .. } = *options;
        let holder = OwnMachine::keyed(alloc, options.max_sets, keys)?;
        let builder = ReportBuilder::explaining_keyed(alloc, suppressions, explain, keys)?;
        let config = ReplayConfig {
            shards: options.shards,
            max_sets: options.max_sets,
            keys,
        };
        let crew = Crew::new(rt, alloc, config, workers);
        Ok(CrewAnalyst {
            holder,
            crew,
            items: VecDeque::new(alloc),
            builder,
        })
    }

    /// The report of the steps so far, or why they weren't all answered.
    pub fn finish(self) -> Result<Report, ReplayFault>
        ensures report { (asked : Asked) (r : Recording) → HasCrewRun self.entry asked r → IfOk result (λ report. told report ≡ report_of r asked.rules asked.explain None) }
        ensures named { (asked : Asked) (r : Recording) → HasCrewRun self.entry asked r → IfOk result (λ report. All (HasNames r.names) report.lines.items) }
        ensures whole { IfOk result (λ report. report.stop ≡ None) }
        ensures fault { (asked : Asked) (r : Recording) → HasCrewRun self.entry asked r → IfErr result (λ why. MayFail r.steps why) }
    {
        match self.crew {
            Ok(_) => Ok(self.builder.finish_explained(None)),
            Err(why) => Err(why),
        }
    }
}

impl<'r> Analyst for CrewAnalyst<'r> {
    ghost use Rattle.er_batch.specs.Analysts.{IsCrewReady};
    ghost use Rattle.er_report.specs.Reports.{asks_locks};

    ghost stands = { IsCrewReady };

    ghost wanted = { λ asked. asks_locks asked.analysis };

    ghost answered = { λ ran. ran.builder.report.steps };

    ghost found = { λ ran. ran.builder.report.races };

    fn prepare<R: Threads + Wait + Sync, B, F: FnMut() -> B>(
        &mut self,
        rt: &R,
        chunks: &[Chunk],
        beside: &mut F,
    ) -> B {
        let Ok(crew) = &mut self.crew else {
            return beside();
        };
        let noting = self.builder.explains();
        self.items.clear();
        let (taken, done) = take_beside(rt, crew, chunks, noting, &mut self.items, beside);
        match taken {
            Ok(()) => done,
            Err(why) => {
                self.crew = Err(why);
                done
            }
        }
    }

    fn answer<R: Threads + Wait + Sync>(
        &mut self,
        _rt: &R,
        trace: &Trace,
        _touches: &[Touch],
    ) -> Answered {
        let steps = trace.steps();
        prove!(steps.len() == trace.lines().len());
        prove!(steps.len() == trace.sites().len());
        let Ok(_) = &self.crew else {
            return Ok(());
        };
        let Some(items) = self.items.pop_front() else {
            return Ok(());
        };
        let items = items.as_slice();
        add_items(&mut self.holder, &mut self.builder, trace, items)
    }

    fn counts(&self) -> (u64, u64) {
        (self.builder.steps(), self.builder.races())
    }
}

// The workers answer the steps of these chunks while `beside` is called. What is unusual of each comes behind the items that are there.
//
// The thread that is started first does nothing. A system may give it the processor of the thread that starts it, and later wake that one there: so a
// thread that answers would be interrupted, while other processors are idle.
fn take_beside<R: Threads + Wait + Sync, B, F: FnMut() -> B>(
    rt: &R,
    crew: &mut Crew,
    chunks: &[Chunk],
    noting: bool,
    items: &mut VecDeque<Vec<Unusual>>,
    beside: &mut F,
) -> (Taken, B)
    requires callable { F.pre beside.old }
    ensures called { F.step beside.old result.1 beside.new }
    ensures taken { (past : List Steps) → HaveAnswered crew.old past → OnOk result.0 (HaveTaken noting past (step_lists chunks.now) crew.new (map (λ v. v.items) items.old.items) (map (λ v. v.items) items.new.items)) }
    ensures fault { (past : List Steps) → HaveAnswered crew.old past → IfErr result.0 (λ why. MayFail (past ++ all_of (step_lists chunks.now)) why) }
{
    let (_, taken) = join_mut(
        rt,
        &mut || {},
        &mut || -> (Taken, B)
            requires { IsSync R.row × F.pre beside.now }
            ensures called { F.step beside.entry.now result.1 beside.exit.now }
            ensures taken { (past : List Steps) → HaveAnswered crew.entry.now past → OnOk result.0 (HaveTaken noting past (step_lists chunks.entry.now) crew.exit.now (map (λ v. v.items) items.entry.now.items) (map (λ v. v.items) items.exit.now.items)) }
            ensures fault { (past : List Steps) → HaveAnswered crew.entry.now past → IfErr result.0 (λ why. MayFail (past ++ all_of (step_lists chunks.entry.now)) why) }
        { take_at_once(rt, crew, chunks, noting, items, beside) },
    );
    taken
}

// The same, whichever thread is started first.
fn take_at_once<R: Threads + Wait + Sync, B, F: FnMut() -> B>(
    rt: &R,
    crew: &mut Crew,
    chunks: &[Chunk],
    noting: bool,
    items: &mut VecDeque<Vec<Unusual>>,
    beside: &mut F,
) -> (Taken, B)
    requires callable { F.pre beside.old }
    ensures called { F.step beside.old result.1 beside.new }
    ensures taken { (past : List Steps) → HaveAnswered crew.old past → OnOk result.0 (HaveTaken noting past (step_lists chunks.now) crew.new (map (λ v. v.items) items.old.items) (map (λ v. v.items) items.new.items)) }
    ensures fault { (past : List Steps) → HaveAnswered crew.old past → IfErr result.0 (λ why. MayFail (past ++ all_of (step_lists chunks.now)) why) }
{
    join_mut(
        rt,
        &mut || -> Taken
            requires { IsSync R.row }
            ensures taken { (past : List Steps) → HaveAnswered crew.entry.now past → OnOk result (HaveTaken noting past (step_lists chunks.entry.now) crew.exit.now (map (λ v. v.items) items.entry.now.items) (map (λ v. v.items) items.exit.now.items)) }
            ensures fault { (past : List Steps) → HaveAnswered crew.entry.now past → IfErr result (λ why. MayFail (past ++ all_of (step_lists chunks.entry.now)) why) }
        { take_each(rt, crew, chunks, noting, items) },
        beside,
    )
}

// The workers answer the steps of these chunks, one chunk after the other.
fn take_each<R: Threads + Wait + Sync>(
    rt: &R,
    crew: &mut Crew,
    chunks: &[Chunk],
    noting: bool,
    items: &mut VecDeque<Vec<Unusual>>,
) -> Taken
    ensures taken { (past : List Steps) → HaveAnswered crew.old past → OnOk result (HaveTaken noting past (step_lists chunks.now) crew.new (map (λ v. v.items) items.old.items) (map (λ v. v.items) items.new.items)) }
    ensures fault { (past : List Steps) → HaveAnswered crew.old past → IfErr result (λ why. MayFail (past ++ all_of (step_lists chunks.now)) why) }
{
    let Some((first, others)) = chunks.split_first() else {
        return Ok(());
    };
    let found = crew.take(rt, first.steps.as_slice(), noting, &OpenGate)?;
    if items.push_back(found).is_err() {
        return Err(ReplayFault::Memory);
    }
    take_each(rt, crew, others, noting, items)
}

// Adds the steps of a batch to the report, with their items' answers and otherwise the usual ones. If reasons are wanted, each access that
// changed its word must have an item.
fn add_items(
    holder: &mut OwnMachine,
    builder: &mut ReportBuilder<'_>,
    trace: &Trace,
    items: &[Unusual],
) -> Result<(), AllocError>
    ensures rules { OnOk result (builder.new.rules ≡ builder.old.rules) }
    ensures explains { OnOk result (is_some builder.new.kept ≡ is_some builder.old.kept) }
    ensures reported { (past : List Steps) (lines sites : List ℕ) → length lines ≡ length past → length sites ≡ length past → AreItems (is_some builder.old.kept) past trace.now.steps items.now
        → Holds (is_some builder.old.kept) holder.old (past ++ trace.now.steps) (length past) → IsReported builder.old (joined past lines sites trace.now) (length past) → OnOk result (IsReported builder.new (joined past lines sites trace.now) (length past + length trace.now.steps)) }
    ensures holds { (past : List Steps) → Holds (is_some builder.old.kept) holder.old (past ++ trace.now.steps) (length past) → OnOk result (Holds (is_some builder.old.kept) holder.new (past ++ trace.now.steps) (length past + length trace.now.steps)) }
{
    let steps = trace.steps();
    if !has_room(builder, steps) {
        return Err(AllocError);
    }
    let explains = builder.explains();
    let mut next = 0;
    let mut k = 0;
    while k < steps.len() {
        let told = next_told(explains, steps, items, next, k);
        if explains {
            pass_all(holder, steps, k, steps.len().min(told + 1))?;
        }
        let plain = (told - k) as u64;
        if told == steps.len() {
            builder.add_plain(plain);
            return Ok(());
        }
        next = add_next(builder, plain, trace, items, next, told, holder)?;
        k = told + 1;
    }
    Ok(())
}

// The first position from here on of a step that the report may have something to say of, or the end of the batch: the next item's, or if reasons are
// wanted a reuse's. Without reasons no step is looked at, so that a batch that has left the cache isn't loaded again.
fn next_told(explains: bool, steps: &[Step], items: &[Unusual], next: usize, from: usize) -> usize
    requires within { from ≤ length steps.now }
    ensures behind { from ≤ result }
    ensures within { result ≤ length steps.now }
    ensures place { Rise items.now → IsNext items.now next from → IsNext items.now next result }
    ensures told { IsNext items.now next from → result < length steps.now → IsTold explains steps.now items.now next result }
    ensures still { explains ≡ true → (k : ℕ) (step : Steps) → from ≤ k → k < result → slice_get steps.now k ≡ Some step → is_reuse step.event ≡ false }
{
    let end = match items.get(next) {
        Some(item) => item.at.max(from).min(steps.len()),
        None => steps.len(),
    };
    if !explains {
        return end;
    }
    for k in from..end {
        if let Event::Reuse(_) = steps[k].event {
            return k;
        }
    }
    end
}

// What threads hold goes on by the steps at these positions, `from` included and `to` not.
fn pass_all(
    holder: &mut OwnMachine,
    steps: &[Step],
    from: usize,
    to: usize,
) -> Result<(), AllocError>
    requires within { (from ≤ to) × (to ≤ length steps.now) }
    ensures { (past : List Steps) → Holds true holder.old (past ++ steps.now) (length past + from) → OnOk result (Holds true holder.new (past ++ steps.now) (length past + to)) }
{
    for k in from..to {
        holder.pass(steps[k])?;
    }
    Ok(())
}

// Adds `plain` steps at once that the report has no line for, and then the step at position k of a batch, with its item's answer or the
// usual one. Returns how many of the items are behind.
fn add_next(
    builder: &mut ReportBuilder<'_>,
    plain: u64,
    trace: &Trace,
    items: &[Unusual],
    next: usize,
    k: usize,
    holder: &OwnMachine,
) -> Result<usize, AllocError>
    requires room { builder.old.report.steps + plain + 1 < 2 ^ 64 }
    requires within { k < length trace.now.steps }
    requires next { next ≤ k }
    ensures rules { OnOk result (builder.new.rules ≡ builder.old.rules) }
    ensures steps { OnOk result (builder.new.report.steps ≡ builder.old.report.steps + plain + 1) }
    ensures explains { OnOk result (is_some builder.new.kept ≡ is_some builder.old.kept) }
    ensures next { IfOk result (λ after. after ≤ k + 1) }
    ensures place { Rise items.now → IsNext items.now next k → IfOk result (λ after. IsNext items.now after (k + 1)) }
    ensures reported { (past : List Steps) (lines sites : List ℕ) → length lines ≡ length past → length sites ≡ length past → AreUnusual past trace.now.steps items.now → IsNext items.now next k
        → Holds (is_some builder.old.kept) holder.now (past ++ trace.now.steps) (length past + k + 1) → Lags builder.old (joined past lines sites trace.now) (length past + k) plain → OnOk result (IsReported builder.new (joined past lines sites trace.now) (length past + k + 1)) }
{
    let step = &trace.steps()[k];
    let line = trace.lines()[k];
    let site = trace.sites()[k];
    let names = trace.names();
    let holds = holder.held(step.thread);
    let (held, cover) = (holds.held(), cover_in(holds, step.event));
    match item_at(items, next, k) {
        Some(item) => {
            let Unusual { answer, held, .. } = item;
            add_behind(builder, plain, names, line, site, step, answer, held, cover)?;
            Ok(next + 1)
        }
        None => {
            let usual = usual_answer(step);
            add_behind(builder, plain, names, line, site, step, &usual, held, cover)?;
            Ok(next)
        }
    }
}

// The unusual answer to the step at position k, if it has one. It is the next one.
fn item_at(items: &[Unusual], next: usize, k: usize) -> Option<&Unusual>
    ensures { Rise items.now → IsNext items.now next k → MatchOption result (IsNext items.now next (k + 1))
        (λ item. (slice_get items.now next ≡ Some item.now) × (item.now.at ≡ k) × IsNext items.now (next + 1) (k + 1)) }
{
    match items.get(next) {
        Some(item) if item.at == k => Some(item),
        _ => None,
    }
}
