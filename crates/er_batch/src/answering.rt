//! Answers the steps of a batch by one machine, and adds them to a report.
ghost use Rattle.std.specs.Prelude.{◌≡◌, ◌+◌, ◌<◌, ◌≤◌, ◌^◌, nat_lt, ℕ, List, length, option_copied, is_some, slice_get, slice_index, Some, IfSome, IfOk, IsFalse, IsTrue, OnOk, false, true};
ghost use Rattle.er_batch.specs.Inner.Answering.{Answers, HasAnswered, Lags};
ghost use Rattle.er_batch.specs.Runs.{HasRun, recorded};
ghost use Rattle.er_event.specs.declared.steps.Event.{Event as Events};
ghost use Rattle.er_event.specs.declared.steps.Step.{Step as Steps};
ghost use Rattle.er_event.specs.declared.steps.WordState.{WordState as WordStates};
ghost use Rattle.er_explain.specs.Following.{BeginsAt, CoversAt};
ghost use Rattle.er_model.specs.Answers.{answer};
ghost use Rattle.er_replay.specs.Standing.{found_no_room, in_full};
ghost use Rattle.er_report.specs.Builder.{IsReported, IsStepAt, is_plain};
ghost use Rattle.er_report.specs.Names.{HasSiteName};
ghost use Rattle.er_text.specs.Batches.{joined};
ghost use Rattle.er_text.specs.Named.{KeepsNames};
ghost use Rattle.er_trace.specs.Names.{NameTable};
ghost use Rattle.er_trace.specs.Trace.{Recording};

use er_event::{Lockset, NoRoom, Refusal, Reply, Site, Step};
use er_explain::cover_in;
use er_journal::Stopped;
use er_replay::{Brief, OwnMachine, no_room};
use er_report::{ReportBuilder, view_of};
use er_trace::{Names, Trace};
use std::alloc::AllocError;

/// Answers the steps of a batch and adds them to the report, and says where the run has stopped. Once it has stopped nothing is added.
/// Another analysis of the same batches can be made beside it.
pub fn answer_batch(
    machine: &mut OwnMachine,
    trace: &Trace,
    builder: &mut ReportBuilder<'_>,
    stop: Option<(u64, NoRoom)>,
) -> Result<Option<(u64, NoRoom)>, AllocError>
    ensures rules { OnOk result (builder.new.rules ≡ builder.old.rules) }
    ensures explains { OnOk result (is_some builder.new.kept ≡ is_some builder.old.kept) }
    ensures run { (past : List Steps) (lines sites : List ℕ) (names : NameTable) → KeepsNames names trace.now.names → HasRun machine.old builder.old stop (recorded past lines sites names)
        → IfOk result (λ stop. HasRun machine.new builder.new stop (joined past lines sites trace.now)) }
{
    let steps = trace.steps();
    let lines = trace.lines();
    prove!(steps.len() == lines.len());
    prove!(steps.len() == trace.sites().len());
    if stop.is_some() {
        return Ok(stop);
    }
    Ok(match answer_steps(machine, trace, builder)? {
        Some(Stopped { at, cause }) => Some((lines[at as usize], cause)),
        None => None,
    })
}

/// Whether a report says nothing of an answer.
#[inline(always)]
pub fn is_plain(answer: &Result<Reply, Refusal>) -> bool
    ensures { result ≡ is_plain answer.now }
{
    matches!(answer, Ok(Reply::Quiet | Reply::Done | Reply::Ignored))
}

// Whether a step that is answered so needs no line.
#[inline(always)]
fn needs_no_line(answer: Result<Brief, Refusal>) -> bool
    ensures plain { IsTrue result → (states : ℕ → WordStates) (event : Events) → is_plain (in_full states event answer) ≡ true }
    ensures room { IsTrue result → IsFalse (found_no_room answer) }
{
    matches!(
        answer,
        Ok(Brief::Quiet | Brief::First | Brief::Done | Brief::Ignored)
    )
}

// Whether the report says nothing of a step that is answered so: it needs no line, and if reasons are wanted it has not changed a word.
#[inline(always)]
fn says_nothing(explains: bool, answer: Result<Brief, Refusal>, changed: bool) -> bool
    ensures plain { IsTrue result → (states : ℕ → WordStates) (event : Events) → is_plain (in_full states event answer) ≡ true }
    ensures room { IsTrue result → IsFalse (found_no_room answer) }
    ensures keeps { IsTrue result → explains ≡ true → changed ≡ false }
{
    needs_no_line(answer) && !(explains && changed)
}

// Adds `plain` steps at once that the report has no line for, and then the next step, which has none either, but which reasons may want. If they are wanted
// and it is an access that counts, `cover` must be the locks that cover it.
#[inline(always)]
fn add_reason(
    builder: &mut ReportBuilder<'_>,
    plain: u64,
    line: u64,
    step: &Step,
    cover: Option<&Lockset>,
) -> Result<(), AllocError>
    requires room { builder.old.report.steps + plain + 1 < 2 ^ 64 }
    ensures rules { OnOk result (builder.new.rules ≡ builder.old.rules) }
    ensures steps { OnOk result (builder.new.report.steps ≡ builder.old.report.steps + plain + 1) }
    ensures explains { OnOk result (is_some builder.new.kept ≡ is_some builder.old.kept) }
    ensures reported { (r : Recording) (n : ℕ) → Lags builder.old r n plain → slice_get r.steps n ≡ Some step.now → line ≡ slice_index r.lines n → is_plain (answer r.steps n) ≡ true
        → (IsTrue (is_some builder.old.kept) → CoversAt r.steps n step.now (option_copied cover.entry)) → OnOk result (IsReported builder.new r (n + 1)) }
{
    builder.add_plain(plain);
    builder.add_plain(1);
    builder.explain(line, step, cover)
}

// The same as `add_reason` for a step that is the first access of its word since its last reuse.
#[inline(always)]
fn add_first(
    builder: &mut ReportBuilder<'_>,
    plain: u64,
    line: u64,
    step: &Step,
) -> Result<(), AllocError>
    requires room { builder.old.report.steps + plain + 1 < 2 ^ 64 }
    ensures rules { OnOk result (builder.new.rules ≡ builder.old.rules) }
    ensures steps { OnOk result (builder.new.report.steps ≡ builder.old.report.steps + plain + 1) }
    ensures explains { OnOk result (is_some builder.new.kept ≡ is_some builder.old.kept) }
    ensures reported { (r : Recording) (n : ℕ) → Lags builder.old r n plain → slice_get r.steps n ≡ Some step.now → line ≡ slice_index r.lines n → is_plain (answer r.steps n) ≡ true
        → (IsTrue (is_some builder.old.kept) → BeginsAt r.steps n) → OnOk result (IsReported builder.new r (n + 1)) }
{
    builder.add_plain(plain);
    builder.add_plain(1);
    builder.explain_first(line, step)
}

/// Adds `plain` steps at once that the report has no line for, and then the next step, which is only counted if it has no line either. If
/// reasons are wanted and the next step is an access that counts, `cover` must be the locks that cover it.
pub(crate) fn add_behind(
    builder: &mut ReportBuilder<'_>,
    plain: u64,
    names: &Names,
    line: u64,
    site: Site,
    step: &Step,
    answer: &Result<Reply, Refusal>,
    held: &Lockset,
    cover: Option<&Lockset>,
) -> Result<(), AllocError>
    requires room { builder.old.report.steps + plain + 1 < 2 ^ 64 }
    requires site { HasSiteName names.now step.now.event }
    requires at { site ≤ length names.now.sites }
    ensures rules { OnOk result (builder.new.rules ≡ builder.old.rules) }
    ensures steps { OnOk result (builder.new.report.steps ≡ builder.old.report.steps + plain + 1) }
    ensures explains { OnOk result (is_some builder.new.kept ≡ is_some builder.old.kept) }
    ensures reported { (r : Recording) (n : ℕ) → Lags builder.old r n plain → IsStepAt r n names.now line site step.now answer.now held.now
        → (IsTrue (is_some builder.old.kept) → CoversAt r.steps n step.now (option_copied cover.entry)) → OnOk result (IsReported builder.new r (n + 1)) }
{
    if is_plain(answer) {
        return add_reason(builder, plain, line, step, cover);
    }
    builder.add_plain(plain);
    builder.add(names, line, site, step, view_of(answer), held)?;
    builder.explain(line, step, cover)
}

// Answers each step and adds it to the report, up to the first that finds no room. Steps without a line are counted, and added before the
// next step with one. If there are more of them than can be counted, that is reported as a want of memory.
fn answer_steps(
    machine: &mut OwnMachine,
    trace: &Trace,
    builder: &mut ReportBuilder<'_>,
) -> Result<Option<Stopped>, AllocError>
    ensures rules { OnOk result (builder.new.rules ≡ builder.old.rules) }
    ensures explains { OnOk result (is_some builder.new.kept ≡ is_some builder.old.kept) }
    ensures within { IfOk result (λ stopped. IfSome stopped (λ stop. stop.at < length trace.now.steps)) }
    ensures run { (past : List Steps) (lines sites : List ℕ) → length lines ≡ length past → length sites ≡ length past → HasAnswered machine.old builder.old (joined past lines sites trace.now) (length past)
        → IfOk result (λ stopped. Answers machine.new builder.new (joined past lines sites trace.now) (length past) stopped) }
{
    let steps = trace.steps();
    if !has_room(builder, steps) {
        return Err(AllocError);
    }
    let names = trace.names();
    let explains = builder.explains();
    let mut plain = 0;
    for (k, step) in steps.iter().enumerate() {
        machine.look_ahead(steps, k);
        let (brief, changed) = machine.take(&(), *step);
        if says_nothing(explains, brief, changed) {
            plain += 1;
        } else if let Ok(Brief::First) = brief {
            add_first(builder, plain, trace.lines()[k], step)?;
            plain = 0;
        } else if needs_no_line(brief) {
            let cover = cover_in(machine.held(step.thread), step.event);
            add_reason(builder, plain, trace.lines()[k], step, cover)?;
            plain = 0;
        } else {
            let answer = machine.in_full(step, brief);
            if let Some(cause) = no_room(&answer) {
                drop(answer);
                builder.add_plain(plain);
                let at = k as u64;
                return Ok(Some(Stopped { at, cause }));
            }
            let holder = machine.held(step.thread);
            let (held, cover) = (holder.held(), cover_in(holder, step.event));
            let (line, site) = (trace.lines()[k], trace.sites()[k]);
            let added = add_behind(
                builder, plain, names, line, site, step, &answer, held, cover,
            );
            drop(answer);
            added?;
            plain = 0;
        }
    }
    builder.add_plain(plain);
    Ok(None)
}

/// Whether the report can count these steps too: it counts up to 2^64 - 1.
pub fn has_room(builder: &ReportBuilder<'_>, steps: &[Step]) -> bool
    ensures { result ≡ nat_lt (builder.now.report.steps + length steps.now) (2 ^ 64) }
{
    steps.len() as u64 <= u64::MAX - builder.steps()
}
