//! A replay in one pass, by one worker or several.
ghost use Rattle.std.specs.Prelude.{◌≡◌, ◌||◌, ℕ, Option, List, IfSome, IfOk, IfErr, IsOk, Some, None, false, true, is_some};
ghost use Rattle.er_batch.specs.Analysts.{Asked, HasCounted, HasRunFor, IsAnswered, Ran, StandsIf};
ghost use Rattle.er_batch.specs.Runs.{IsPartOf};
ghost use Rattle.er_device.specs.Device.{inner_of, has_failed, taken_of};
ghost use Rattle.er_event.specs.declared.refusals.NoRoom.{NoRoom as Room};
ghost use Rattle.er_parts.specs.Parts.{PartView};
ghost use Rattle.er_report.specs.Reports.{asks_locks, asks_order};
ghost use Rattle.er_report.specs.declared.reports.Analysis.TheVariants.{Lockset};
ghost use Rattle.er_rules.specs.Rules.{targets_of};
ghost use Rattle.er_run.specs.Faults.{FailsBy, IsFaultOfText, IsNoDamage, IsOfOneWorker, IsOfReading, looks_for_damage};
ghost use Rattle.er_run.specs.Inner.Outcomes.{AllStand, AreBuilt, CrewStands, IsOrderBuilt, IsOutcomeOf, IsReplayOf, IsRunBuilt};
ghost use Rattle.er_run.specs.Reports.{is_unstopped};
ghost use Rattle.er_text.specs.Ending.{IsEndingOf};
ghost use Rattle.er_trace.specs.Trace.{Recording, no_steps};
ghost use Rattle.er_unordered.specs.Ordered.{HasOrdered, OrderRan};

use crate::inspecting::Inspection;
use crate::outcome::{ReplayedTrace, outcome};
use crate::{Options, RunFault, Watch};
use er_batch::{Analysed, CrewAnalyst, LocksetAnalyst, Pair, analyse};
use er_device::Device;
use er_event::NoRoom;
use er_lines::Shortcut;
use er_report::{Analysis, Report, Reports};
use er_rules::Suppressions;
use er_unordered::OrderAnalyst;
use std::alloc::{AllocError, Global};
use std::io::Read;
use std::sync::Wait;
use std::thread::Threads;

/// What answers the steps of a request: each rule that is asked for, and what looks for damage.
type Analysts<'r> = Pair<Pair<Option<LocksetAnalyst<'r>>, Option<OrderAnalyst<'r>>>, Inspection>;

/// The report by the lockset rule of a replay by several workers. A quarter of them answer while the others read, since of several that
/// answer each goes over all steps.
pub(crate) fn report_by_crew<R: Threads + Wait + Sync, D: Read, S: Shortcut<D>, V: Watch>(
    rt: &R,
    alloc: Global,
    reader: &mut Device<D>,
    shortcut: &S,
    suppressions: &Suppressions,
    options: &Options,
    watcher: &mut V,
) -> Result<ReplayedTrace, RunFault>
    requires reader { has_failed reader.old ≡ false }
    ensures replay { IsReplayOf (D.remaining (inner_of reader.old)) (S.touches (inner_of reader.old)) options.now (targets_of suppressions.now) Lockset (taken_of reader.old) (taken_of reader.new) (has_failed reader.new) result }
    ensures whole { IfOk result (λ found. IfSome found.reports.lockset (λ report. report.stop ≡ None)) }
{
    let answering = (options.workers / 4).max(1);
    let readers = (options.workers - answering).max(1);
    let crew = CrewAnalyst::new(rt, alloc, suppressions, options, answering)?;
    let inspection = Inspection::new(alloc, looks_for_damage(options));
    let all = Pair {
        first: crew,
        second: inspection,
    };
    match analyse(rt, alloc, reader, shortcut, options, readers, all, watcher) {
        Ok(found) => end_crew(found, options),
        Err(why) => Err(RunFault::Read(why)),
    }
}

// The report of the text that was read, or its damage, if the replay is strict and there is any, or why the workers have stopped.
fn end_crew(
    found: Analysed<Pair<CrewAnalyst<'_>, Inspection>>,
    options: &Options,
) -> Result<ReplayedTrace, RunFault>
    ensures outcome { (asked : Asked) (told : Option (List ℕ)) (limit : ℕ) → asked.analysis ≡ Lockset → (asked.strict ≡ true → options.now.part ≡ None) → IsAnswered (λ r. CrewStands found.entry.analyst.first found.entry.analyst.second.inspector asked r × HasCounted options.now.part found.entry.of_pages r.steps) options.now.part told limit found.entry.trace.names
        → IfSome told (λ text. IsEndingOf text found.entry.ending) → IsOutcomeOf options.now.part told limit asked result }
    ensures failed { FailsBy false false result }
    ensures whole { IfOk result (λ found. IfSome found.reports.lockset (λ report. report.stop ≡ None)) }
{
    let Analysed {
        analyst,
        trace,
        ending,
        of_pages,
    } = found;
    let Pair {
        first: crew,
        second: inspection,
    } = analyst;
    let damage = inspection.damage(ending);
    drop(inspection);
    if let Some(damage) = damage {
        drop(crew);
        drop(trace);
        return Err(RunFault::Damaged(damage));
    }
    match crew.finish() {
        Ok(report) => {
            let reports = Reports {
                lockset: Some(report),
                unordered: None,
            };
            Ok(outcome(reports, options, of_pages, false, trace, ending))
        }
        Err(why) => {
            drop(trace);
            Err(RunFault::from(why))
        }
    }
}

/// The reports of a replay by one worker that forgets the steps, with reasons if they are asked for.
pub(crate) fn reports_by_one<R: Threads + Wait + Sync, D: Read, S: Shortcut<D>, V: Watch>(
    rt: &R,
    alloc: Global,
    reader: &mut Device<D>,
    shortcut: &S,
    suppressions: &Suppressions,
    options: &Options,
    analysis: Analysis,
    watcher: &mut V,
) -> Result<ReplayedTrace, RunFault>
    requires reader { has_failed reader.old ≡ false }
    ensures replay { IsReplayOf (D.remaining (inner_of reader.old)) (S.touches (inner_of reader.old)) options.now (targets_of suppressions.now) analysis (taken_of reader.old) (taken_of reader.new) (has_failed reader.new) result }
    ensures alone { is_unstopped options.now.part analysis ≡ false → IfErr result IsOfReading }
    ensures one { asks_order analysis ≡ false → IfErr result IsOfOneWorker }
{
    let all = analysts_of(alloc, suppressions, options, analysis)?;
    let readers = options.workers;
    match analyse(rt, alloc, reader, shortcut, options, readers, all, watcher) {
        Ok(found) => end(found, options),
        Err(why) => Err(RunFault::Read(why)),
    }
}

// Whether damage is looked for: a replay of a part looks for none.
fn looks_for_damage(options: &Options) -> bool
    ensures { result ≡ looks_for_damage options.now }
{
    options.strict && options.part.is_none()
}

// What answers the steps of such a request, before any step.
fn analysts_of<'r>(
    alloc: Global,
    suppressions: &'r Suppressions,
    options: &Options,
    analysis: Analysis,
) -> Result<Analysts<'r>, AllocError>
    ensures stands { (asked : Asked) → asked.analysis ≡ analysis → asked.rules ≡ targets_of suppressions.now → asked.explain ≡ options.now.explain → asked.strict ≡ looks_for_damage options.now
        → IfOk result (λ all. AllStand all.first.first all.first.second all.second.inspector asked no_steps) }
{
    let lockset = lockset_if(alloc, suppressions, options, analysis)?;
    let ordering = ordering_if(alloc, suppressions, options, analysis)?;
    Ok(Pair {
        first: Pair {
            first: lockset,
            second: ordering,
        },
        second: Inspection::new(alloc, looks_for_damage(options)),
    })
}

// The lockset rule, if it is asked for.
fn lockset_if<'r>(
    alloc: Global,
    suppressions: &'r Suppressions,
    options: &Options,
    analysis: Analysis,
) -> Result<Option<LocksetAnalyst<'r>>, AllocError>
    ensures stands { (asked : Asked) → asked.analysis ≡ analysis → asked.rules ≡ targets_of suppressions.now → asked.explain ≡ options.now.explain
        → IfOk result (λ lockset. StandsIf (λ (one : Ran). HasRunFor one asked no_steps) (asks_locks asked.analysis) lockset) }
{
    if !analysis.asks_locks() {
        return Ok(None);
    }
    let lockset = LocksetAnalyst::new(alloc, suppressions, options)?;
    Ok(Some(lockset))
}

// Happens-before, if it is asked for.
fn ordering_if<'r>(
    alloc: Global,
    suppressions: &'r Suppressions,
    options: &Options,
    analysis: Analysis,
) -> Result<Option<OrderAnalyst<'r>>, AllocError>
    ensures stands { (asked : Asked) → asked.analysis ≡ analysis → asked.rules ≡ targets_of suppressions.now → asked.explain ≡ options.now.explain
        → IfOk result (λ ordering. StandsIf (λ (one : OrderRan). HasOrdered one asked no_steps) (asks_order asked.analysis) ordering) }
{
    if !analysis.asks_order() {
        return Ok(None);
    }
    let ordering = OrderAnalyst::new(alloc, suppressions, options.explain, options.keys)?;
    Ok(Some(ordering))
}

// The reports of the text that was read, or its damage, if the replay is strict and there is any, or why an analysis has stopped.
fn end(found: Analysed<Analysts<'_>>, options: &Options) -> Result<ReplayedTrace, RunFault>
    ensures outcome { (asked : Asked) (told : Option (List ℕ)) (limit : ℕ) → (asked.strict ≡ true → options.now.part ≡ None) → IsAnswered (λ r. AllStand found.entry.analyst.first.first found.entry.analyst.first.second found.entry.analyst.second.inspector asked r × HasCounted options.now.part found.entry.of_pages r.steps) options.now.part told limit found.entry.trace.names
        → IfSome told (λ text. IsEndingOf text found.entry.ending) → IsOutcomeOf options.now.part told limit asked result }
    ensures alone { options.now.part ≡ None → is_some found.entry.analyst.first.second ≡ false → IfErr result IsOfReading }
    ensures one { is_some found.entry.analyst.first.second ≡ false → IfErr result IsOfOneWorker }
    ensures failed { FailsBy false false result }
{
    let Analysed {
        analyst,
        trace,
        ending,
        of_pages,
    } = found;
    let Pair {
        first,
        second: inspection,
    } = analyst;
    let damage = inspection.damage(ending);
    drop(inspection);
    if let Some(damage) = damage {
        drop(first);
        drop(trace);
        return Err(RunFault::Damaged(damage));
    }
    match reports_of(first, options) {
        Ok((reports, has_order)) => {
            Ok(outcome(reports, options, of_pages, has_order, trace, ending))
        }
        Err(why) => {
            drop(trace);
            Err(why)
        }
    }
}

// The reports of the steps that were answered, and whether one of these is an order event, or why they weren't all answered.
fn reports_of(
    analysts: Pair<Option<LocksetAnalyst<'_>>, Option<OrderAnalyst<'_>>>,
    options: &Options,
) -> Result<(Reports, bool), RunFault>
    ensures built { (asked : Asked) (r : Recording) → StandsIf (λ (one : Ran). HasRunFor one asked r) (asks_locks asked.analysis) analysts.entry.first → StandsIf (λ (one : OrderRan). HasOrdered one asked r) (asks_order asked.analysis) analysts.entry.second
        → IfOk result (λ found. AreBuilt options.now.part asked r found.0 found.1) }
    ensures fault { (asked : Asked) (told : Option (List ℕ)) (limit : ℕ) (r : Recording) → IfSome told (λ text. IsPartOf options.now.part text limit r)
        → StandsIf (λ (one : Ran). HasRunFor one asked r) (asks_locks asked.analysis) analysts.entry.first → StandsIf (λ (one : OrderRan). HasOrdered one asked r) (asks_order asked.analysis) analysts.entry.second
        → IfErr result (λ why. IsFaultOfText options.now.part asked.analysis told limit why) }
    ensures alone { options.now.part ≡ None → is_some analysts.entry.second ≡ false → IsOk result }
    ensures one { is_some analysts.entry.second ≡ false → IfErr result IsOfOneWorker }
    ensures failed { FailsBy false false result }
    ensures undamaged { IfErr result IsNoDamage }
{
    let Pair {
        first: lockset,
        second: ordering,
    } = analysts;
    let beside = ordering.is_some();
    let unstopped = is_unstopped(options, beside);
    let (unordered, has_order) = match order_report(ordering) {
        Ok(found) => found,
        Err(why) => {
            drop(lockset);
            return Err(why);
        }
    };
    match run_report(lockset, unstopped) {
        Ok(lockset) => Ok((Reports { lockset, unordered }, has_order)),
        Err(why) => {
            drop(unordered);
            Err(why)
        }
    }
}

// Whether a stop of the lockset rule is a fault: of a part, or beside another report.
fn is_unstopped(options: &Options, beside: bool) -> bool
    ensures { result ≡ (is_some options.now.part || beside) }
{
    options.part.is_some() || beside
}

// The report by happens-before, if it is asked for, and whether some step is an order event.
fn order_report(ordering: Option<OrderAnalyst<'_>>) -> Result<(Option<Report>, bool), RunFault>
    ensures built { (asked : Asked) (r : Recording) → StandsIf (λ (one : OrderRan). HasOrdered one asked r) (asks_order asked.analysis) ordering.entry
        → IfOk result (λ found. IsOrderBuilt asked r found.0 found.1) }
    ensures fault { (part : Option PartView) (asked : Asked) (told : Option (List ℕ)) (limit : ℕ) (r : Recording) → IfSome told (λ text. IsPartOf part text limit r)
        → StandsIf (λ (one : OrderRan). HasOrdered one asked r) (asks_order asked.analysis) ordering.entry → IfErr result (λ why. IsFaultOfText part asked.analysis told limit why) }
    ensures alone { is_some ordering.entry ≡ false → IsOk result }
    ensures failed { FailsBy false false result }
    ensures undamaged { IfErr result IsNoDamage }
{
    let Some(ordering) = ordering else {
        return Ok((None, false));
    };
    let has_order = ordering.has_order();
    match ordering.finish() {
        Ok(report) => Ok((Some(report), has_order)),
        Err(why) => Err(RunFault::from(why)),
    }
}

// The report by the lockset rule, if it is asked for. Of a part, or beside another report, a run that has stopped is a fault.
fn run_report(
    lockset: Option<LocksetAnalyst<'_>>,
    unstopped: bool,
) -> Result<Option<Report>, RunFault>
    ensures built { (part : Option PartView) (asked : Asked) (r : Recording) → is_unstopped part asked.analysis ≡ unstopped → StandsIf (λ (one : Ran). HasRunFor one asked r) (asks_locks asked.analysis) lockset.entry
        → IfOk result (λ report. IsRunBuilt part asked r report) }
    ensures fault { (part : Option PartView) (asked : Asked) (told : Option (List ℕ)) (limit : ℕ) (r : Recording) → IfSome told (λ text. IsPartOf part text limit r) → is_unstopped part asked.analysis ≡ unstopped
        → StandsIf (λ (one : Ran). HasRunFor one asked r) (asks_locks asked.analysis) lockset.entry → IfErr result (λ why. IsFaultOfText part asked.analysis told limit why) }
    ensures alone { unstopped ≡ false → IsOk result }
    ensures one { IfErr result IsOfOneWorker }
    ensures failed { FailsBy false false result }
    ensures undamaged { IfErr result IsNoDamage }
{
    let Some(lockset) = lockset else {
        return Ok(None);
    };
    match cause_if(unstopped, lockset.stop()) {
        Some(cause) => {
            drop(lockset);
            Err(RunFault::from(cause))
        }
        None => Ok(Some(lockset.finish())),
    }
}

// Why a run has stopped, if that is a fault.
fn cause_if(unstopped: bool, stop: Option<(u64, NoRoom)>) -> Option<NoRoom>
    ensures some { (cause : Room) → result ≡ Some cause → (unstopped ≡ true) × ((line : ℕ) × (stop ≡ Some (line, cause))) }
    ensures none { result ≡ None → unstopped ≡ true → stop ≡ None }
{
    match stop {
        Some((_, cause)) => { if unstopped { Some(cause) } else { None } }
        None => None,
    }
}
