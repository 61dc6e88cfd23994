//! The report of a whole run.
ghost use Rattle.std.specs.Prelude.{◌≡◌, ◌<◌, [], All, is_some, length, IfOk, IfSome, OnOk};
ghost use Rattle.er_model.specs.Answers.{answers};
ghost use Rattle.er_report.specs.Builder.{IsReported};
ghost use Rattle.er_report.specs.Names.{HasNames};
ghost use Rattle.er_report.specs.Report.{told, report_of, answered_steps, stop_line};
ghost use Rattle.er_rules.specs.Rules.{targets_of};

use crate::{Made, Report, ReportBuilder};
use er_event::NoRoom;
use er_explain::cover_in;
use er_held::ThreadLocks;
use er_journal::{Outcome, Stopped};
use er_keys::HashKeys;
use er_rules::Suppressions;
use er_trace::Trace;
use std::alloc::{AllocError, Global};

/// The report of a run of a trace's steps, which may have stopped at one of them. A race that a rule takes has no line and counts
/// for the first such rule. With `explain` each race that has a line has its reasons.
pub fn summarise(
    alloc: Global,
    trace: &Trace,
    outcome: &Outcome,
    suppressions: &Suppressions,
    explain: bool,
) -> Result<Report, AllocError>
    requires stop { IfSome outcome.now.stopped (λ stop. stop.at < length trace.now.steps) }
    requires answers { outcome.now.answers ≡ answers (answered_steps trace.now.steps outcome.now.stopped) }
    ensures report { IfOk result (λ report. told report ≡ report_of trace.now (targets_of suppressions.now) explain outcome.now.stopped) }
    ensures named { IfOk result (λ report. All (HasNames trace.now.names) report.lines.items) }
{
    let mut builder = ReportBuilder::explaining_keyed(
        alloc,
        suppressions,
        explain,
        HashKeys::KNOWN,
    )?;
    let mut locks = ThreadLocks::new(alloc);
    let added = add_steps(alloc, trace, outcome, &mut builder, &mut locks);
    drop(locks);
    match added {
        Ok(()) => {
            prove!(trace.lines().len() == trace.steps().len());
            prove!(trace.sites().len() == trace.lines().len());
            Ok(builder.finish_explained(stop_line(trace, outcome.stopped)))
        }
        Err(refused) => {
            drop(builder);
            Err(refused)
        }
    }
}

// The line of the step at which a run stopped, and why.
fn stop_line(trace: &Trace, stopped: Option<Stopped>) -> Option<(u64, NoRoom)>
    requires { IfSome stopped (λ stop. stop.at < length trace.now.steps) }
    ensures { result ≡ stop_line trace.now stopped }
{
    let Stopped { at, cause } = stopped?;
    Some((trace.lines()[at as usize], cause))
}

// Adds the steps that were answered to a report that has none yet. Before the first step no thread holds a lock.
fn add_steps(
    alloc: Global,
    trace: &Trace,
    outcome: &Outcome,
    builder: &mut ReportBuilder<'_>,
    locks: &mut ThreadLocks,
) -> Made<()>
    requires answers { outcome.now.answers ≡ answers (answered_steps trace.now.steps outcome.now.stopped) }
    requires begun { IsReported builder.old trace.now 0 }
    requires locks { locks.old ≡ [] }
    ensures reported { OnOk result (IsReported builder.new trace.now (length (answered_steps trace.now.steps outcome.now.stopped))) }
    ensures rules { OnOk result (builder.new.rules ≡ builder.old.rules) }
    ensures explains { OnOk result (is_some builder.new.kept ≡ is_some builder.old.kept) }
{
    for (k, step) in trace.steps().iter().enumerate() {
        let Some(answer) = outcome.answers.get(k) else {
            break;
        };
        let (names, line, site) = (trace.names(), trace.lines()[k], trace.sites()[k]);
        let held = locks.get(step.thread);
        builder.add(names, line, site, step, answer, held.held())?;
        builder.explain(line, step, cover_in(held, step.event))?;
        locks.follow(alloc, step)?;
    }
    Ok(())
}
