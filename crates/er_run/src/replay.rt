//! Bytes in, reports out.
ghost use Rattle.std.specs.Prelude.{◌≡◌, ◌+◌, ◌≤◌, ◌<◌, false, true, IfSome, IfOk, IfErr, OnOk, IsTrue, IsFalse, None, is_some};
ghost use Rattle.er_damage.specs.Damaged.{IsDamageOf, no_damage};
ghost use Rattle.er_device.specs.Device.{inner_of, has_failed, taken_of};
ghost use Rattle.er_print.specs.Printed.{report_text};
ghost use Rattle.er_report.specs.Report.{told};
ghost use Rattle.er_report.specs.Reports.{HaveNames, asks_locks, asks_order};
ghost use Rattle.er_report.specs.declared.reports.Analysis.TheVariants.{Lockset};
ghost use Rattle.er_rules.specs.Rules.{targets_of};
ghost use Rattle.er_batch.specs.Limits.{bytes_past_limit};
ghost use Rattle.er_run.specs.Faults.{FailsBy, IsFaultOfText, IsNoDamage, IsOfOneWorker, IsOfReading, looks_for_damage};
ghost use Rattle.er_run.specs.Inner.Written.{WritesFound};
ghost use Rattle.er_run.specs.Replays.{IsReplayed, IsFailed, WritesNothing, is_stopped};
ghost use Rattle.er_run.specs.Reports.{AreReportsOfText, IsOrderOfText, has_races, is_unstopped, is_verdict_of, stop_in};
ghost use Rattle.er_text.specs.Ending.{IsEndingOf};

use crate::outcome::ReplayedTrace;
use crate::passes::{report_by_crew, reports_by_one};
use crate::{Options, RunFault, Unwatched, Verdict, Watch};
use er_device::Device;
use er_lines::{ByText, Shortcut};
use er_print::write_report;
use er_report::{Analysis, Report, Reports};
use er_rules::Suppressions;
use std::alloc::Global;
use std::io::{Read, Write};
use std::sync::Wait;
use std::thread::Threads;

/// Reads a trace text, replays it by the lockset rule, and writes its report, without the races that the rules take.
///
/// The text is read to its end and the report built whole before the first byte is written, as by [`replay_reports`]. One worker stops at
/// a step that is refused for want of room, and the report says so. Several workers write what one worker writes, and never such a report:
/// they return a fault instead, and so does a replay of a part. A strict replay of a damaged trace returns its damage, and writes nothing.
pub fn replay_text<R, D, W>(
    rt: &R,
    reader: &mut Device<D>,
    writer: &mut Device<W>,
    suppressions: &Suppressions,
    options: &Options,
) -> Result<Verdict, RunFault>
where
    R: AllocGlobal + Threads + Wait + Sync,
    D: Read,
    W: Write,
    requires reader { has_failed reader.old ≡ false }
    requires writer { has_failed writer.old ≡ false }
    ensures report { IfOk result (λ verdict. IfSome (D.remaining (inner_of reader.old)) (λ text. IsReplayed options.now.part text options.now.byte_limit (targets_of suppressions.now) options.now.explain (W.contents (inner_of writer.old)) (W.contents (inner_of writer.new)) verdict)) }
    ensures fault { IsFailed options.now.part (D.remaining (inner_of reader.old)) options.now.byte_limit (targets_of suppressions.now) options.now.explain (W.contents (inner_of writer.old)) (W.contents (inner_of writer.new)) result }
    ensures undamaged { IsTrue (looks_for_damage options.now) → OnOk result (IfSome (D.remaining (inner_of reader.old)) (λ text. IsDamageOf text options.now.byte_limit no_damage)) }
    ensures lenient { IsFalse (looks_for_damage options.now) → IfErr result IsNoDamage }
    ensures nothing { IfErr result (λ why. WritesNothing (W.contents (inner_of writer.old)) (W.contents (inner_of writer.new)) why) }
    ensures failed { FailsBy (has_failed reader.new) (has_failed writer.new) result }
    ensures taken { taken_of reader.new ≤ taken_of reader.old + options.now.byte_limit + bytes_past_limit }
    ensures whole { 1 < options.now.workers → IfOk result (λ verdict. IsFalse (is_stopped verdict)) }
    ensures unstopped { is_some options.now.part ≡ true → IfOk result (λ verdict. IsFalse (is_stopped verdict)) }
{
    let alloc = rt.alloc();
    match replay_reports(
        rt,
        alloc,
        reader,
        &ByText,
        suppressions,
        options,
        Analysis::Lockset,
        &mut Unwatched,
    ) {
        Ok(found) => {
            let verdict = write_found(alloc, writer, &found);
            drop(found);
            verdict
        }
        Err(why) => Err(why),
    }
}

// Writes the report of the lockset rule, if there is one, and says what the reports come to.
fn write_found<W: Write>(
    alloc: Global,
    writer: &mut Device<W>,
    found: &ReplayedTrace,
) -> Result<Verdict, RunFault>
    requires writer { has_failed writer.old ≡ false }
    requires named { HaveNames found.now.trace.names found.now.reports }
    ensures verdict { IfOk result (λ verdict. verdict ≡ is_verdict_of found.now.reports) }
    ensures bytes { IfSome found.now.reports.lockset (λ report. WritesFound (W.contents (inner_of writer.old)) (W.contents (inner_of writer.new)) (report_text found.now.trace.names (told report)) result) }
    ensures failed { FailsBy false (has_failed writer.new) result }
    ensures undamaged { IfErr result IsNoDamage }
{
    match &found.reports.lockset {
        Some(report) => match write_report(alloc, writer, report, found.trace.names()) {
            Ok(()) => Ok(verdict_of(&found.reports)),
            Err(why) => Err(RunFault::Write(why)),
        },
        None => Ok(verdict_of(&found.reports)),
    }
}

/// Reads a trace text and replays it by these analyses, in one pass. Nothing is written: what is made of the reports starts here.
///
/// The text is read to its end, and the steps of each batch of lines are forgotten once they are answered, so that memory goes by the words,
/// the names and the lines of the reports. With `explain` each race that is printed has its reasons, and each word has a book of the
/// accesses that a reason may name. A strict replay of a damaged trace returns its damage. A replay of a part looks for none. Of a part, and
/// beside a report by happens-before, the report of the lockset rule is whole: a step that finds no room is a fault.
///
/// By the lockset rule alone a quarter of several workers, but at least one, answer a batch while the others read the next one; by another
/// analysis all of them read, and one answers. The shortcut may have lines ready: if it has most of them ready, one thread takes them. Happens-before goes
/// by the bytes that the shortcut says accesses touch. The watcher is told behind each batch how far the replay has come, and called once more at the
/// end. What it does changes nothing of what is returned.
///
/// # Errors
/// `Read`: the text has a fault, a read failed, or memory was refused to the reader or to a step. `Replay`: a worker needs more locksets than it may keep, or
/// a worker couldn't be started. `Beyond`: happens-before has no room for a step. `Damaged`: the trace is, and the replay is
/// strict. `Memory`: memory was refused elsewhere. Never `Write`.
pub fn replay_reports<R, D, S, V>(
    rt: &R,
    alloc: Global,
    reader: &mut Device<D>,
    shortcut: &S,
    suppressions: &Suppressions,
    options: &Options,
    analysis: Analysis,
    watcher: &mut V,
) -> Result<ReplayedTrace, RunFault>
where
    R: Threads + Wait + Sync,
    D: Read,
    S: Shortcut<D>,
    V: Watch,
    requires reader { has_failed reader.old ≡ false }
    ensures reports { IfOk result (λ found. IfSome (D.remaining (inner_of reader.old)) (λ text. AreReportsOfText options.now.part analysis text (S.touches (inner_of reader.old)) options.now.byte_limit (targets_of suppressions.now) options.now.explain found.trace.names found.reports)) }
    ensures asked { IfOk result (λ found. (is_some found.reports.lockset ≡ asks_locks analysis) × (is_some found.reports.unordered ≡ asks_order analysis)) }
    ensures named { IfOk result (λ found. HaveNames found.trace.names found.reports) }
    ensures ending { IfOk result (λ found. IfSome (D.remaining (inner_of reader.old)) (λ text. IsEndingOf text found.ending)) }
    ensures order { IfOk result (λ found. IfSome (D.remaining (inner_of reader.old)) (λ text. IsOrderOfText options.now.part analysis text options.now.byte_limit found.has_order)) }
    ensures fault { IfErr result (λ why. IsFaultOfText options.now.part analysis (D.remaining (inner_of reader.old)) options.now.byte_limit why) }
    ensures undamaged { IsTrue (looks_for_damage options.now) → OnOk result (IfSome (D.remaining (inner_of reader.old)) (λ text. IsDamageOf text options.now.byte_limit no_damage)) }
    ensures lenient { IsFalse (looks_for_damage options.now) → IfErr result IsNoDamage }
    ensures failed { FailsBy (has_failed reader.new) false result }
    ensures taken { taken_of reader.new ≤ taken_of reader.old + options.now.byte_limit + bytes_past_limit }
    ensures whole { 1 < options.now.workers → IfOk result (λ found. IfSome found.reports.lockset (λ report. report.stop ≡ None)) }
    ensures unstopped { is_unstopped options.now.part analysis ≡ true → IfOk result (λ found. IfSome found.reports.lockset (λ report. report.stop ≡ None)) }
    ensures alone { options.now.workers ≡ 1 → options.now.part ≡ None → analysis ≡ Lockset → IfErr result IsOfReading }
    ensures one { options.now.workers ≡ 1 → analysis ≡ Lockset → IfErr result IsOfOneWorker }
{
    let found = if options.workers > 1 && !analysis.asks_order() {
        let rules = suppressions;
        report_by_crew(rt, alloc, reader, shortcut, rules, options, watcher)
    } else {
        reports_by_one(
            rt,
            alloc,
            reader,
            shortcut,
            suppressions,
            options,
            analysis,
            watcher,
        )
    };
    watcher.end();
    found
}

/// What reports come to: `Stopped` if the run of the lockset rule has, and else whether some report has a race.
pub fn verdict_of(reports: &Reports) -> Verdict
    ensures { result ≡ is_verdict_of reports.now }
{
    if has_stopped(&reports.lockset) {
        Verdict::Stopped
    } else if has_races(&reports.unordered) || has_races(&reports.lockset) {
        Verdict::Races
    } else {
        Verdict::Clean
    }
}

// Whether there is a report and it says that the run has stopped.
fn has_stopped(report: &Option<Report>) -> bool
    ensures { result ≡ is_some (stop_in report.now) }
{
    matches!(report, Some(report) if report.stop.is_some())
}

// Whether there is a report and it has races.
fn has_races(report: &Option<Report>) -> bool
    ensures { result ≡ has_races report.now }
{
    matches!(report, Some(report) if report.races > 0)
}
