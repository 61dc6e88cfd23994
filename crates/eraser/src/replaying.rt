//! One replay: a trace in, its reports out as they are asked for.
ghost use Rattle.std.specs.Prelude.{◌≡◌, ◌++◌, ℕ, List, Option, false, IsSome, is_some, IfOk, IfErr, IfSome, None, Err};
ghost use Rattle.er_device.specs.Device.{inner_of, has_failed};
ghost use Rattle.er_batch.specs.declared.verdict.Verdict.TheVariants.{Stopped};
ghost use Rattle.er_exit.specs.declared.faults.Fault.TheVariants.{WriteRules};
ghost use Rattle.er_exit.specs.Notes.{HasAdded};
ghost use Rattle.er_exit.specs.Writes.{LeavesOutput};
ghost use Rattle.er_lines.specs.declared.ready.Touch.{Touch as Touching};
ghost use Rattle.er_print.specs.Written.{FailsWriting, WritesReport};
ghost use Rattle.er_print.specs.declared.report.WriteFault.TheVariants.{Memory};
ghost use Rattle.er_report.specs.Reports.{HaveNames, asks_locks, asks_order};
ghost use Rattle.er_rules.specs.Rules.{targets_of};
ghost use Rattle.er_run.specs.Reports.{AreReportsOfText, IsOrderOfText, is_verdict_of};
ghost use Rattle.er_text.specs.Ending.{IsEndingOf};
ghost use Rattle.eraser.specs.Faults.{replay_fault};
ghost use Rattle.eraser.specs.Inner.Writes.{WritesSome};
ghost use Rattle.eraser.specs.Notes.{notes_on};
ghost use Rattle.eraser.specs.Replays.{AreShown, EndsAs, FailsAs, FailsBy, IsEndOf, IsRunAs, unordered_of, verdict_status};

use crate::places::{excerpts_of, places_of, without_known};
use er_device::Device;
use er_exit::{Fault, TextNotes, add_notes};
use er_forms::render;
use er_lines::Shortcut;
use er_parallel::ReplayFault;
use er_print::WriteFault;
use er_report::Reports;
use er_request::Replay;
use er_rules::Suppressions;
use er_run::{Options, ReplayedTrace, RunFault, Verdict, Watch, replay_reports, verdict_of};
use er_text::Ending;
use er_trace::Names;
use er_triage::{Triaged, Wishes, triage};
use std::alloc::{AllocError, Global};
use std::fs::File;
use std::io::{Read, Write};
use std::rt::Files;
use std::sync::Wait;
use std::thread::Threads;

/// What is replayed, under which rules and by which options.
#[derive(Clone, Copy)]
pub(crate) struct Job<'a> {
    pub(crate) replay: &'a Replay<'a>,
    pub(crate) suppressions: &'a Suppressions,
    pub(crate) options: &'a Options,
    /// What comes before the report.
    pub(crate) heading: &'a [u8],
}

/// What a replay came to that wrote its reports.
#[derive(Drop)]
pub(crate) struct Ended {
    /// The exit status.
    pub(crate) status: u8,
    /// Lines for standard error that were asked for.
    pub(crate) notes: Vec<u8>,
    /// How the text ended.
    pub(crate) ending: Ending,
    /// How many accesses and reuses are unordered, if the trace records no order, and else 0.
    pub(crate) unordered: u64,
}

/// Replays what the reader gives, writes the reports as they are asked for, and then the file of rules, unless the replay stopped.
pub(crate) fn replay_from<R, D, S, O, V>(
    rt: &R,
    job: Job<'_>,
    source: &mut Device<D>,
    ready: &S,
    output: &mut Device<O>,
    watcher: &mut V,
) -> Result<Ended, Fault>
where
    R: Files + AllocGlobal + Threads + Wait + Sync,
    D: Read,
    S: Shortcut<D>,
    O: Write,
    V: Watch,
    requires source { has_failed source.old ≡ false }
    requires output { has_failed output.old ≡ false }
    ensures end { IfOk result (IsEndOf job.entry.replay.now) }
    ensures text { IfOk result (λ ended. IfSome (D.remaining (inner_of source.old)) (λ text. IsEndingOf text ended.ending)) }
    ensures ends { IsRunAs job.entry.replay.now job.entry.options.now job.entry.heading.now → IfOk result (λ ended. IfSome (D.remaining (inner_of source.old)) (λ text. EndsAs R.File.remaining job.entry.replay.now text (S.touches (inner_of source.old)) job.entry.options.now.byte_limit (targets_of job.entry.suppressions.now) (O.contents (inner_of output.old)) (O.contents (inner_of output.new)) ended)) }
    ensures fails { IsRunAs job.entry.replay.now job.entry.options.now job.entry.heading.now → IfErr result (λ why. IfSome (D.remaining (inner_of source.old)) (λ text. FailsAs R.File.remaining job.entry.replay.now text (S.touches (inner_of source.old)) job.entry.options.now.byte_limit (targets_of job.entry.suppressions.now) (O.contents (inner_of output.old)) (O.contents (inner_of output.new)) why)) }
    ensures nothing { IfErr result (LeavesOutput (O.contents (inner_of output.old)) (O.contents (inner_of output.new))) }
    ensures failed { FailsBy (has_failed source.new) (has_failed output.new) result }
{
    let (alloc, rules) = (rt.alloc(), job.suppressions);
    let (options, analysis) = (job.options, job.replay.analysis);
    match replay_reports(rt, alloc, source, ready, rules, options, analysis, watcher) {
        Ok(
            ReplayedTrace {
                reports,
                trace,
                ending,
                has_order,
            },
        ) => {
            let ended = deliver(rt, job, reports, trace.names(), ending, has_order, output);
            drop(trace);
            ended
        }
        Err(why) => Err(fault_of(why)),
    }
}

/// The notes that were asked for, and those on the text, some of them for people alone. Without memory these are missing.
pub(crate) fn notes_of(alloc: Global, ended: Ended, hints: bool) -> Vec<u8>
    ensures { HasAdded ended.notes.items result.items (notes_on hints ended.ending ended.unordered) }
{
    let (ending, unordered) = (ended.ending, ended.unordered);
    let Ended { mut notes, .. } = ended;
    let is_counted = ending.is_text_3 || hints;
    let added = TextNotes {
        no_end: ending.is_open,
        no_line_feed: ending.is_cut && hints,
        unordered: if is_counted { unordered } else { 0 },
    };
    add_notes(alloc, &mut notes, added);
    notes
}

// What stands for a fault of a replay.
fn fault_of(fault: RunFault) -> Fault
    ensures { result ≡ replay_fault fault }
{
    match fault {
        RunFault::Read(fault) => Fault::of_trace(fault),
        RunFault::Write(WriteFault::Memory)
        | RunFault::Replay(ReplayFault::Memory)
        | RunFault::Memory => Fault::Memory,
        RunFault::Write(WriteFault::Write) => Fault::Write,
        RunFault::Replay(ReplayFault::TableFull) => Fault::TableFull,
        RunFault::Replay(ReplayFault::WorkerNotStarted) => Fault::WorkerNotStarted,
        RunFault::Replay(ReplayFault::WorkerLost) => Fault::WorkerLost,
        RunFault::Beyond(limit) => Fault::Beyond(limit),
        RunFault::Damaged(damage) => Fault::Damaged(damage),
    }
}

// Writes the reports of a trace as they are asked for, and then the file of rules.
fn deliver<R: Files + AllocGlobal, O: Write>(
    rt: &R,
    job: Job<'_>,
    reports: Reports,
    names: &Names,
    ending: Ending,
    has_order: bool,
    output: &mut Device<O>,
) -> Result<Ended, Fault>
    requires output { has_failed output.old ≡ false }
    requires named { HaveNames names.now reports }
    requires locks { is_some reports.lockset ≡ asks_locks job.replay.now.analysis }
    requires order { is_some reports.unordered ≡ asks_order job.replay.now.analysis }
    ensures end { IfOk result (IsEndOf job.entry.replay.now) }
    ensures text { IfOk result (λ ended. ended.ending ≡ ending) }
    ensures ends { IsRunAs job.entry.replay.now job.entry.options.now job.entry.heading.now → (text : List ℕ) (touches : Option (List Touching)) → AreReportsOfText job.entry.replay.now.part job.entry.replay.now.analysis text touches job.entry.options.now.byte_limit (targets_of job.entry.suppressions.now) job.entry.replay.now.explain names.now reports
        → IsEndingOf text ending → IsOrderOfText job.entry.replay.now.part job.entry.replay.now.analysis text job.entry.options.now.byte_limit has_order → IfOk result (EndsAs R.File.remaining job.entry.replay.now text touches job.entry.options.now.byte_limit (targets_of job.entry.suppressions.now) (O.contents (inner_of output.old)) (O.contents (inner_of output.new))) }
    ensures fails { IsRunAs job.entry.replay.now job.entry.options.now job.entry.heading.now → (text : List ℕ) (touches : Option (List Touching)) → AreReportsOfText job.entry.replay.now.part job.entry.replay.now.analysis text touches job.entry.options.now.byte_limit (targets_of job.entry.suppressions.now) job.entry.replay.now.explain names.now reports
        → IfErr result (FailsAs R.File.remaining job.entry.replay.now text touches job.entry.options.now.byte_limit (targets_of job.entry.suppressions.now) (O.contents (inner_of output.old)) (O.contents (inner_of output.new))) }
    ensures nothing { IfErr result (LeavesOutput (O.contents (inner_of output.old)) (O.contents (inner_of output.new))) }
    ensures failed { FailsBy false (has_failed output.new) result }
{
    let reports = without_known(rt, job, reports)?;
    let unordered = unordered_of(&reports, has_order);
    let wishes = Wishes {
        known_races: job.replay.write_rules.is_some(),
        unused_rules: job.replay.unused_rules,
        max_races: job.replay.max_races,
    };
    let Ok(triaged) = triage(rt.alloc(), reports, names, job.suppressions, wishes) else {
        return Err(Fault::Memory);
    };
    match write_reports(rt, job, &triaged.reports, names, output) {
        Ok(()) => finish(rt, job.replay.write_rules, triaged, ending, unordered),
        Err(fault) => {
            drop(triaged);
            Err(fault)
        }
    }
}

// How many accesses and reuses are unordered, if the trace records no order, and else 0.
fn unordered_of(reports: &Reports, has_order: bool) -> u64
    ensures { result ≡ unordered_of has_order reports.now }
{
    match &reports.unordered {
        Some(report) if !has_order => report.races,
        _ => 0,
    }
}

// Writes the reports in the form that is asked for, with the places and the lines of source files that are shown and found.
fn write_reports<R: Files + AllocGlobal, O: Write>(
    rt: &R,
    job: Job<'_>,
    reports: &Reports,
    names: &Names,
    output: &mut Device<O>,
) -> Result<(), Fault>
    requires output { has_failed output.old ≡ false }
    requires named { HaveNames names.now reports.now }
    ensures nothing { IfErr result (LeavesOutput (O.contents (inner_of output.old)) (O.contents (inner_of output.new))) }
    ensures failed { FailsBy false (has_failed output.new) result }
    ensures shown { IsRunAs job.entry.replay.now job.entry.options.now job.entry.heading.now → WritesSome (AreShown R.File.remaining job.entry.replay.now job.entry.options.now.byte_limit names.now (targets_of job.entry.suppressions.now) reports.now) (O.contents (inner_of output.old)) (O.contents (inner_of output.new)) result }
{
    let excerpts = excerpts_of(rt, job.replay.source, reports, names)?;
    let places = places_of(rt, job, reports);
    let (form, rules) = (job.replay.form, job.suppressions);
    let text = render(rt.alloc(), form, reports, names, &places, rules, &excerpts);
    drop(places);
    drop(excerpts);
    match write_headed(output, job.heading, text) {
        Ok(()) => Ok(()),
        Err(WriteFault::Memory) => Err(Fault::Memory),
        Err(WriteFault::Write) => Err(Fault::Write),
    }
}

// Writes a text behind its heading, unless there was no memory for it.
fn write_headed<O: Write>(
    output: &mut Device<O>,
    heading: &[u8],
    text: Result<Vec<u8>, AllocError>,
) -> Result<(), WriteFault>
    requires open { has_failed output.old ≡ false }
    ensures bytes { (bytes : List ℕ) → IfOk text (λ text. text.items ≡ bytes) → WritesReport (O.contents (inner_of output.old)) (O.contents (inner_of output.new)) (heading.now ++ bytes) result }
    ensures memory { IfErr text (λ why. result ≡ Err Memory) }
    ensures failed { FailsWriting (has_failed output.new) result }
{
    let Ok(text) = text else {
        return Err(WriteFault::Memory);
    };
    let Ok(()) = output.write_all(heading) else {
        return Err(WriteFault::Write);
    };
    let Ok(()) = output.write_all(&text) else {
        return Err(WriteFault::Write);
    };
    Ok(())
}

// Writes the file of rules behind the reports, unless the replay stopped. The reports are left to the end of the process, which frees them at once.
fn finish<R: Files>(
    rt: &R,
    path: Option<&str>,
    triaged: Triaged,
    ending: Ending,
    unordered: u64,
) -> Result<Ended, Fault>
    ensures status { IfOk result (λ ended. ended.status ≡ verdict_status (is_verdict_of triaged.reports)) }
    ensures notes { IfOk result (λ ended. ended.notes.items ≡ triaged.notes.items) }
    ensures text { IfOk result (λ ended. (ended.ending ≡ ending) × (ended.unordered ≡ unordered)) }
    ensures fault { IfErr result (λ fault. (fault ≡ WriteRules) × IsSome path.entry) }
{
    let verdict = verdict_of(&triaged.reports);
    if let Some((path, text)) = rules_to_write(path, &triaged.known_races, verdict)
        && let Err(fault) = write_rules(rt, path, text)
    {
        drop(triaged);
        return Err(fault);
    }
    let Triaged { notes, reports, .. } = triaged;
    std::mem::forget(reports);
    Ok(Ended {
        status: status_of(verdict),
        notes,
        ending,
        unordered,
    })
}

// Writes a file of rules, in the place of what it had.
fn write_rules<R: Files>(rt: &R, path: &str, text: &[u8]) -> Result<(), Fault>
    ensures { IfErr result (λ fault. fault ≡ WriteRules) }
{
    let file = File::create(rt, path).map_err(|_| Fault::WriteRules)?;
    Device::new(file)
        .write_all(text)
        .map_err(|_| Fault::WriteRules)
}

// Which file gets the rules for the known races, and their text. None if the replay stopped.
fn rules_to_write<'a>(
    path: Option<&'a str>,
    known_races: &'a Option<Vec<u8>>,
    verdict: Verdict,
) -> Option<(&'a str, &'a [u8])>
    ensures stopped { verdict ≡ Stopped → result ≡ None }
    ensures asked { IfSome result (λ file. IsSome path.entry) }
{
    match (path, known_races) {
        (Some(path), Some(text)) if verdict != Verdict::Stopped => Some((path, text)),
        _ => None,
    }
}

// The exit status of a replay.
fn status_of(verdict: Verdict) -> u8
    ensures { result ≡ verdict_status verdict }
{
    match verdict {
        Verdict::Clean => 0,
        Verdict::Races => 1,
        Verdict::Stopped => 3,
    }
}
