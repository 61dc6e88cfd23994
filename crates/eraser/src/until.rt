//! A replay of a text up to its first faulty line, and its fault with what helps people behind it.
//!
//! It has two passes. The first replays the text as ever. If it ends in a fault of the text, the lines before that one are read again by a
//! reader that ends there, and are replayed as any other text.
ghost use Rattle.std.specs.Prelude.{◌≡◌, ◌≢◌, ◌≤◌, ◌⊎◌, [], false, None, codes, IfOk, IfErr, IfSome};
ghost use Rattle.std.specs.Io.KnownBytes.{Keeps};
ghost use Rattle.er_device.specs.Device.{inner_of, has_failed};
ghost use Rattle.er_exit.specs.declared.faults.Fault.TheVariants.{OpenTrace};
ghost use Rattle.er_exit.specs.Statuses.{fault_status};
ghost use Rattle.er_exit.specs.Lines.{fault_line};
ghost use Rattle.er_exit.specs.Writes.{GetsLine, LeavesOutput};
ghost use Rattle.er_rules.specs.Rules.{targets_of};
ghost use Rattle.eraser.specs.Replays.{EndsAs, FailsAs, FailsCut, IsEndOf, IsRunAs, OfTraceFile};

use crate::command::options_of;
use crate::replaying::{Ended, Job, notes_of, replay_from};
use crate::traces::{Directly, open_trace, prepare};
use er_binary::Decoded;
use er_damage::Damage;
use er_device::Device;
use er_exit::{Fault, Trouble, advise, is_ordinary, put, report_fault};
use er_lines::{ByPrefix, Prefix, Shortcut};
use er_request::Replay;
use er_run::Watch;
use er_text::TextFault;
use std::alloc::Global;
use std::fs;
use std::io::{Read, Write};
use std::rt::Files;
use std::sync::Wait;
use std::thread::Threads;

/// Where a replay was cut off.
#[derive(Drop)]
pub(crate) struct Cut {
    /// What the report of the lines before has for standard error.
    notes: Vec<u8>,
    /// What is damaged in these lines, if the replay is strict. They have no report then.
    damage: Option<Damage>,
    /// Why it goes no further.
    pub(crate) fault: Fault,
}

/// A trace that can be read again.
#[derive(Clone, Copy)]
enum Again<'a> {
    /// The ordinary file of this path.
    File(&'a str),
    /// What was read of a stream.
    Kept(&'a [u8]),
}

/// Writes the notes, then the damage, and then the fault with what helps people. If a write fails, the rest is left out.
pub(crate) fn report_cut<R: Files + AllocGlobal, E: Write>(
    rt: &R,
    replay: &Replay<'_>,
    cut: &Cut,
    errors: &mut Device<E>,
) -> u8
    ensures status { result ≡ fault_status cut.now.fault }
    ensures range { (2 ≤ result) × (result ≤ 4) }
    ensures line { cut.now.notes.items ≡ [] → cut.now.damage ≡ None → replay.now.hints ≡ false → GetsLine (E.contents (inner_of errors.old)) (E.contents (inner_of errors.new)) (fault_line cut.now.fault) (has_failed errors.new) }
{
    if !cut.notes.is_empty() {
        put(errors, &cut.notes);
    }
    if let Some(damage) = cut.damage {
        report_fault(rt.alloc(), Fault::Damaged(damage), errors);
    }
    report_replay_fault(rt, replay, cut.fault, errors)
}

/// A replay that comes to no report for this reason.
pub(crate) fn cut_by(alloc: Global, fault: Fault) -> Cut
    ensures fault { result.fault ≡ fault }
    ensures alone { (result.notes.items ≡ []) × (result.damage ≡ None) }
{
    Cut {
        notes: Vec::new(alloc),
        damage: None,
        fault,
    }
}

/// The path of the trace, if it isn't the standard input.
pub(crate) fn trace_path<'a>(replay: &Replay<'a>) -> Option<&'a str> {
    (replay.trace != "-").then_some(replay.trace)
}

/// Replays the trace, up to its first faulty line if that is asked for.
pub(crate) fn replay_trace<R, I, S, O, V>(
    rt: &R,
    job: Job<'_>,
    input: &mut Device<I>,
    shortcut: &S,
    output: &mut Device<O>,
    watcher: &mut V,
) -> Result<Ended, Cut>
where
    R: Files + AllocGlobal + Threads + Wait + Sync,
    I: Read,
    S: Shortcut<I>,
    O: Write,
    V: Watch,
    requires input { has_failed input.old ≡ false }
    requires output { has_failed output.old ≡ false }
    ensures end { IfOk result (IsEndOf job.entry.replay.now) }
    ensures ends { job.entry.replay.now.trace.now ≡ codes "-" → IsRunAs job.entry.replay.now job.entry.options.now job.entry.heading.now → IfOk result (λ ended. IfSome (I.remaining (inner_of input.old)) (λ text. EndsAs R.File.remaining job.entry.replay.now text (S.touches (inner_of input.old)) job.entry.options.now.byte_limit (targets_of job.entry.suppressions.now) (O.contents (inner_of output.old)) (O.contents (inner_of output.new)) ended)) }
    ensures file_ends { job.entry.replay.now.trace.now ≢ codes "-" → IsRunAs job.entry.replay.now job.entry.options.now job.entry.heading.now → IfOk result (λ ended. OfTraceFile R.File.remaining job.entry.replay.now (λ text touches limit. EndsAs R.File.remaining job.entry.replay.now text touches limit (targets_of job.entry.suppressions.now) (O.contents (inner_of output.old)) (O.contents (inner_of output.new)) ended)) }
    ensures fails { job.entry.replay.now.trace.now ≡ codes "-" → job.entry.replay.now.until_fault ≡ false → IsRunAs job.entry.replay.now job.entry.options.now job.entry.heading.now → IfErr result (λ cut. IfSome (I.remaining (inner_of input.old)) (λ text. FailsAs R.File.remaining job.entry.replay.now text (S.touches (inner_of input.old)) job.entry.options.now.byte_limit (targets_of job.entry.suppressions.now) (O.contents (inner_of output.old)) (O.contents (inner_of output.new)) cut.fault)) }
    ensures file_fails { job.entry.replay.now.trace.now ≢ codes "-" → job.entry.replay.now.until_fault ≡ false → IsRunAs job.entry.replay.now job.entry.options.now job.entry.heading.now → IfErr result (λ cut. ((cut.fault ≡ OpenTrace) × Keeps (O.contents (inner_of output.old)) (O.contents (inner_of output.new))) ⊎ OfTraceFile R.File.remaining job.entry.replay.now (λ text touches limit. FailsAs R.File.remaining job.entry.replay.now text touches limit (targets_of job.entry.suppressions.now) (O.contents (inner_of output.old)) (O.contents (inner_of output.new)) cut.fault)) }
    ensures failed { job.entry.replay.now.trace.now ≡ codes "-" → job.entry.replay.now.until_fault ≡ false → FailsCut (has_failed input.new) (has_failed output.new) result }
    ensures alone { job.entry.replay.now.until_fault ≡ false → IfErr result (λ cut. (cut.notes.items ≡ []) × (cut.damage ≡ None)) }
    ensures nothing { job.entry.replay.now.until_fault ≡ false → IfErr result (λ cut. LeavesOutput (O.contents (inner_of output.old)) (O.contents (inner_of output.new)) cut.fault) }
{
    let replay = job.replay;
    if replay.trace == "-" {
        return match replay_from(rt, job, input, shortcut, output, watcher) {
            Ok(ended) => Ok(ended),
            Err(fault) if replay.until_fault => {
                let again = shortcut.kept(input.inner()).map(Again::Kept);
                Err(replay_before(rt, job, fault, again, output, watcher))
            }
            Err(fault) => Err(cut_by(rt.alloc(), fault)),
        };
    }
    let mut source = match open_trace(rt, replay.trace) {
        Ok(trace) => Device::new(trace),
        Err(fault) => return Err(cut_by(rt.alloc(), fault)),
    };
    let is_kept = replay.until_fault && !is_ordinary(rt, replay.trace);
    prepare(&mut source, replay.analysis.asks_order(), is_kept);
    let Ok(_) = Directly.read(source.inner_mut(), &mut []) else {
        drop(source);
        return Err(cut_by(rt.alloc(), Fault::Read));
    };
    let has_own_limit = source.inner().is_binary() && !is_kept;
    let options = options_of(replay, has_own_limit, job.options.keys);
    let job = Job {
        options: &options,
        ..job
    };
    match replay_from(rt, job, &mut source, &Directly, output, watcher) {
        Ok(ended) => {
            drop(source);
            Ok(ended)
        }
        Err(fault) if is_kept => {
            let again = Directly.kept(source.inner()).map(Again::Kept);
            let cut = replay_before(rt, job, fault, again, output, watcher);
            drop(source);
            Err(cut)
        }
        Err(fault) if replay.until_fault => {
            drop(source);
            let again = Some(Again::File(replay.trace));
            Err(replay_before(rt, job, fault, again, output, watcher))
        }
        Err(fault) => {
            drop(source);
            Err(cut_by(rt.alloc(), fault))
        }
    }
}

// If the fault is one of the text, replays the lines before it. Without memory to keep a stream it becomes a want of memory. A text that ends there
// may lack its line `end`: that is no damage of these lines, so if it is all that a strict replay finds, they have their report.
fn replay_before<R: Files + AllocGlobal + Threads + Wait + Sync, O: Write, V: Watch>(
    rt: &R,
    job: Job<'_>,
    fault: Fault,
    again: Option<Again<'_>>,
    output: &mut Device<O>,
    watcher: &mut V,
) -> Cut {
    let Fault::Text(first) = fault else {
        return cut_by(rt.alloc(), fault);
    };
    let Some(again) = again else {
        return cut_by(rt.alloc(), Fault::Memory);
    };
    let lines = first.line.saturating_sub(1);
    let options = job.options.with_strict(false);
    let mut replayed = replay_lines(rt, job, lines, again, output, watcher);
    if lacks_end_alone(&replayed) {
        let options = &options;
        replayed = replay_lines(rt, Job { options, ..job }, lines, again, output, watcher);
    }
    cut_at(rt.alloc(), job.replay.hints, first, replayed)
}

// Replays the first lines of a text that is read again. A failed write is final.
fn replay_lines<R: Files + AllocGlobal + Threads + Wait + Sync, O: Write, V: Watch>(
    rt: &R,
    job: Job<'_>,
    lines: u64,
    again: Again<'_>,
    output: &mut Device<O>,
    watcher: &mut V,
) -> Result<Ended, Fault> {
    if output.failed() {
        return Err(Fault::Write);
    }
    let (notes, directly) = (job.replay.analysis.asks_order(), Directly);
    match again {
        Again::File(path) => {
            let mut trace = Device::new(open_trace(rt, path)?);
            prepare(&mut trace, notes, false);
            let mut source = Device::new(Prefix::new(trace.into_inner(), &directly, lines));
            let replayed = replay_from(rt, job, &mut source, &ByPrefix, output, watcher);
            drop(source);
            replayed
        }
        Again::Kept(bytes) => {
            let mut trace = Device::new(Decoded::new(rt.alloc(), bytes));
            prepare(&mut trace, notes, false);
            let mut source = Device::new(Prefix::new(trace.into_inner(), &directly, lines));
            let replayed = replay_from(rt, job, &mut source, &ByPrefix, output, watcher);
            drop(source);
            replayed
        }
    }
}

// What is damaged in lines, and not in how the text ends behind them.
fn damage_of_lines(damage: Damage) -> Damage {
    Damage {
        no_line_feed: None,
        no_end: None,
        ..damage
    }
}

// Whether a strict replay found nothing but that the text lacks its end.
fn lacks_end_alone(replayed: &Result<Ended, Fault>) -> bool {
    matches!(replayed, Err(Fault::Damaged(damage)) if !damage_of_lines(*damage).is_any())
}

// What a replay of the lines before a fault comes to. That they lack their end is not noted: the text goes on. If they have no header, they have no report, and the fault is all that there is.
fn cut_at(alloc: Global, hints: bool, first: TextFault, second: Result<Ended, Fault>) -> Cut {
    let fault = Fault::Text(first);
    let (notes, damage) = match second {
        Ok(mut ended) => {
            ended.ending.is_open = false;
            (notes_of(alloc, ended, hints), None)
        }
        Err(Fault::Damaged(damage)) => (Vec::new(alloc), Some(damage_of_lines(damage))),
        Err(Fault::Text(second)) if second.line == first.line => return cut_by(alloc, fault),
        Err(other) => return cut_by(alloc, other),
    };
    Cut {
        notes,
        damage,
        fault,
    }
}

// Writes the line of a fault, and returns its status. What helps people follows if it is asked for, as far as it is known.
fn report_replay_fault<R: Files + AllocGlobal, E: Write>(
    rt: &R,
    replay: &Replay<'_>,
    fault: Fault,
    errors: &mut Device<E>,
) -> u8
    ensures status { result ≡ fault_status fault }
    ensures line { replay.now.hints ≡ false → GetsLine (E.contents (inner_of errors.old)) (E.contents (inner_of errors.new)) (fault_line fault) (has_failed errors.new) }
{
    let status = report_fault(rt.alloc(), fault, errors);
    if replay.hints
        && let Some(trouble) = trouble_of(rt, replay, fault)
    {
        advise(rt, trouble, replay.binary_limit, errors);
    }
    status
}

// What a fault has to do with a file whose path is known, if it has.
fn trouble_of<'a, R: Files>(rt: &R, replay: &Replay<'a>, fault: Fault) -> Option<Trouble<'a>> {
    let lost = match fault {
        Fault::Text(fault) => return Some(Trouble::Trace(trace_path(replay), fault)),
        Fault::Suppressions(file, fault) => {
            return Some(Trouble::Rules(rules_path(replay, file), fault));
        }
        Fault::OpenTrace => replay.trace,
        Fault::OpenSuppressions(file) => rules_path(replay, file)?,
        Fault::ReadSuppressions(file) => rules_path(replay, Some(file))?,
        Fault::Read => unread(rt, replay)?,
        Fault::WriteRules => replay.write_rules?,
        _ => return None,
    };
    Some(Trouble::Lost(lost))
}

// The path of a file of rules, by its number from 1, or of the only one.
fn rules_path<'a>(replay: &Replay<'a>, file: Option<u64>) -> Option<&'a str> {
    let number = file.unwrap_or(1);
    let place = usize::try_from(number.checked_sub(1)?).ok()?;
    replay.suppressions.get(place).copied()
}

// The path of what could not be read: of a folder in the place of the rules, or else of the trace.
fn unread<'a, R: Files>(rt: &R, replay: &Replay<'a>) -> Option<&'a str> {
    match rules_path(replay, None) {
        Some(rules) if fs::metadata(rt, rules).is_ok_and(|found| found.is_dir()) => Some(rules),
        _ => trace_path(replay),
    }
}
