//! One command line, run over a reader and its writers.
ghost use Rattle.std.specs.Prelude.{◌≡◌, ◌≢◌, ◌≤◌, ◌^◌, ◌⊎◌, ◌||◌, ℕ, Bool, List, None, Option, [], false, true, codes, IfOk, IfErr, IfSome, IsOk, MatchResult};
ghost use Rattle.std.specs.Io.KnownBytes.{Keeps};
ghost use Rattle.er_binary.specs.Decoded.{IsFresh, source_of};
ghost use Rattle.er_binary.specs.Meaning.{meant};
ghost use Rattle.er_device.specs.Device.{inner_of, has_failed};
ghost use Rattle.er_exit.specs.declared.faults.Fault.TheVariants.{OpenTrace};
ghost use Rattle.er_exit.specs.Lines.{fault_line};
ghost use Rattle.er_exit.specs.Statuses.{fault_status};
ghost use Rattle.er_exit.specs.Writes.{GetsLine, LeavesOutput};
ghost use Rattle.er_request.specs.Words.{IsUsual, names_hints, names_progress, names_until_fault, prints_input, replays_input};
ghost use Rattle.er_rules.specs.Rules.{targets_of};
ghost use Rattle.er_triage.specs.Notes.{AreNotes};
ghost use Rattle.eraser.specs.Notes.{AddsNotesOn, GetsNotes, GetsTextNotes};
ghost use Rattle.eraser.specs.Printing.{PrintsTo};
ghost use Rattle.eraser.specs.Replays.{AreOptionsOf, ComesTo, EndsAs, EndsUsually, FailsAs, IsEndOf, OfTrace, OfTraceFile, UnderRules, headed_part, limit_of};

use crate::merging::{merge_files, merge_for};
use crate::meter::Meter;
use crate::replaying::{Ended, Job, notes_of};
use crate::traces::{Directly, explain_step, prepare, print_trace};
use crate::until::{Cut, cut_by, replay_trace, report_cut, trace_path};
use clap::error::ErrorKind;
use er_binary::Decoded;
use er_device::Device;
use er_exit::{Fault, heading_of, put, report_fault, run_demo, text_size};
use er_lines::Shortcut;
use er_load::Workload;
use er_parts::Part;
use er_request::{Replay, Request, read_request};
use er_rules::{Suppressions, read_suppressions};
use er_run::Options;
use er_trace::NameKeys;
use er_triage::append_rules;
use std::alloc::Global;
use std::fs::File;
use std::io::{Read, Write};
use std::random::RandomSource;
use std::rt::{Clock, Files};
use std::sync::Wait;
use std::thread::Threads;

type Rules = Result<Suppressions, Fault>;

/// Runs one command line, whose first word is the program's name, and returns the exit status: 0 if no race was printed,
/// 1 if some race was, 2 for wrong arguments or a text with a fault, 3 for want of room, 4 for a file that can't be
/// opened, read or written. If the errors are a terminal, what helps people follows the line of a replay's fault, as with `--hints`.
/// `progress` writes to the same place as the errors, and gets how far a replay has come and nothing else.
pub fn command<R, I, O, E, P>(
    rt: &R,
    words: &[String],
    input: &mut Device<Decoded<I>>,
    output: &mut Device<O>,
    errors: &mut Device<E>,
    progress: &mut Device<P>,
    on_terminal: bool,
) -> u8
where
    R: Files + Clock + RandomSource + AllocGlobal + Threads + Wait + Sync,
    I: Read,
    O: Write,
    E: Write,
    P: Write,
    requires input { has_failed input.old ≡ false }
    requires fresh { IsFresh (inner_of input.old) }
    requires output { has_failed output.old ≡ false }
    ensures status { result ≤ 4 }

    // `replay -` has written the report that the definitions give of the text that the input means, and its status says whether the report has a race or
    // stops for want of room. Or there is a fault: 2 is the text's first one, 3 a want of memory, and 4 a failed read or write, which is told
    // exactly if the input or the output has failed. Then the output has nothing, or a beginning of the report if a write failed.
    ensures usual { replays_input words.now ≡ true → IfSome (I.remaining (source_of (inner_of input.old))) (λ bytes. ComesTo on_terminal (meant bytes) (has_failed input.new) (has_failed output.new) (O.contents (inner_of output.old)) (O.contents (inner_of output.new)) (E.contents (inner_of errors.old)) (E.contents (inner_of errors.new)) (has_failed errors.new) result) }

    // `print -` has written that text, or a beginning of it if a read or a write failed.
    ensures printed { prints_input words.now ≡ true → IfSome (I.remaining (source_of (inner_of input.old))) (λ bytes. PrintsTo (meant bytes) (has_failed output.new) (O.contents (inner_of output.old)) (O.contents (inner_of output.new)) (E.contents (inner_of errors.old)) (E.contents (inner_of errors.new)) (has_failed errors.new) result) }

    // With a result nothing goes to the errors but the notes that were asked for and those on the text, and with wrong arguments or a
    // faulty text nothing to the output, unless a word asks for the steps before the fault. `progress` is a device of its own: `quiet`
    // says nothing of it.
    ensures quiet { result ≤ 1 → GetsNotes (names_hints words.now || on_terminal) (E.contents (inner_of errors.old)) (E.contents (inner_of errors.new)) (has_failed errors.new) }
    ensures refused { names_until_fault words.now ≡ false → result ≡ 2 → Keeps (O.contents (inner_of output.old)) (O.contents (inner_of output.new)) }

    // Unless a word asks how far a replay has come, nothing is written of it.
    ensures unwatched { names_progress words.now ≡ false → Keeps (P.contents (inner_of progress.old)) (P.contents (inner_of progress.new)) }
{
    match read_request(rt.alloc(), words, on_terminal) {
        Ok(Request::Replay(mut asked)) => {
            prepare(input, asked.analysis.asks_order(), asked.until_fault);
            let ready = &Directly;
            let replayed = run_asked(rt, &mut asked, input, ready, output, progress, on_terminal);
            let status = end_replay(rt, &asked, replayed, errors);
            drop(asked);
            status
        }
        Ok(Request::Explain(asked)) => {
            end(rt.alloc(), explain_step(rt, &asked, input, output), errors)
        }
        Ok(Request::Print(trace)) => {
            end(rt.alloc(), print_trace(rt, trace, input, output), errors)
        }
        Ok(Request::Demo(demo)) => {
            let made = run_demo(rt, rt.alloc(), Workload::ALL[demo.place], output);
            end(rt.alloc(), made, errors)
        }
        Ok(Request::Merge(paths)) => {
            let merged = merge_files(rt, &paths, output);
            drop(paths);
            end(rt.alloc(), merged, errors)
        }
        Err(error) => {
            let status = refused(rt.alloc(), &error, output, errors);
            drop(error);
            status
        }
    }
}

// Runs a replay behind the merge of its reports, if there are some.
fn run_asked<R, I, S, O, P>(
    rt: &R,
    replay: &mut Replay<'_>,
    input: &mut Device<I>,
    shortcut: &S,
    output: &mut Device<O>,
    progress: &mut Device<P>,
    on_terminal: bool,
) -> Result<Ended, Cut>
where
    R: Files + Clock + RandomSource + AllocGlobal + Threads + Wait + Sync,
    I: Read,
    S: Shortcut<I>,
    O: Write,
    P: Write,
    requires input { has_failed input.old ≡ false }
    requires output { has_failed output.old ≡ false }
    ensures same { (replay.new.hints ≡ replay.old.hints) × (replay.new.until_fault ≡ replay.old.until_fault) }
    ensures end { IfOk result (IsEndOf replay.new) }
    ensures ends { IfOk result (λ ended. UnderRules replay.new (λ rules. OfTrace R.File.remaining replay.new (I.remaining (inner_of input.old)) (S.touches (inner_of input.old)) (λ text touches limit. EndsAs R.File.remaining replay.new text touches limit rules (O.contents (inner_of output.old)) (O.contents (inner_of output.new)) ended))) }
    ensures usual { IsUsual replay.old → IfSome (I.remaining (inner_of input.old)) (λ text. EndsUsually text (has_failed input.new) (has_failed output.new) (O.contents (inner_of output.old)) (O.contents (inner_of output.new)) result) }
    ensures nothing { replay.old.until_fault ≡ false → IfErr result (λ cut. LeavesOutput (O.contents (inner_of output.old)) (O.contents (inner_of output.new)) cut.fault) }
    ensures unwatched { replay.old.progress ≡ false → Keeps (P.contents (inner_of progress.old)) (P.contents (inner_of progress.new)) }
{
    match merge_for(rt, replay) {
        Ok(()) => run_replay(rt, replay, input, shortcut, output, progress, on_terminal),
        Err(fault) => Err(cut_by(rt.alloc(), fault)),
    }
}

// Runs a replay, and shows how far it has come if that is asked for. The suppressions are opened and read before the trace is opened.
fn run_replay<R, I, S, O, P>(
    rt: &R,
    replay: &Replay<'_>,
    input: &mut Device<I>,
    shortcut: &S,
    output: &mut Device<O>,
    progress: &mut Device<P>,
    on_terminal: bool,
) -> Result<Ended, Cut>
where
    R: Files + Clock + RandomSource + AllocGlobal + Threads + Wait + Sync,
    I: Read,
    S: Shortcut<I>,
    O: Write,
    P: Write,
    requires input { has_failed input.old ≡ false }
    requires output { has_failed output.old ≡ false }
    ensures end { IfOk result (IsEndOf replay.now) }
    ensures usual { IsUsual replay.now → IfSome (I.remaining (inner_of input.old)) (λ text. EndsUsually text (has_failed input.new) (has_failed output.new) (O.contents (inner_of output.old)) (O.contents (inner_of output.new)) result) }
    ensures ends { IfOk result (λ ended. UnderRules replay.now (λ rules. OfTrace R.File.remaining replay.now (I.remaining (inner_of input.old)) (S.touches (inner_of input.old)) (λ text touches limit. EndsAs R.File.remaining replay.now text touches limit rules (O.contents (inner_of output.old)) (O.contents (inner_of output.new)) ended))) }
    ensures fails { replay.now.trace.now ≡ codes "-" → replay.now.suppressions.items ≡ [] → replay.now.until_fault ≡ false → IfErr result (λ cut. IfSome (I.remaining (inner_of input.old)) (λ text. FailsAs R.File.remaining replay.now text (S.touches (inner_of input.old)) replay.now.byte_limit [] (O.contents (inner_of output.old)) (O.contents (inner_of output.new)) cut.fault)) }
    ensures file_fails { replay.now.trace.now ≢ codes "-" → replay.now.suppressions.items ≡ [] → headed_part replay.now ≡ None → replay.now.until_fault ≡ false → IfErr result (λ cut. ((cut.fault ≡ OpenTrace) × Keeps (O.contents (inner_of output.old)) (O.contents (inner_of output.new))) ⊎ OfTraceFile R.File.remaining replay.now (λ text touches limit. FailsAs R.File.remaining replay.now text touches limit [] (O.contents (inner_of output.old)) (O.contents (inner_of output.new)) cut.fault)) }
    ensures nothing { replay.now.until_fault ≡ false → IfErr result (λ cut. LeavesOutput (O.contents (inner_of output.old)) (O.contents (inner_of output.new)) cut.fault) }
    ensures unwatched { replay.now.progress ≡ false → Keeps (P.contents (inner_of progress.old)) (P.contents (inner_of progress.new)) }
{
    let options = options_of(replay, false, keys_from(rt));
    let suppressions = match rules_of(rt, &replay.suppressions, options.byte_limit) {
        Ok(suppressions) => suppressions,
        Err(fault) => return Err(cut_by(rt.alloc(), fault)),
    };
    let (part, files) = (headed_part(replay), &replay.suppressions);
    let heading = match heading_of(rt, part, replay.trace, files, replay.explain) {
        Ok(heading) => heading,
        Err(fault) => return Err(cut_by(rt.alloc(), fault)),
    };
    let job = Job {
        replay,
        suppressions: &suppressions,
        options: &options,
        heading: &heading,
    };
    if replay.progress {
        let size = trace_path(replay).and_then(|path| text_size(rt, path));
        let mut meter = Meter::new(rt, Some(progress), on_terminal, size);
        let shown = replay_trace(rt, job, input, shortcut, output, &mut meter);
        drop(suppressions);
        return shown;
    }
    let mut meter: Meter<'_, R, P> = Meter::new(rt, None, false, None);
    let replayed = replay_trace(rt, job, input, shortcut, output, &mut meter);
    drop(suppressions);
    replayed
}

// The part whose report has a first line: none if the reports of all parts are merged.
fn headed_part(replay: &Replay<'_>) -> Option<Part>
    ensures { result ≡ headed_part replay.now }
{
    if replay.counts.is_some() {
        return None;
    }
    replay.part
}

// The rules of these files, in their order, and from file to file.
fn rules_of<R: Files + AllocGlobal>(rt: &R, paths: &[&str], byte_limit: u64) -> Rules
    requires { byte_limit ≤ 2 ^ 62 }
    ensures none { paths.now ≡ [] → IfOk result (λ rules. targets_of rules ≡ []) }
    ensures some { paths.now ≡ [] → IsOk result }
{
    let Some((first, others)) = paths.split_first() else {
        return Ok(Suppressions::new(rt.alloc()));
    };
    let number = (!others.is_empty()).then_some(1);
    let mut rules = rules_at(rt, first, number, byte_limit)?;
    for (place, path) in others.iter().enumerate() {
        let found = rules_at(rt, path, Some(place as u64 + 2), byte_limit)?;
        append_rules(&mut rules, &found)?;
    }
    Ok(rules)
}

// The rules of one file, which has this number if there are several.
fn rules_at<R: Files + AllocGlobal>(rt: &R, path: &str, file: Option<u64>, byte_limit: u64) -> Rules
    requires { byte_limit ≤ 2 ^ 62 }
{
    let opened = File::open(rt, path).map_err(|_| Fault::OpenSuppressions(file))?;
    read_suppressions(rt.alloc(), &mut Device::new(opened), byte_limit).map_err(
        |fault| Fault::of_suppressions(file, fault),
    )
}

// Writes the notes of a replay, or its fault and what helps people.
fn end_replay<R: Files + AllocGlobal, E: Write>(
    rt: &R,
    replay: &Replay<'_>,
    replayed: Result<Ended, Cut>,
    errors: &mut Device<E>,
) -> u8
    requires end { IfOk replayed (IsEndOf replay.now) }
    ensures status { MatchResult replayed (λ ended. result ≡ ended.status) (λ cut. result ≡ fault_status cut.fault) }
    ensures range { result ≤ 4 }
    ensures usual { (text : List ℕ) (read written : Bool) (old new : Option (List ℕ)) → EndsUsually text read written old new replayed → ComesTo replay.now.hints text read written old new (E.contents (inner_of errors.old)) (E.contents (inner_of errors.new)) (has_failed errors.new) result }
    ensures quiet { result ≤ 1 → GetsNotes replay.now.hints (E.contents (inner_of errors.old)) (E.contents (inner_of errors.new)) (has_failed errors.new) }
    ensures silent { IfOk replayed (λ ended. ended.notes.items ≡ []) → result ≤ 1 → GetsTextNotes replay.now.hints (E.contents (inner_of errors.old)) (E.contents (inner_of errors.new)) (has_failed errors.new) }
    ensures refused { (old new : Option (List ℕ)) → IfErr replayed (λ cut. LeavesOutput old new cut.fault) → result ≡ 2 → Keeps old new }
{
    match replayed {
        Ok(ended) => note(rt.alloc(), ended, replay.hints, errors),
        Err(cut) => {
            let status = report_cut(rt, replay, &cut, errors);
            drop(cut);
            status
        }
    }
}

// Ends what is no replay: with its status, or with its fault.
fn end<E: Write>(alloc: Global, ended: Result<u8, Fault>, errors: &mut Device<E>) -> u8
    ensures given { IfOk ended (λ status. result ≡ status) }
    ensures fault { IfErr ended (λ why. (result ≡ fault_status why) × GetsLine (E.contents (inner_of errors.old)) (E.contents (inner_of errors.new)) (fault_line why) (has_failed errors.new)) }
    ensures status { IfOk ended (λ status. status ≤ 1) → result ≤ 4 }
    ensures quiet { result ≤ 1 → Keeps (E.contents (inner_of errors.old)) (E.contents (inner_of errors.new)) }
    ensures refused { (old new : Option (List ℕ)) → IfOk ended (λ status. status ≤ 1) → IfErr ended (LeavesOutput old new) → result ≡ 2 → Keeps old new }
{
    match ended {
        Ok(status) => status,
        Err(fault) => report_fault(alloc, fault, errors),
    }
}

// Writes the notes, for people more of them, and returns the status.
fn note<E: Write>(alloc: Global, ended: Ended, hints: bool, errors: &mut Device<E>) -> u8
    requires notes { AreNotes ended.notes.items }
    ensures status { result ≡ ended.status }
    ensures notes { GetsNotes hints (E.contents (inner_of errors.old)) (E.contents (inner_of errors.new)) (has_failed errors.new) }
    ensures silent { ended.notes.items ≡ [] → AddsNotesOn hints ended.ending ended.unordered [] (E.contents (inner_of errors.old)) (E.contents (inner_of errors.new)) (has_failed errors.new) }
{
    let status = ended.status;
    let notes = notes_of(alloc, ended, hints);
    put(errors, &notes);
    drop(notes);
    status
}

/// By which keys names and pages are hashed: by those that nobody can foretell, if the system gives random bytes.
pub(crate) fn keys_from<R: RandomSource>(rt: &R) -> NameKeys {
    NameKeys::random(rt).unwrap_or(NameKeys::KNOWN)
}

/// How the trace is to be replayed. A binary one that is given by its path says its text in far fewer bytes, so it has no limit that nobody asked for.
pub(crate) fn options_of(replay: &Replay<'_>, has_own_limit: bool, keys: NameKeys) -> Options
    ensures run { AreOptionsOf replay.now result }
    ensures limit { result.byte_limit ≡ limit_of replay.now has_own_limit }
{
    let (usual, own) = (replay.byte_limit, replay.binary_limit);
    let byte_limit = if has_own_limit { own } else { usual };
    let options = Options::usual().with_explain(replay.explain);
    let options = options.with_strict(replay.strict).with_part(replay.part);
    let options = options.with_keys(keys);
    let options = options.with_byte_limit(byte_limit).unwrap();
    options.with_workers(replay.shards, replay.workers).unwrap()
}

// Help goes to the output and every other text of the parser to the errors.
fn refused<O: Write, E: Write>(
    alloc: Global,
    error: &clap::Error,
    output: &mut Device<O>,
    errors: &mut Device<E>,
) -> u8
    requires output { has_failed output.old ≡ false }
    ensures status { result ≤ 4 }
    ensures quiet { result ≤ 1 → Keeps (E.contents (inner_of errors.old)) (E.contents (inner_of errors.new)) }
    ensures written { result ≤ 1 → has_failed output.new ≡ false }
    ensures refused { result ≡ 2 → Keeps (O.contents (inner_of output.old)) (O.contents (inner_of output.new)) }
{
    let Ok(text) = error.to_string(alloc) else {
        return report_fault(alloc, Fault::Memory, errors);
    };
    match error.kind() {
        ErrorKind::OutOfMemory => report_fault(alloc, Fault::Memory, errors),
        ErrorKind::DisplayHelp | ErrorKind::DisplayVersion => {
            match output.write_all(text.as_bytes()) {
                Ok(()) => 0,
                Err(_) => report_fault(alloc, Fault::Write, errors),
            }
        }
        _ => {
            put(errors, text.as_bytes());
            2
        }
    }
}
