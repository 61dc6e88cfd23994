//! Why a command line ends without its result, and the lines that the program writes by itself.
ghost use Rattle.std.specs.Prelude.{◌≡◌, IfOk, string_bytes};
ghost use Rattle.er_exit.specs.Faults.{demo_fault, merge_fault, rules_fault, trace_fault};
ghost use Rattle.er_exit.specs.Lines.{text_of, damage_line, damage_lines, fault_line, lost_line};
ghost use Rattle.er_exit.specs.declared.faults.Fault.TheVariants.{Memory};
ghost use Rattle.er_exit.specs.Statuses.{fault_status};
ghost use Rattle.er_device.specs.Device.{inner_of, has_failed};
ghost use Rattle.er_exit.specs.Writes.{GetsLine, WritesBytes};
ghost use Rattle.er_exit.specs.Notes.{HasAdded, line_if, notes_text, unordered_line};

use er_clock::Limit;
use er_damage::Damage;
use er_device::Device;
use er_event::Refusal;
use er_load::LoadFault;
use er_merge::MergeFault;
use er_settle::Unsettled;
use er_text::{Lost, ReadFault, TextFault};
use std::alloc::{AllocError, Global};
use std::io::Write;

/// Why a command line ended without its result.
#[derive(Clone, Copy, Debug, PartialEq, Eq)]
pub enum Fault {
    /// An argument isn't UTF-8.
    Arguments,
    /// The trace's text has this fault.
    Text(TextFault),
    /// The suppressions' text has this fault. If there are several files, this is the one of that number, from 1.
    Suppressions(Option<u64>, TextFault),
    /// The trace is damaged so, and its replay is strict.
    Damaged(Damage),
    /// The trace has no step on the line that is to be explained.
    NoStep(u64),
    /// There was no memory.
    Memory,
    /// Several workers, or both analyses, wanted more sets of locks than the table takes.
    TableFull,
    /// By happens-before: a step is beyond a limit of the clocks.
    Beyond(Limit),
    /// The trace can't be opened.
    OpenTrace,
    /// A file of the replay of a part isn't an ordinary one, so it can't be read twice.
    NoFile,
    /// The suppressions can't be opened, of several files the one of that number.
    OpenSuppressions(Option<u64>),
    /// A read failed.
    Read,
    /// A read of one of several files of suppressions failed, of the one of that number.
    ReadSuppressions(u64),
    /// A write to the standard output failed.
    Write,
    /// The report was written, but not the file of rules that take its races.
    WriteRules,
    /// A call of a demo was refused.
    Refused(Refusal),
    /// A worker, or a thread of a demo, couldn't be started.
    WorkerNotStarted,
    /// A worker, or a thread of a demo, gave nothing back.
    WorkerLost,
    /// The seats and shards of a demo don't settle.
    Unsettled(Unsettled),
    /// Reports can't be merged.
    Merging(MergeFault),
    /// The report of this number can't be opened.
    OpenReport(u64),
    /// A read of the report of this number failed.
    ReadReport(u64),
}

impl Fault {
    /// The exit status, from 2 to 4, and the fault in words.
    pub(crate) fn row(self) -> (u8, &'static str)
        ensures status { result.0 ≡ fault_status self }
        ensures text { result.1.now ≡ text_of self }
    {
        match self {
            Fault::Arguments => (2, "the arguments are not text"),
            Fault::Text(fault) | Fault::Suppressions(_, fault) => (2, fault.kind.text()),
            Fault::Damaged(_) => (2, "damaged trace"),
            Fault::NoStep(_) => (2, "no step"),
            Fault::Memory => (3, "out of memory"),
            Fault::TableFull => (3, "table full"),
            Fault::Beyond(limit) => (3, limit.text()),
            Fault::Refused(refusal) => (3, refusal.text()),
            Fault::WorkerNotStarted => (3, "worker not started"),
            Fault::WorkerLost => (3, "worker lost"),
            Fault::Unsettled(unsettled) => (3, unsettled.text()),
            Fault::Merging(fault) => fault.row(),
            Fault::OpenTrace => (4, "cannot open trace"),
            Fault::NoFile => (4, "a part needs ordinary files"),
            Fault::OpenSuppressions(_) => (4, "cannot open suppressions"),
            Fault::OpenReport(_) => (4, "cannot open report"),
            Fault::Read | Fault::ReadSuppressions(_) | Fault::ReadReport(_) => (4, "read fault"),
            Fault::Write => (4, "write fault"),
            Fault::WriteRules => (4, "cannot write rules"),
        }
    }

    /// A fault in reading the trace.
    pub fn of_trace(fault: ReadFault) -> Fault
        ensures { result ≡ trace_fault fault }
    {
        match fault {
            ReadFault::Text(fault) => Fault::Text(fault),
            ReadFault::Memory => Fault::Memory,
            ReadFault::Read => Fault::Read,
        }
    }

    /// A fault in reading the suppressions, of several files the one of this number.
    pub fn of_suppressions(file: Option<u64>, fault: ReadFault) -> Fault
        ensures { result ≡ rules_fault file fault }
    {
        match (fault, file) {
            (ReadFault::Text(fault), file) => Fault::Suppressions(file, fault),
            (ReadFault::Read, Some(file)) => Fault::ReadSuppressions(file),
            (fault, _) => Fault::of_trace(fault),
        }
    }
}

impl From<LoadFault> for Fault {
    ghost from_gives = { λ cause fault. fault ≡ demo_fault cause };

    fn from(fault: LoadFault) -> Fault {
        match fault {
            LoadFault::Refused(refusal) => Fault::Refused(refusal),
            LoadFault::WorkerNotStarted => Fault::WorkerNotStarted,
            LoadFault::WorkerLost => Fault::WorkerLost,
            LoadFault::Unsettled(unsettled) => Fault::Unsettled(unsettled),
        }
    }
}

impl From<MergeFault> for Fault {
    ghost from_gives = { λ cause fault. fault ≡ merge_fault cause };

    fn from(fault: MergeFault) -> Fault {
        match fault {
            MergeFault::Memory => Fault::Memory,
            fault => Fault::Merging(fault),
        }
    }
}

impl From<AllocError> for Fault {
    ghost from_gives = { λ _ fault. fault ≡ Memory };

    fn from(_error: AllocError) -> Fault {
        Fault::Memory
    }
}

/// Writes the fault's line to the errors, and returns its status. Without memory for the line it writes `out of memory`.
pub fn report_fault<E: Write>(alloc: Global, fault: Fault, errors: &mut Device<E>) -> u8
    ensures status { result ≡ fault_status fault }
    ensures line { GetsLine (E.contents (inner_of errors.old)) (E.contents (inner_of errors.new)) (fault_line fault) (has_failed errors.new) }
{
    match line_of(alloc, fault) {
        Ok(line) => put(errors, line.as_bytes()),
        Err(_) => put(errors, b"out of memory\n"),
    }
    fault.row().0
}

/// Writes these bytes to the errors, unless a write has failed. If this one fails they stay cut off: there is nowhere left to report that.
pub fn put<E: Write>(errors: &mut Device<E>, bytes: &[u8])
    ensures { WritesBytes (E.contents (inner_of errors.old)) (E.contents (inner_of errors.new)) bytes.now (has_failed errors.new) }
{
    if errors.failed() {
        return;
    }
    let _ = errors.write_all(bytes);
}

/// What is noted of a trace, behind its report.
#[derive(Clone, Copy, Debug, PartialEq, Eq)]
pub struct TextNotes {
    /// Whether it is noted that the trace, a text 3, has no line `end`.
    pub no_end: bool,
    /// Whether it is noted that the last line has no line feed.
    pub no_line_feed: bool,
    /// How many accesses are unordered, if it is noted that the trace records no order, and else 0.
    pub unordered: u64,
}

/// Adds the lines of these notes. If there is no memory for them, the lines stay as they are.
pub fn add_notes(alloc: Global, lines: &mut Vec<u8>, notes: TextNotes)
    ensures { HasAdded lines.old.items lines.new.items notes }
{
    if let Ok(text) = notes_text(alloc, notes) {
        let _ = lines.extend_from_slice(text.as_bytes());
    }
}

type Line = Result<String, AllocError>;

fn line_of(alloc: Global, fault: Fault) -> Line
    ensures { IfOk result (λ line. string_bytes line ≡ fault_line fault) }
{
    let (_, text) = fault.row();
    match fault {
        Fault::Text(TextFault { line, .. }) => format!(in alloc; "line {line}: {text}\n"),
        Fault::Suppressions(None, TextFault { line, .. }) => {
            format!(in alloc; "suppressions line {line}: {text}\n")
        }
        Fault::Suppressions(Some(file), TextFault { line, .. }) => {
            format!(in alloc; "suppressions file {file} line {line}: {text}\n")
        }
        Fault::Damaged(damage) => damage_lines(alloc, &damage),
        Fault::NoStep(line) => format!(in alloc; "line {line}: {text}\n"),
        Fault::OpenSuppressions(Some(file)) => format!(in alloc; "{text} file {file}\n"),
        Fault::ReadSuppressions(file) => format!(in alloc; "{text} in suppressions file {file}\n"),
        Fault::Merging(MergeFault::Line(file, line, _)) => {
            format!(in alloc; "report file {file} line {line}: {text}\n")
        }
        Fault::Merging(MergeFault::Other(file)) => {
            format!(in alloc; "report file {file}: {text}\n")
        }
        Fault::Merging(MergeFault::Twice(part) | MergeFault::Missing(part)) => {
            format!(in alloc; "part {part} {text}\n")
        }
        Fault::OpenReport(file) => format!(in alloc; "{text} file {file}\n"),
        Fault::ReadReport(file) => format!(in alloc; "{text} in report file {file}\n"),
        Fault::Refused(_) => format!(in alloc; "refused: {text}\n"),
        Fault::Unsettled(_) => format!(in alloc; "unsettled: {text}\n"),
        _ => format!(in alloc; "{text}\n"),
    }
}

fn damage_lines(alloc: Global, damage: &Damage) -> Line
    ensures { IfOk result (λ lines. string_bytes lines ≡ damage_lines damage.now) }
{
    let refused = damage_line(alloc, damage.refused, "refused step")?;
    let held_twice = damage_line(alloc, damage.held_twice, "lock held twice")?;
    let no_line_feed = damage_line(alloc, damage.no_line_feed, "no line feed")?;
    let no_end = damage_line(alloc, damage.no_end, "no end")?;
    let lost = lost_line(alloc, damage.lost)?;
    format!(in alloc; "{refused}{held_twice}{no_line_feed}{no_end}{lost}")
}

fn lost_line(alloc: Global, lost: Option<Lost>) -> Line
    ensures { IfOk result (λ written. string_bytes written ≡ lost_line lost) }
{
    match lost {
        Some(Lost { line, events }) => { format!(in alloc; "line {line}: events lost: {events}\n") }
        None => Ok(String::new(alloc)),
    }
}

fn damage_line(alloc: Global, line: Option<u64>, text: &str) -> Line
    ensures { IfOk result (λ written. string_bytes written ≡ damage_line line text.now) }
{
    match line {
        Some(line) => format!(in alloc; "line {line}: {text}\n"),
        None => Ok(String::new(alloc)),
    }
}

const NO_END: &str = "note: the trace has no end: it may be cut off\n";

const NO_LINE_FEED: &str = "note: the last line has no line feed: it may be cut off\n";

fn notes_text(alloc: Global, notes: TextNotes) -> Line
    ensures { IfOk result (λ text. string_bytes text ≡ notes_text notes) }
{
    let no_end = line_if(notes.no_end, NO_END);
    let no_line_feed = line_if(notes.no_line_feed, NO_LINE_FEED);
    let unordered = unordered_line(alloc, notes.unordered)?;
    format!(in alloc; "{no_end}{no_line_feed}{unordered}")
}

fn unordered_line(alloc: Global, count: u64) -> Line
    ensures { IfOk result (λ line. string_bytes line ≡ unordered_line count) }
{
    if count == 0 {
        return Ok(String::new(alloc));
    }
    format!(in alloc;
        "note: this trace records no order: record it with --order; {count} unordered accesses may be ordered\n"
    )
}

fn line_if(is_noted: bool, line: &'static str) -> &'static str
    ensures { result.now ≡ line_if is_noted line.now }
{
    if is_noted { line } else { "" }
}
