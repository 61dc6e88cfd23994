//! The lines of a report.
ghost use Rattle.std.specs.Prelude.{◌≡◌, ◌<◌, [], ◌∷◌, ◌++◌, length, All, codes, decimal, flat_map, OnOk};
ghost use Rattle.er_event.specs.Refusal.{text_of};
ghost use Rattle.er_report.specs.declared.report.Deed.TheVariants as deed;
ghost use Rattle.er_print.specs.Printed.{HasEventNames, event_text, kind_text, name_at, HasNames, HasRaceNames, HasReasonNames, RacedView, line_view, told, bytes_between, deed_text, place_text, race_label, races_label, reason_text, line_text, stop_text, counts_text, lost_text, totals_text, end_text};

use crate::naming::{put_address, put_event_behind, verb};
use crate::pieces::Piece::{Address, NamedSite, Number, State, Text, Thread};
use crate::styles::{Style, put_label_in, put_locks_in, put_site_in};
use crate::{Put, put};
use er_event::{Kind, NoRoom, PageRange, Refusal, Step, ThreadId, Word};
use er_lines::put_number;
use er_report::{Because, Deed, Line, Race, Report};
use er_trace::Names;

/// Which of a trace's reports a text is of. They differ in what they call a race.
#[derive(Clone, Copy, Debug, PartialEq, Eq, Drop)]
pub enum ReportKind {
    /// The report of the lockset rule.
    Lockset,
    /// The report by happens-before, in which a race is an unordered access or reuse.
    Unordered,
}

/// Puts one line. A race has a further line for each of its reasons.
pub(crate) fn put_line(out: &mut Vec<u8>, of: ReportKind, names: &Names, line: &Line) -> Put
    requires { HasNames names.now line.now }
    ensures { OnOk result (out.new.items ≡ out.old.items ++ line_text of names.now (line_view line.now)) }
{
    match line {
        Line::Refused {
            line,
            step,
            refusal,
        } => put_refused(out, names, *line, step, *refusal),
        Line::Shown { line, word, state } => put!(out, Style::Plain, names;
            Number(b"line ", *line), Address(b": state ", *word), State(b": ", state),
            Text(b"\n")
        ),
        _ => match line.race() {
            Some(race) => put_race(out, of, names, &race),
            None => Ok(()),
        },
    }
}

fn put_race(out: &mut Vec<u8>, of: ReportKind, names: &Names, race: &Race<'_>) -> Put
    requires { HasRaceNames names.now race.now }
    ensures { OnOk result (out.new.items ≡ out.old.items ++ line_text of names.now (RacedView race.now)) }
{
    put_place(out, race.line)?;
    out.extend_from_slice(race_label(of))?;
    put_deed(out, names, race)?;
    put_reasons(out, names, race.explained)
}

fn put_deed(out: &mut Vec<u8>, names: &Names, race: &Race<'_>) -> Put
    requires { HasRaceNames names.now race.now }
    ensures { OnOk result (out.new.items ≡ out.old.items ++ deed_text names.now race.now race.now.deed) }
{
    match race.deed {
        Deed::Access(kind, word) => put_access(out, names, race, kind, word),
        Deed::Reuse(range) => put!(out, Style::Plain, names;
            Thread(b"", race.thread), Address(b" reuse ", range.lo),
            Number(b" ", bytes_of(&range)), NamedSite(b" at ", race.site), Text(b"\n")
        ),
    }
}

// The commonest lines are put without a list of parts, which would cost as much again, and in few pieces.
#[inline]
fn put_refused(out: &mut Vec<u8>, names: &Names, line: u64, step: &Step, refusal: Refusal) -> Put
    requires thread { step.now.thread < length names.now.threads }
    requires event { HasEventNames names.now step.now.event }
    ensures { OnOk result (out.new.items ≡ out.old.items ++ (place_text line ++ codes "refused: " ++ name_at names.now.threads step.now.thread ++ codes " " ++ event_text names.now step.now.event ++ codes ": " ++ text_of refusal ++ 10 ∷ [])) }
{
    put_labelled(out, b"line ", line)?;
    out.extend_from_slice(b": refused: ")?;
    put_thread(out, names, step.thread)?;
    put_event_behind(out, names, step.event)?;
    put_why(out, refusal)
}

// Puts what a refused line ends with.
#[inline]
fn put_why(out: &mut Vec<u8>, refusal: Refusal) -> Put
    ensures { OnOk result (out.new.items ≡ out.old.items ++ (codes ": " ++ text_of refusal ++ 10 ∷ [])) }
{
    match refusal {
        Refusal::AlreadyHeld => out.extend_from_slice(b": already held\n"),
        Refusal::NotHeld => out.extend_from_slice(b": not held\n"),
        _ => {
            out.extend_from_slice(b": ")?;
            out.extend_from_slice(refusal.text().as_bytes())?;
            out.extend_from_slice(b"\n")
        }
    }
}

#[inline]
fn put_access(out: &mut Vec<u8>, names: &Names, race: &Race<'_>, kind: Kind, word: Word) -> Put
    requires { HasRaceNames names.now race.now }
    ensures { OnOk result (out.new.items ≡ out.old.items ++ deed_text names.now race.now (deed.Access kind word)) }
{
    put_thread(out, names, race.thread)?;
    out.extend_from_slice(spaced_verb(kind))?;
    put_address(out, word)?;
    out.extend_from_slice(b" at ")?;
    put_site_in(out, Style::Plain, names, race.site)?;
    out.extend_from_slice(b", holds ")?;
    put_locks_in(out, Style::Plain, names, race.held)?;
    out.extend_from_slice(b"\n")
}

#[inline]
fn put_thread(out: &mut Vec<u8>, names: &Names, thread: ThreadId) -> Put
    requires { thread < length names.now.threads }
    ensures { OnOk result (out.new.items ≡ out.old.items ++ name_at names.now.threads thread) }
{
    out.extend_from_slice(names.thread_name(thread).as_bytes())
}

// The verb of an access, between spaces.
fn spaced_verb(kind: Kind) -> &'static [u8]
    ensures { result.now ≡ codes " " ++ kind_text kind ++ codes " " }
{
    match kind {
        Kind::Read => b" read ".as_slice(),
        Kind::Write => b" write ".as_slice(),
    }
}

fn put_reasons(out: &mut Vec<u8>, names: &Names, explained: &[Because]) -> Put
    requires { All (HasReasonNames names.now) explained.now }
    ensures { OnOk result (out.new.items ≡ out.old.items ++ flat_map (reason_text names.now) explained.now) }
{
    for because in explained {
        out.extend_from_slice(b"  ")?;
        put_label_in(out, Style::Plain, names, because.label)?;
        put_labelled(out, b": line ", because.line)?;
        out.extend_from_slice(b", ")?;
        put_thread(out, names, because.thread)?;
        out.extend_from_slice(b" ")?;
        out.extend_from_slice(verb(because.kind))?;
        out.extend_from_slice(b"\n")?;
    }
    Ok(())
}

fn race_label(of: ReportKind) -> &'static [u8]
    ensures { result.now ≡ race_label of }
{
    match of {
        ReportKind::Lockset => b"race: ".as_slice(),
        ReportKind::Unordered => b"unordered: ".as_slice(),
    }
}

/// How many bytes the words of a range have.
pub fn bytes_of(range: &PageRange) -> u64
    ensures { result ≡ bytes_between range.now.lo range.now.hi }
{
    (range.hi.number() - range.lo.number() + 1) * Word::BYTES
}

/// Puts what a report ends with: the stop, the rules and the totals.
pub fn put_end(out: &mut Vec<u8>, of: ReportKind, report: &Report) -> Put
    ensures { OnOk result (out.new.items ≡ out.old.items ++ end_text of (told report.now)) }
{
    put_stop(out, report.stop)?;
    put_rule_counts(out, &report.rule_counts)?;
    put_totals(out, of, report)
}

fn put_stop(out: &mut Vec<u8>, stop: Option<(u64, NoRoom)>) -> Put
    ensures { OnOk result (out.new.items ≡ out.old.items ++ stop_text stop) }
{
    let Some((line, cause)) = stop else {
        return Ok(());
    };
    put_place(out, line)?;
    out.extend_from_slice(b"stopped: ")?;
    out.extend_from_slice(cause.refusal().text().as_bytes())?;
    out.extend_from_slice(b"\n")
}

// Puts a line for each rule, with its number, from 1, and how many races it took.
fn put_rule_counts(out: &mut Vec<u8>, rule_counts: &[u64]) -> Put
    ensures { OnOk result (out.new.items ≡ out.old.items ++ counts_text 1 rule_counts.now) }
{
    for (k, count) in rule_counts.iter().enumerate() {
        put_labelled(out, b"suppression ", k as u64 + 1)?;
        put_labelled(out, b": ", *count)?;
        out.extend_from_slice(b"\n")?;
    }
    Ok(())
}

fn put_totals(out: &mut Vec<u8>, of: ReportKind, report: &Report) -> Put
    ensures { OnOk result (out.new.items ≡ out.old.items ++ totals_text of (told report.now)) }
{
    put_labelled(out, b"steps ", report.steps)?;
    put_labelled(out, races_label(of), report.races)?;
    put_labelled(out, b", suppressed ", report.suppressed)?;
    put_labelled(out, b", refused ", report.refused)?;
    put_lost(out, b", lost ", report.lost, b"")?;
    out.extend_from_slice(b"\n")?;
    Ok(())
}

fn races_label(of: ReportKind) -> &'static [u8]
    ensures { result.now ≡ races_label of }
{
    match of {
        ReportKind::Lockset => b", races ".as_slice(),
        ReportKind::Unordered => b", unordered ".as_slice(),
    }
}

/// Puts how many events were lost, between these two texts, or nothing if none was.
#[tactic(auto, unfolding(crate::specs::Printed::lost_text))]
pub fn put_lost(out: &mut Vec<u8>, before: &[u8], lost: Option<u64>, after: &[u8]) -> Put
    ensures { OnOk result (out.new.items ≡ out.old.items ++ lost_text before.now after.now lost) }
{
    match lost {
        Some(lost) if lost > 0 => {
            put_labelled(out, before, lost)?;
            out.extend_from_slice(after)
        }
        _ => Ok(()),
    }
}

#[inline]
fn put_labelled(out: &mut Vec<u8>, label: &[u8], n: u64) -> Put
    ensures { OnOk result (out.new.items ≡ out.old.items ++ (label.now ++ decimal n)) }
{
    out.extend_from_slice(label)?;
    put_number(out, n)
}

// Puts what a line that tells of a line of the trace begins with.
fn put_place(out: &mut Vec<u8>, line: u64) -> Put
    ensures { OnOk result (out.new.items ≡ out.old.items ++ place_text line) }
{
    put_labelled(out, b"line ", line)?;
    out.extend_from_slice(b": ")
}
