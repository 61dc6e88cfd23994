//! All of it at once, as a command line asks for it: reports with the lines of their first races alone, rules and notes.
ghost use Rattle.std.specs.Prelude.{◌≡◌, ◌-◌, ◌||◌, [], None, cond, false, is_some, length, nat_lt, not, true, All, IfOk, IfSome, IsSomeAnd};
ghost use Rattle.er_rules.specs.Rules.{targets_of};
ghost use Rattle.er_triage.specs.First.{first_races, KeepFirst, IsOfFirst, KeepsFirst};
ghost use Rattle.er_triage.specs.Known.{lines_of, race_of, HasNames, HaveNames, NameTable};
ghost use Rattle.er_triage.specs.Notes.{AreNotes, notes_text};
ghost use Rattle.er_triage.specs.Texts.{unused_from, IsKnownText};

use crate::known::{known_races, lines_in};
use crate::texts::{known_races_text, left_out_text, unused_rules_text};
use er_print::Built;
use er_report::{Line, Report, Reports};
use er_rules::Suppressions;
use er_trace::Names;
use std::alloc::{AllocError, Global};

/// What is wanted of reports besides their text.
#[derive(Clone, Copy, Debug, PartialEq, Eq)]
pub struct Wishes {
    /// A suppression text that takes their races.
    pub known_races: bool,
    /// The rules that took no race.
    pub unused_rules: bool,
    /// How many races of each report may have lines, if that is limited.
    pub max_races: Option<u64>,
}

/// Reports, and what was wanted besides.
#[derive(Drop)]
pub struct Triaged {
    /// The reports, with the lines of their first races alone if that was wanted.
    pub reports: Reports,
    /// A suppression text that takes all races of the reports, those without a line too, if it was wanted.
    pub known_races: Option<Vec<u8>>,
    /// Lines for standard error: the rules that took no race, and how many races have no line.
    pub notes: Vec<u8>,
}

/// Does with reports what is wanted.
pub fn triage(
    alloc: Global,
    reports: Reports,
    names: &Names,
    suppressions: &Suppressions,
    wishes: Wishes,
) -> Result<Triaged, AllocError>
    requires { HaveNames names.now reports }
    ensures report { IfOk result (λ triaged. KeepFirst wishes.max_races reports triaged.reports) }
    ensures named { IfOk result (λ triaged. HaveNames names.now triaged.reports) }
    ensures known { wishes.known_races ≡ true → IfOk result (λ triaged. IsSomeAnd triaged.known_races (λ text. IsKnownText names.now (lines_of reports) text.items)) }
    ensures unknown { wishes.known_races ≡ false → IfOk result (λ triaged. triaged.known_races ≡ None) }
    ensures says { IfOk result (λ triaged. triaged.notes.items ≡ notes_text wishes.unused_rules reports (targets_of suppressions.now) (length (lines_of reports) - length (lines_of triaged.reports))) }
    ensures notes { IfOk result (λ triaged. AreNotes triaged.notes.items) }
    ensures quiet { wishes.unused_rules ≡ false → wishes.max_races ≡ None → IfOk result (λ triaged. triaged.notes.items ≡ []) }
{
    let known_races = known_if(alloc, &reports, names, wishes.known_races)?;
    let mut notes = unused_if(alloc, suppressions, &reports, wishes.unused_rules)?;
    let all = count_lines(&reports);
    let Reports { lockset, unordered } = reports;
    let reports = Reports {
        lockset: keep_first_races(alloc, lockset, wishes.max_races)?,
        unordered: keep_first_races(alloc, unordered, wishes.max_races)?,
    };
    let left_out = all.saturating_sub(count_lines(&reports));
    notes.extend_from_slice(&left_out_text(alloc, left_out)?)?;
    Ok(Triaged {
        reports,
        known_races,
        notes,
    })
}

/// The report, if there is one, with the lines of its first races, at most this many if that is limited. All other lines and all counts are
/// as they were.
pub fn keep_first_races(
    alloc: Global,
    report: Option<Report>,
    most: Option<u64>,
) -> Result<Option<Report>, AllocError>
    ensures report { IfOk result (KeepsFirst most report) }
    ensures named { (names : NameTable) → IfSome report (λ report. All (HasNames names) report.lines.items)
        → IfOk result (λ kept. IfSome kept (λ kept. All (HasNames names) kept.lines.items)) }
{
    match (report, most) {
        (Some(report), Some(most)) => Ok(Some(keep_first(alloc, report, most)?)),
        (report, _) => Ok(report),
    }
}

fn known_if(
    alloc: Global,
    reports: &Reports,
    names: &Names,
    wanted: bool,
) -> Result<Option<Vec<u8>>, AllocError>
    requires { HaveNames names.now reports.now }
    ensures known { wanted ≡ true → IfOk result (λ known. IsSomeAnd known (λ text. IsKnownText names.now (lines_of reports.now) text.items)) }
    ensures unknown { wanted ≡ false → IfOk result (λ known. known ≡ None) }
{
    if !wanted {
        return Ok(None);
    }
    let known = known_races(alloc, reports, names)?;
    Ok(Some(known_races_text(alloc, &known, names)?))
}

fn unused_if(alloc: Global, suppressions: &Suppressions, reports: &Reports, wanted: bool) -> Built
    ensures { IfOk result (λ text. text.items ≡ cond wanted (unused_from 0 reports.now (targets_of suppressions.now)) []) }
{
    if !wanted {
        return Ok(Vec::new(alloc));
    }
    unused_rules_text(alloc, suppressions, reports)
}

fn count_lines(reports: &Reports) -> u64
    ensures { result ≡ length (lines_of reports.now) }
{
    lines_in(&reports.lockset).len() as u64 + lines_in(&reports.unordered).len() as u64
}

fn keep_first(alloc: Global, mut report: Report, most: u64) -> Result<Report, AllocError>
    ensures { IfOk result (IsOfFirst most report) }
{
    report.lines = first_lines(alloc, report.lines, most)?;
    Ok(report)
}

fn first_lines(alloc: Global, lines: Vec<Line>, most: u64) -> Result<Vec<Line>, AllocError>
    ensures { IfOk result (λ kept. kept.items ≡ first_races most lines.items) }
{
    let mut kept = Vec::new(alloc);
    let mut left = most;
    for line in lines {
        if is_kept(&line, &mut left) {
            kept.push(line)?;
        } else {
            drop(line);
        }
    }
    Ok(kept)
}

// Whether a line is kept. A race is only if some are left, and then one less is.
fn is_kept(line: &Line, left: &mut u64) -> bool
    ensures kept { result ≡ (not (is_some (race_of line.now)) || nat_lt 0 left.old) }
    ensures left { left.new ≡ cond (is_some (race_of line.now)) (left.old - 1) left.old }
{
    if line.race().is_none() {
        return true;
    }
    if *left == 0 {
        return false;
    }
    *left -= 1;
    true
}
