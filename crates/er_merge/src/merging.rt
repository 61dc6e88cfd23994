//! The one report of a trace, of the reports of its parts.
ghost use Rattle.std.specs.Prelude.{◌≡◌, [], ◌∷◌, ◌++◌, None, IfOk, OnOk, flat_map, map, vec_items};
ghost use Rattle.std.specs.List.{range_with_len};
ghost use Rattle.er_merge.specs.Merging.{Sums, GivesSums, EndsAs, GivesText, HasPagesOf, IsInOrder, IsGap, Merges, MergesParts, ReadsAll, entries_in, entry_text, figure_of, gap_from, is_like, kind_of, lost_of, number_of_parts, other_in, place_order, places_of, rule_sum, rules_in, sums_of, text_of_entries};
ghost use Rattle.er_report.specs.Report.{told};
ghost use Rattle.er_merge.specs.declared.faults.MergeFault.TheVariants.{Memory};

use crate::faults::MergeFault;
use crate::parts::{Entry, PartReport, read_part};
use er_event::Word;
use er_parts::Part;
use er_print::{ReportKind, put_end};
use er_report::Report;
use std::alloc::{AllocError, Global};
use std::cmp::Ordering;

/// The one report.
#[derive(Drop)]
pub struct Merged {
    /// Its text.
    pub text: Vec<u8>,
    /// What it counts, without its lines.
    pub counts: Report,
    /// The part of the trace that has the pages of its lines.
    pub pages: Part,
}

impl From<AllocError> for MergeFault {
    ghost from_gives = { λ _ fault. fault ≡ Memory };

    fn from(_error: AllocError) -> MergeFault {
        MergeFault::Memory
    }
}

/// The report of a whole trace, if these texts are the reports of its parts, each once, in whatever order.
pub fn merge_reports(alloc: Global, texts: &[Vec<u8>]) -> Result<Merged, MergeFault>
    ensures { Merges (map vec_items texts.now) result }
{
    let parts = read_parts(alloc, texts)?;
    let merged = merge_parts(alloc, &parts);
    drop(parts);
    merged
}

fn read_parts(alloc: Global, texts: &[Vec<u8>]) -> Result<Vec<PartReport<'_>>, MergeFault>
    ensures { ReadsAll (map vec_items texts.now) result }
{
    let mut parts = Vec::new(alloc);
    for (place, text) in texts.iter().enumerate() {
        match read_part(alloc, place as u64 + 1, text) {
            Ok(part) => push_part(&mut parts, part)?,
            Err(fault) => return Err(fault),
        }
    }
    Ok(parts)
}

fn push_part<'a>(parts: &mut Vec<PartReport<'a>>, part: PartReport<'a>) -> Result<(), AllocError>
    ensures { OnOk result (parts.new.items ≡ parts.old.items ++ part.entry ∷ []) }
{
    parts.push(part)?;
    Ok(())
}

fn merge_parts(alloc: Global, parts: &[PartReport<'_>]) -> Result<Merged, MergeFault>
    ensures { MergesParts parts.now result }
{
    if let Some(number) = other_in(parts) {
        return Err(MergeFault::Other(number));
    }
    match gap_of(alloc, parts) {
        Ok(None) => sum_up(alloc, parts),
        Ok(Some(Gap::Twice(part))) => Err(MergeFault::Twice(part)),
        Ok(Some(Gap::Missing(part))) => Err(MergeFault::Missing(part)),
        Err(_) => Err(MergeFault::Memory),
    }
}

fn sum_up(alloc: Global, parts: &[PartReport<'_>]) -> Result<Merged, MergeFault>
    requires like { other_in parts.now ≡ None }
    requires each { IsGap (number_of_parts parts.now) (places_of parts.now) None }
    ensures { MergesParts parts.now result }
{
    match end_of(alloc, parts) {
        Ok(end) => merge_with(alloc, parts, end),
        Err(fault) => Err(fault),
    }
}

fn merge_with(alloc: Global, parts: &[PartReport<'_>], end: Report) -> Result<Merged, MergeFault>
    requires like { other_in parts.now ≡ None }
    requires each { IsGap (number_of_parts parts.now) (places_of parts.now) None }
    requires end { told end ≡ sums_of parts.now }
    ensures { MergesParts parts.now result }
{
    match text_of(alloc, parts, &end) {
        Ok((text, pages)) => Ok(Merged {
            text,
            counts: end,
            pages,
        }),
        Err(_) => {
            drop(end);
            Err(MergeFault::Memory)
        }
    }
}

// The first report that is of another trace than the first.
fn other_in(parts: &[PartReport<'_>]) -> Option<u64>
    ensures { result ≡ other_in parts.now }
{
    let (first, others) = parts.split_first()?;
    for (place, part) in others.iter().enumerate() {
        if !is_like(first, part) {
            return Some(place as u64 + 2);
        }
    }
    None
}

fn is_like(first: &PartReport<'_>, part: &PartReport<'_>) -> bool
    ensures { result ≡ is_like first.now part.now }
{
    first.heading.parts == part.heading.parts
        && first.heading.about == part.heading.about
        && first.content.counts.len() == part.content.counts.len()
        && first.content.totals.unordered == part.content.totals.unordered
        && first.content.totals.lost == part.content.totals.lost
}

/// What is wrong with the numbers of parts.
#[derive(Clone, Copy, Drop)]
pub enum Gap {
    /// This part is given twice.
    Twice(u64),
    /// This part is missing.
    Missing(u64),
}

// The first part, by its number, that is given twice or missing.
fn gap_of(alloc: Global, parts: &[PartReport<'_>]) -> Result<Option<Gap>, AllocError>
    ensures { IfOk result (IsGap (number_of_parts parts.now) (places_of parts.now)) }
{
    let mut places = places_of(alloc, parts)?;
    places.sort_unstable();
    let gap = gap_in(&places, number_of_parts(parts));
    drop(places);
    Ok(gap)
}

fn places_of(alloc: Global, parts: &[PartReport<'_>]) -> Result<Vec<u64>, AllocError>
    ensures { IfOk result (λ places. places.items ≡ places_of parts.now) }
{
    parts.iter().map(|part| part.heading.part).collect(alloc)
}

fn number_of_parts(parts: &[PartReport<'_>]) -> u64
    ensures { result ≡ number_of_parts parts.now }
{
    match parts {
        [first, ..] => first.heading.parts,
        [] => 1,
    }
}

fn gap_in(places: &[u64], parts: u64) -> Option<Gap>
    ensures { result ≡ gap_from parts 1 places.now }
{
    for (before, place) in places.iter().enumerate() {
        let next = before as u64 + 1;
        if *place < next {
            return Some(Gap::Twice(*place));
        }
        if next < *place {
            return Some(Gap::Missing(next));
        }
    }
    let next = places.len() as u64 + 1;
    (next <= parts).then_some(Gap::Missing(next))
}

/// What the reports count.
#[derive(Clone, Copy)]
pub enum Figure {
    Steps,
    Races,
    Suppressed,
    Refused,
    /// The races that the rule in this place took.
    Rule(usize),
}

// What the one report ends with. It has no lines.
fn end_of(alloc: Global, parts: &[PartReport<'_>]) -> Result<Report, MergeFault>
    ensures { EndsAs parts.now result }
{
    let steps = sum_of(parts, Figure::Steps)?;
    let races = sum_of(parts, Figure::Races)?;
    let suppressed = sum_of(parts, Figure::Suppressed)?;
    let refused = sum_of(parts, Figure::Refused)?;
    let rule_counts = rule_sums(alloc, parts, rules_in(parts))?;
    Ok(Report {
        lines: Vec::new(alloc),
        stop: None,
        rule_counts,
        steps,
        races,
        suppressed,
        refused,
        lost: lost_of(parts),
    })
}

fn sum_of(parts: &[PartReport<'_>], figure: Figure) -> Result<u64, MergeFault>
    ensures { Sums parts.now figure result }
{
    let mut sum = 0u64;
    for part in parts {
        let Some(more) = sum.checked_add(figure_of(figure, part)) else {
            return Err(MergeFault::CountsTooLarge);
        };
        sum = more;
    }
    Ok(sum)
}

fn figure_of(figure: Figure, part: &PartReport<'_>) -> u64
    ensures { result ≡ figure_of figure part.now }
{
    match figure {
        Figure::Steps => part.content.totals.steps,
        Figure::Races => part.content.totals.races,
        Figure::Suppressed => part.content.totals.suppressed,
        Figure::Refused => part.content.totals.refused,
        Figure::Rule(place) => part.content.counts.get(place).copied().unwrap_or(0),
    }
}

fn rules_in(parts: &[PartReport<'_>]) -> usize
    ensures { result ≡ rules_in parts.now }
{
    match parts {
        [first, ..] => first.content.counts.len(),
        [] => 0,
    }
}

fn rule_sums(alloc: Global, parts: &[PartReport<'_>], rules: usize) -> Result<Vec<u64>, MergeFault>
    ensures { GivesSums parts.now (map (rule_sum parts.now) (range_with_len 0 rules)) result }
{
    let mut sums = Vec::new(alloc);
    for place in 0..rules {
        let sum = sum_of(parts, Figure::Rule(place))?;
        push_sum(&mut sums, sum)?;
    }
    Ok(sums)
}

fn push_sum(sums: &mut Vec<u64>, sum: u64) -> Result<(), AllocError>
    ensures { OnOk result (sums.new.items ≡ sums.old.items ++ sum ∷ []) }
{
    sums.push(sum)?;
    Ok(())
}

fn lost_of(parts: &[PartReport<'_>]) -> Option<u64>
    ensures { result ≡ lost_of parts.now }
{
    match parts {
        [first, ..] => Some(first.content.totals.lost),
        [] => None,
    }
}

fn kind_of(parts: &[PartReport<'_>]) -> ReportKind
    ensures { result ≡ kind_of parts.now }
{
    match parts {
        [first, ..] if first.content.totals.unordered => ReportKind::Unordered,
        _ => ReportKind::Lockset,
    }
}

// The text of the lines of all, and of this end, and the part that has their pages.
fn text_of(
    alloc: Global,
    parts: &[PartReport<'_>],
    end: &Report,
) -> Result<(Vec<u8>, Part), AllocError>
    ensures { IfOk result (λ made. GivesText parts.now end.now made.0.items made.1) }
{
    let entries = entries_of(alloc, parts)?;
    let pages = pages_of(alloc, &entries)?;
    let text = text_with(alloc, &entries, kind_of(parts), end);
    drop(entries);
    Ok((text?, pages))
}

fn pages_of(alloc: Global, entries: &[Entry<'_>]) -> Result<Part, AllocError>
    ensures { IfOk result (HasPagesOf entries.now) }
{
    let pages: Vec<u64> = entries
        .iter()
        .map(|entry| entry.place.address / (Word::PER_PAGE * Word::BYTES))
        .collect(alloc)?;
    let part = Part::of_pages(&pages);
    drop(pages);
    Ok(part)
}

fn text_with(
    alloc: Global,
    entries: &[Entry<'_>],
    of: ReportKind,
    end: &Report,
) -> Result<Vec<u8>, AllocError>
    ensures { IfOk result (λ text. text.items ≡ text_of_entries entries.now of end.now) }
{
    let mut text = Vec::new(alloc);
    put_entries(&mut text, entries)?;
    put_end(&mut text, of, end)?;
    Ok(text)
}

fn put_entries(out: &mut Vec<u8>, entries: &[Entry<'_>]) -> Result<(), AllocError>
    ensures { OnOk result (out.new.items ≡ out.old.items ++ flat_map entry_text entries.now) }
{
    for entry in entries {
        out.extend_from_slice(entry.text)?;
        out.push(b'\n')?;
    }
    Ok(())
}

// The lines of all in their order. Lines of one place keep the order that they have.
fn entries_of<'a>(alloc: Global, parts: &[PartReport<'a>]) -> Result<Vec<Entry<'a>>, AllocError>
    ensures { IfOk result (λ entries. IsInOrder (flat_map entries_in parts.now) entries.items) }
{
    let mut entries = Vec::new(alloc);
    for part in parts {
        entries.extend_from_slice(&part.content.entries)?;
    }
    entries.sort_by(|entry: &Entry<'_>, other: &Entry<'_>| order_of(entry, other))?;
    Ok(entries)
}

fn order_of(entry: &Entry<'_>, other: &Entry<'_>) -> Ordering
    ensures { result ≡ place_order entry.now other.now }
{
    let lines = entry.place.line.cmp(&other.place.line);
    lines.then(entry.place.address.cmp(&other.place.address))
}
