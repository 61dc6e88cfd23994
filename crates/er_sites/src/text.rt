//! The whole text.
ghost use Rattle.std.specs.Prelude.{◌≡◌, ◌++◌, ◌≤◌, All, find, flat_map, is_some, length, option_copied, slice_get, IfOk, IfSome, OnOk};
ghost use Rattle.std.specs.List.{list_any};
ghost use Rattle.er_sites.specs.Sites.{AreSitesOf, HaveNames, end_if, lines_or, nothing_in, other_rows, others_text, reuses_text, run_text, sites_text, title_of, told_mentions};
ghost use Rattle.er_sites.specs.Text.{HasNames, example_of, is_refused, is_reused, kinds_text, refused_text, row_text, rows_text};
ghost use Rattle.er_sites.specs.Mentions.{headed, mention_title, mentions_text};

use crate::counts::count_races;
use crate::mentions::{Mention, Numbers, add_examples, add_reuses, put_mentions};
use crate::names::put_column;
use crate::row::SiteRow;
use crate::stories::{put_example, put_reuse_story};
use crate::table::site_rows;
use er_places::Legend;
use er_print::Piece::{Site as At, Text};
use er_print::{Built, Put, ReportKind, Style, put, put_end, put_number};
use er_report::{Line, Report, Reports};
use er_trace::Names;
use std::alloc::{AllocError, Global};

/// The races of the reports by their sites, with these names for their numbers. First come the sites of the unordered accesses, which race in
/// this very run, and the unordered reuses, and then the other sites of the races by the lockset rule, at which no lock is held in common. The
/// line of the first refused step follows, and what each report ends with. If both reports are there, each part has a heading, and that of the
/// run always has one. Behind each reason stands where its access was, as far as the places are known.
pub fn sites_text(alloc: Global, reports: &Reports, legend: &Legend) -> Built
    requires { HaveNames legend.now.names.now reports.now }
    ensures { IfOk result (λ text. AreSitesOf legend.now.names.now legend.now.places.now reports.now text.items) }
{
    let unordered = lines_or(&reports.unordered, &[]);
    let first = site_rows(alloc, unordered, legend.names)?;
    let all = site_rows(alloc, lines_or(&reports.lockset, &[]), legend.names)?;
    let others = other_rows(alloc, unordered, &all)?;
    text_of_rows(alloc, reports, legend, &first, &others)
}

// The lines of a report, or these if it isn't there.
fn lines_or<'a>(report: &'a Option<Report>, others: &'a [Line]) -> &'a [Line]
    ensures { result.now ≡ lines_or report.now others.now }
{
    match report {
        Some(report) => &report.lines,
        None => others,
    }
}

#[tactic(auto, unfolding(crate::specs::Sites::sites_text))]
fn text_of_rows(
    alloc: Global,
    reports: &Reports,
    legend: &Legend,
    first: &[SiteRow],
    others: &[SiteRow],
) -> Built
    requires names { HaveNames legend.now.names.now reports.now }
    requires first { All (λ row. row.site ≤ length legend.now.names.now.sites) first.now }
    requires others { All (λ row. row.site ≤ length legend.now.names.now.sites) others.now }
    ensures { IfOk result (λ text. text.items ≡ sites_text legend.now.names.now legend.now.places.now reports.now first.now others.now) }
{
    let refusing = lines_or(&reports.lockset, lines_or(&reports.unordered, &[]));
    let both = reports.unordered.is_some();
    let mut text = Vec::new(alloc);
    put_run(&mut text, legend, &reports.unordered, first)?;
    put_others(&mut text, legend, &reports.lockset, both, others)?;
    put_mentioned(&mut text, Mention::Threads, reports, legend, first, others)?;
    put_mentioned(&mut text, Mention::Locks, reports, legend, first, others)?;
    put_refused(&mut text, first_refused(refusing))?;
    put_end_if(&mut text, ReportKind::Lockset, &reports.lockset)?;
    put_end_if(&mut text, ReportKind::Unordered, &reports.unordered)?;
    Ok(text)
}

// Puts where the threads of the examples were started, or where the lives of their locks began, below a heading, if that is known of one.
#[tactic(auto, unfolding(crate::specs::Mentions::mentions_text))]
fn put_mentioned(
    out: &mut Vec<u8>,
    of: Mention,
    reports: &Reports,
    legend: &Legend,
    first: &[SiteRow],
    others: &[SiteRow],
) -> Put
    requires { HaveNames legend.now.names.now reports.now }
    ensures { OnOk result (out.new.items ≡ out.old.items ++ mentions_text of legend.now.names.now legend.now.places.now (told_mentions of legend.now.places.now reports.now first.now others.now)) }
{
    let alloc = *out.allocator();
    let mut numbers = Numbers::new(alloc);
    let places = legend.places;
    let unordered = lines_or(&reports.unordered, &[]);
    let lockset = lines_or(&reports.lockset, &[]);
    places.are_named();
    add_examples(&mut numbers, of, places, unordered, first)?;
    add_reuses(&mut numbers, of, places, unordered)?;
    add_examples(&mut numbers, of, places, lockset, others)?;
    let mut lines = Vec::new(alloc);
    put_mentions(&mut lines, of, legend, numbers.as_slice())?;
    put_headed(out, mention_title(of), &lines)
}

fn mention_title(of: Mention) -> &'static [u8]
    ensures { result.now ≡ mention_title of }
{
    match of {
        Mention::Threads => b"threads:\n".as_slice(),
        Mention::Locks => b"locks:\n".as_slice(),
    }
}

// Puts lines below this heading and above an empty line, if there are some.
fn put_headed(out: &mut Vec<u8>, title: &[u8], lines: &[u8]) -> Put
    ensures { OnOk result (out.new.items ≡ out.old.items ++ headed title.now lines.now) }
{
    if lines.is_empty() {
        return Ok(());
    }
    out.extend_from_slice(title)?;
    out.extend_from_slice(lines)?;
    out.extend_from_slice(b"\n")
}

fn put_end_if(out: &mut Vec<u8>, of: ReportKind, report: &Option<Report>) -> Put
    ensures { OnOk result (out.new.items ≡ out.old.items ++ end_if of report.now) }
{
    match report {
        Some(report) => put_end(out, of, report),
        None => Ok(()),
    }
}

// Puts what is unordered in this run: the sites of accesses, and then the reuses.
fn put_run(out: &mut Vec<u8>, legend: &Legend, report: &Option<Report>, rows: &[SiteRow]) -> Put
    requires names { IfSome report.now (λ report. All (HasNames legend.now.names.now) report.lines.items) }
    requires rows { All (λ row. row.site ≤ length legend.now.names.now.sites) rows.now }
    ensures { OnOk result (out.new.items ≡ out.old.items ++ run_text legend.now.names.now legend.now.places.now report.now rows.now) }
{
    let Some(report) = report else {
        return Ok(());
    };
    let nothing = nothing_in(&report.lines);
    put_title(out, b"races in this run", nothing, rows.is_empty())?;
    put_rows(out, legend, &report.lines, rows)?;
    put_reuses(out, legend, &report.lines)
}

// Puts the other sites, below a heading if those of the run stand above them.
fn put_others(
    out: &mut Vec<u8>,
    legend: &Legend,
    report: &Option<Report>,
    below: bool,
    rows: &[SiteRow],
) -> Put
    requires names { IfSome report.now (λ report. All (HasNames legend.now.names.now) report.lines.items) }
    requires rows { All (λ row. row.site ≤ length legend.now.names.now.sites) rows.now }
    ensures { OnOk result (out.new.items ≡ out.old.items ++ others_text legend.now.names.now legend.now.places.now report.now below rows.now) }
{
    let Some(report) = report else {
        return Ok(());
    };
    if below {
        let nothing = b": no further site\n\n";
        put_title(out, b"no common lock", nothing, rows.is_empty())?;
    }
    put_rows(out, legend, &report.lines, rows)
}

// What stands behind the heading of the run if no site is below it.
fn nothing_in(lines: &[Line]) -> &'static [u8]
    ensures { result.now ≡ nothing_in lines.now }
{
    if has_reuse(lines) {
        b"\n".as_slice()
    } else {
        b": none\n\n".as_slice()
    }
}

fn has_reuse(lines: &[Line]) -> bool
    ensures { result ≡ list_any is_reused lines.now }
{
    lines.iter().any(|line| matches!(line, Line::Reused { .. }))
}

fn put_reuses(out: &mut Vec<u8>, legend: &Legend, lines: &[Line]) -> Put
    requires { All (HasNames legend.now.names.now) lines.now }
    ensures { OnOk result (out.new.items ≡ out.old.items ++ reuses_text legend.now.names.now legend.now.places.now lines.now) }
{
    for line in lines {
        put_reuse_story(out, legend, line)?;
    }
    Ok(())
}

// Puts a heading, and that nothing is below it.
fn put_title(out: &mut Vec<u8>, title: &[u8], nothing: &[u8], none: bool) -> Put
    ensures { OnOk result (out.new.items ≡ out.old.items ++ title_of title.now nothing.now none) }
{
    out.extend_from_slice(title)?;
    out.extend_from_slice(if none { nothing } else { b"\n".as_slice() })
}

// The rows of the sites that have no race among these lines.
#[tactic(auto, unfolding(crate::specs::Sites::other_rows))]
fn other_rows(alloc: Global, lines: &[Line], rows: &[SiteRow]) -> Result<Vec<SiteRow>, AllocError>
    ensures { IfOk result (λ others. others.items ≡ other_rows lines.now rows.now) }
{
    let counts = count_races(alloc, lines)?;
    let mut others = Vec::new(alloc);
    for row in rows {
        if counts.has_none_at(row.site) {
            others.push(*row)?;
        }
    }
    Ok(others)
}

fn put_rows(out: &mut Vec<u8>, legend: &Legend, lines: &[Line], rows: &[SiteRow]) -> Put
    requires names { All (HasNames legend.now.names.now) lines.now }
    requires rows { All (λ row. row.site ≤ length legend.now.names.now.sites) rows.now }
    ensures { OnOk result (out.new.items ≡ out.old.items ++ rows_text legend.now.names.now legend.now.places.now lines.now rows.now) }
{
    if rows.is_empty() {
        return Ok(());
    }
    out.extend_from_slice(b"words     kinds       threads   locks     site\n")?;
    put_table(out, legend.names, rows)?;
    put_examples(out, legend, lines, rows)?;
    out.extend_from_slice(b"\n")
}

fn put_table(out: &mut Vec<u8>, names: &Names, rows: &[SiteRow]) -> Put
    requires { All (λ row. row.site ≤ length names.now.sites) rows.now }
    ensures { OnOk result (out.new.items ≡ out.old.items ++ flat_map (row_text names.now) rows.now) }
{
    for row in rows {
        put_column(out, row.races())?;
        put_kinds(out, row.reads, row.writes, row.reuses)?;
        put_column(out, row.threads)?;
        put_column(out, row.locks)?;
        put!(out, Style::Short, names; At(b"", row.site), Text(b"\n"))?;
    }
    Ok(())
}

// Puts what the races of a row do, and spaces up to the next column.
fn put_kinds(out: &mut Vec<u8>, reads: u64, writes: u64, reuses: u64) -> Put
    ensures { OnOk result (out.new.items ≡ out.old.items ++ kinds_text reads writes reuses) }
{
    out.extend_from_slice(match (reads, writes, reuses) {
        (0, 0, _) => b"reuse       ".as_slice(),
        (0, _, 0) => b"write       ".as_slice(),
        (0, _, _) => b"write reuse ".as_slice(),
        (_, 0, 0) => b"read        ".as_slice(),
        (_, 0, _) => b"read reuse  ".as_slice(),
        (_, _, 0) => b"read write  ".as_slice(),
        _ => b"all three   ".as_slice(),
    })
}

fn put_examples(out: &mut Vec<u8>, legend: &Legend, lines: &[Line], rows: &[SiteRow]) -> Put
    requires { All (HasNames legend.now.names.now) lines.now }
    ensures { OnOk result (out.new.items ≡ out.old.items ++ flat_map (λ row. example_of legend.now.names.now legend.now.places.now (slice_get lines.now row.example)) rows.now) }
{
    for row in rows {
        if let Some(line) = lines.get(row.example) {
            put_example(out, legend, line)?;
        }
    }
    Ok(())
}

fn first_refused(lines: &[Line]) -> Option<&Line>
    ensures { option_copied result ≡ find is_refused lines.now }
{
    lines
        .iter()
        .find(|line| matches!(line, Line::Refused { .. }))
}

// Puts the line of the first refused step, if there is one, and why it was refused.
fn put_refused(out: &mut Vec<u8>, found: Option<&Line>) -> Put
    ensures { OnOk result (out.new.items ≡ out.old.items ++ refused_text (option_copied found.entry)) }
{
    let Some(Line::Refused { line, refusal, .. }) = found else {
        return Ok(());
    };
    out.extend_from_slice(b"first refused: line ")?;
    put_number(out, *line)?;
    out.extend_from_slice(b": ")?;
    out.extend_from_slice(refusal.text().as_bytes())?;
    out.extend_from_slice(b"\n")
}
