//! The whole text: a document for each report.
ghost use Rattle.std.specs.Prelude.{◌≡◌, ◌++◌, ◌<◌, All, false, flat_map, length, map, IfOk, IfSome, OnOk};
ghost use Rattle.er_report.specs.Names.{HasLockName};
ghost use Rattle.er_sites.specs.Mentions.{HasMentionName};
ghost use Rattle.er_json.specs.Document.{HasNames, HaveNames, counts_member, birth_row, created_text, document_if, document_text, json_reports, line_view, list_member, lists_text, mention_row, mention_title, mentions_member, rows_text, sign_if, stop_member, thread_row, told, totals_member};
ghost use Rattle.er_json.specs.Inner.Sections.{is_in, rows_in, separator_text};

use crate::rows::{put_name, put_row};
use er_event::{LockId, NoRoom, ThreadId};
use er_places::{Legend, Places};
use er_print::Piece::{Lock, Name, Number, Text, Thread};
use er_print::{Built, Put, Style, comma_before, put, put_lost, put_number};
use er_report::{Line, Report, Reports};
use er_sites::{MOST_THREADS, Mention, mentioned_in};
use er_trace::Names;
use std::alloc::Global;

// What the documents begin with: only that by happens-before names its analysis.
const LOCKSET_HEADING: &[u8] = b"{\"format\":1,\n\"races\":[";

const ORDER_HEADING: &[u8] = b"{\"format\":1,\"analysis\":\"happens-before\",\n\"races\":[";

/// The JSON of the reports, with these names for their numbers: a document for each report. Two documents are the items of a list, that
/// of the lockset rule first. Each reason of a race says where its access was and what its thread held, as far as the places are known.
#[tactic(auto, unfolding(crate::specs::Document::json_reports))]
pub fn json_text(alloc: Global, reports: &Reports, legend: &Legend) -> Built
    requires { HaveNames legend.now.names.now reports.now }
    ensures { IfOk result (λ text. text.items ≡ json_reports legend.now.names.now legend.now.places.now reports.now) }
{
    let mut text = Vec::new(alloc);
    let (lockset, unordered) = (&reports.lockset, &reports.unordered);
    put_sign(&mut text, reports, b"[\n")?;
    put_document(&mut text, LOCKSET_HEADING, legend, lockset)?;
    put_sign(&mut text, reports, b",\n")?;
    put_document(&mut text, ORDER_HEADING, legend, unordered)?;
    put_sign(&mut text, reports, b"]\n")?;
    Ok(text)
}

/// Puts a sign that stands around or between the texts of two reports, if there are two.
pub(crate) fn put_sign(out: &mut Vec<u8>, reports: &Reports, sign: &[u8]) -> Put
    ensures { OnOk result (out.new.items ≡ out.old.items ++ sign_if reports.now sign.now) }
{
    if reports.lockset.is_some() && reports.unordered.is_some() {
        out.extend_from_slice(sign)?;
    }
    Ok(())
}

// Puts the document of a report, if there is one. It begins with this heading of its first list.
#[tactic(auto, unfolding(crate::specs::Document::document_text))]
fn put_document(out: &mut Vec<u8>, heading: &[u8], legend: &Legend, report: &Option<Report>) -> Put
    requires { IfSome report.now (λ report. All (HasNames legend.now.names.now) report.lines.items) }
    ensures { OnOk result (out.new.items ≡ out.old.items ++ document_if heading.now legend.now.names.now legend.now.places.now report.now) }
{
    match report {
        Some(report) => {
            put_lists(out, heading, legend, &report.lines)?;
            put_stop(out, legend.names, report.stop)?;
            put_counts(out, &report.rule_counts)?;
            put_mentioned(out, Mention::Threads, legend, &report.lines)?;
            put_mentioned(out, Mention::Locks, legend, &report.lines)?;
            put_totals(out, legend.names, report)
        }
        None => Ok(()),
    }
}

// One of the lists of the document.
#[derive(Clone, Copy, Drop)]
enum Section {
    Races,
    Refused,
    Shown,
}

// Puts the three lists, each behind its heading, which closes the one before it. The last is still open.
#[tactic(auto, unfolding(crate::specs::Document::lists_text))]
fn put_lists(out: &mut Vec<u8>, heading: &[u8], legend: &Legend, lines: &[Line]) -> Put
    requires { All (HasNames legend.now.names.now) lines.now }
    ensures { OnOk result (out.new.items ≡ out.old.items ++ lists_text heading.now legend.now.names.now legend.now.places.now (map line_view lines.now)) }
{
    out.extend_from_slice(heading)?;
    put_rows(out, legend, lines, Section::Races)?;
    out.extend_from_slice(b"],\n\"refused\":[")?;
    put_rows(out, legend, lines, Section::Refused)?;
    out.extend_from_slice(b"],\n\"shown\":[")?;
    put_rows(out, legend, lines, Section::Shown)?;
    Ok(())
}

fn put_rows(out: &mut Vec<u8>, legend: &Legend, lines: &[Line], of: Section) -> Put
    requires { All (HasNames legend.now.names.now) lines.now }
    ensures { OnOk result (out.new.items ≡ out.old.items ++ rows_text (flat_map (rows_in of legend.now.names.now legend.now.places.now) (map line_view lines.now))) }
{
    let mut is_first = true;
    for line in lines {
        if is_in(of, line) {
            put_separator(out, is_first)?;
            put_row(out, legend, line)?;
            is_first = false;
        }
    }
    Ok(())
}

fn is_in(of: Section, line: &Line) -> bool
    ensures { result ≡ is_in of (line_view line.now) }
{
    match (of, line) {
        (Section::Races, Line::Race { .. } | Line::Reused { .. }) => true,
        (Section::Refused, Line::Refused { .. }) => true,
        (Section::Shown, Line::Shown { .. }) => true,
        _ => false,
    }
}

/// Puts what stands before a row: a comma, unless it is the first of its list, and a line feed.
pub(crate) fn put_separator(out: &mut Vec<u8>, is_first: bool) -> Put
    ensures { OnOk result (out.new.items ≡ out.old.items ++ separator_text is_first) }
{
    match is_first {
        true => out.extend_from_slice(b"\n"),
        false => out.extend_from_slice(b",\n"),
    }
}

// Puts where the run stopped, or null, and closes the last list.
#[tactic(auto, unfolding(crate::specs::Document::stop_member))]
fn put_stop(out: &mut Vec<u8>, names: &Names, stop: Option<(u64, NoRoom)>) -> Put
    ensures { OnOk result (out.new.items ≡ out.old.items ++ stop_member stop) }
{
    let Some((line, cause)) = stop else {
        return out.extend_from_slice(b"],\n\"stop\":null");
    };
    put!(out, Style::Json, names;
        Number(b"],\n\"stop\":{\"line\":", line), Text(b",\"why\":\""),
        Text(cause.refusal().text().as_bytes()), Text(b"\"}")
    )
}

#[tactic(auto, unfolding(crate::specs::Document::counts_member))]
fn put_counts(out: &mut Vec<u8>, counts: &[u64]) -> Put
    ensures { OnOk result (out.new.items ≡ out.old.items ++ counts_member counts.now) }
{
    out.extend_from_slice(b",\n\"suppressions\":[")?;
    for (place, count) in counts.iter().enumerate() {
        out.extend_from_slice(comma_before(place))?;
        put_number(out, *count)?;
    }
    out.extend_from_slice(b"]")
}

// Puts where the threads of the races were started, or where the lives of their locks began, as far as that is known.
#[tactic(auto, unfolding(crate::specs::Document::mentions_member))]
fn put_mentioned(out: &mut Vec<u8>, of: Mention, legend: &Legend, lines: &[Line]) -> Put
    requires { All (HasNames legend.now.names.now) lines.now }
    ensures { OnOk result (out.new.items ≡ out.old.items ++ mentions_member of legend.now.names.now legend.now.places.now (map line_view lines.now)) }
{
    let alloc = *out.allocator();
    let numbers = mentioned_in(alloc, of, legend.places, lines)?;
    let mut rows = Vec::new(alloc);
    put_mention_rows(&mut rows, of, legend, numbers.as_slice())?;
    put_list(out, mention_title(of), &rows)
}

fn mention_title(of: Mention) -> &'static [u8]
    ensures { result.now ≡ mention_title of }
{
    match of {
        Mention::Threads => b",\n\"threads\":[".as_slice(),
        Mention::Locks => b",\n\"locks\":[".as_slice(),
    }
}

fn put_mention_rows(out: &mut Vec<u8>, of: Mention, legend: &Legend, numbers: &[u32]) -> Put
    requires { All (HasMentionName of legend.now.names.now legend.now.places.now) numbers.now }
    ensures { OnOk result (out.new.items ≡ out.old.items ++ flat_map (mention_row of legend.now.names.now legend.now.places.now) numbers.now) }
{
    for number in numbers {
        put_mention_row(out, of, legend, *number)?;
    }
    Ok(())
}

fn put_mention_row(out: &mut Vec<u8>, of: Mention, legend: &Legend, number: u32) -> Put
    requires { HasMentionName of legend.now.names.now legend.now.places.now number }
    ensures { OnOk result (out.new.items ≡ out.old.items ++ mention_row of legend.now.names.now legend.now.places.now number) }
{
    match of {
        Mention::Threads if number < MOST_THREADS => {
            put_thread_row(out, legend, ThreadId::new(number))
        }
        Mention::Threads => Ok(()),
        Mention::Locks => put_birth_row(out, legend.places, LockId::new(number)),
    }
}

fn put_thread_row(out: &mut Vec<u8>, legend: &Legend, thread: ThreadId) -> Put
    requires { thread < length legend.now.names.now.threads }
    ensures { OnOk result (out.new.items ≡ out.old.items ++ thread_row legend.now.names.now legend.now.places.now thread) }
{
    let name = legend.names.thread_name(thread).as_bytes();
    let Some(start) = legend.places.start_of(name) else {
        return Ok(());
    };
    let Some(place) = start.place else {
        return Ok(());
    };
    let (names, site) = (legend.names, legend.places.call_name(place));
    put!(out, Style::Json, names; Thread(b",\n{\"thread\":", thread), Text(b",\"name\":"))?;
    put_name(out, start.name.as_slice())?;
    put!(out, Style::Json, names; Name(b",\"site\":", site), Text(b"}"))
}

fn put_birth_row(out: &mut Vec<u8>, places: &Places, lock: LockId) -> Put
    requires { HasLockName places.now.names lock }
    ensures { OnOk result (out.new.items ≡ out.old.items ++ birth_row places.now lock) }
{
    let Some(birth) = places.birth_of(lock) else {
        return Ok(());
    };
    put!(out, Style::Json, places.names();
        Lock(b",\n{\"lock\":", lock), Name(b",\"site\":", places.call_name(birth.place)),
        Text(created_text(birth.is_created))
    )
}

fn created_text(is_created: bool) -> &'static [u8]
    ensures { result.now ≡ created_text is_created }
{
    match is_created {
        true => b",\"created\":true}".as_slice(),
        false => b",\"created\":false}".as_slice(),
    }
}

/// Puts items behind this heading, if there are some. The comma of the first is left out.
pub(crate) fn put_list(out: &mut Vec<u8>, heading: &[u8], items: &[u8]) -> Put
    ensures { OnOk result (out.new.items ≡ out.old.items ++ list_member heading.now items.now) }
{
    let [_, items @ ..] = items else {
        return Ok(());
    };
    out.extend_from_slice(heading)?;
    out.extend_from_slice(items)?;
    out.extend_from_slice(b"]")?;
    Ok(())
}

// Puts the totals, and closes the document.
#[tactic(auto, unfolding(crate::specs::Document::totals_member))]
fn put_totals(out: &mut Vec<u8>, names: &Names, report: &Report) -> Put
    ensures { OnOk result (out.new.items ≡ out.old.items ++ totals_member (told report.now)) }
{
    put!(out, Style::Json, names;
        Number(b",\n\"totals\":{\"steps\":", report.steps), Number(b",\"races\":", report.races),
        Number(b",\"suppressed\":", report.suppressed), Number(b",\"refused\":", report.refused)
    )?;
    put_lost(out, b",\"lost\":", report.lost, b"")?;
    out.extend_from_slice(b"}}\n")?;
    Ok(())
}
