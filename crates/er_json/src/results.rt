//! A result for the first race of each site and kind, and for each reuse without a site.
ghost use Rattle.std.specs.Prelude.{◌≡◌, ◌++◌, ◌&&◌, All, length, IfOk, OnOk};
ghost use Rattle.er_json.specs.Inner.Sections.{has_none, next_text, rows_text};
ghost use Rattle.er_json.specs.Sarif.{HasNames, HasRaceNames, back_text, cause_words, deed_words, front_text, place_text, race_site, result_text, results_below, results_of, verb_of, rule_front};
ghost use Rattle.er_sites.specs.Counted.{AreCounts};

use crate::document::put_separator;
use crate::locations::open_location;
use crate::rows::{ReasonForm, put_reasons};
use crate::stacks::put_stacks;
use er_places::{Legend, Places};
use er_print::Piece::{Address, Locks, Name, Number, Site, Text, Thread};
use er_print::{Put, ReportKind, Style, bytes_of, put, verb};
use er_report::{Deed, Line, Race};
use er_sites::{Counts, did_text, put_subject};
use er_trace::Names;
use std::alloc::AllocError;

/// Puts the results of the lines, each on a line of its own, and returns whether there is none. The counts are those of all races of the
/// lines.
pub(crate) fn put_results(
    out: &mut Vec<u8>,
    of: ReportKind,
    legend: &Legend,
    lines: &[Line],
    total: &Counts,
) -> Result<bool, AllocError>
    requires named { All (HasNames legend.now.names.now) lines.now }
    requires total { AreCounts lines.now total.now }
    ensures text { OnOk result (out.new.items ≡ out.old.items ++ rows_text (results_below of legend.now.names.now legend.now.places.now lines.now (length lines.now))) }
    ensures first { IfOk result (λ first. first ≡ has_none (results_below of legend.now.names.now legend.now.places.now lines.now (length lines.now))) }
{
    prove!(lines.len() < 1 << 63);
    let mut seen = Counts::new(*out.allocator());
    let mut is_first = true;
    for line in lines {
        let before = seen.like(line);
        let count = total.like(line);
        is_first = put_next(out, of, legend, line, before, count, is_first)?;
        seen.count(line)?;
    }
    Ok(is_first)
}

// Puts the result of a line, if it has one, and returns whether the next one is the first.
fn put_next(
    out: &mut Vec<u8>,
    of: ReportKind,
    legend: &Legend,
    line: &Line,
    before: u64,
    count: u64,
    is_first: bool,
) -> Result<bool, AllocError>
    requires { HasNames legend.now.names.now line.now }
    ensures text { OnOk result (out.new.items ≡ out.old.items ++ next_text is_first (results_of of legend.now.names.now legend.now.places.now before count line.now)) }
    ensures first { IfOk result (λ still. still ≡ (is_first && has_none (results_of of legend.now.names.now legend.now.places.now before count line.now))) }
{
    if before > 0 {
        return Ok(is_first);
    }
    let Some(race) = line.race() else {
        return Ok(is_first);
    };
    put_separator(out, is_first)?;
    put_result(out, of, legend, &race, count.max(1))?;
    Ok(false)
}

#[tactic(auto, unfolding(crate::specs::Sarif::result_text))]
fn put_result(
    out: &mut Vec<u8>,
    of: ReportKind,
    legend: &Legend,
    race: &Race<'_>,
    count: u64,
) -> Put
    requires { HasRaceNames legend.now.names.now race.now }
    ensures { OnOk result (out.new.items ≡ out.old.items ++ result_text of legend.now.names.now legend.now.places.now race.now count) }
{
    let mut site = Vec::new(*out.allocator());
    put_site(&mut site, legend.names, race)?;
    put_front(out, of, legend, race, count)?;
    let function = legend.places.function_of(legend.places.of_race(race));
    put_place(out, legend.names, &site, function, race.deed)?;
    put_back(out, legend, race)
}

// Opens the result: what its first race is, and how many there are.
#[tactic(auto, unfolding(crate::specs::Sarif::front_text))]
fn put_front(out: &mut Vec<u8>, of: ReportKind, legend: &Legend, race: &Race<'_>, count: u64) -> Put
    requires { HasRaceNames legend.now.names.now race.now }
    ensures { OnOk result (out.new.items ≡ out.old.items ++ front_text of legend.now.names.now legend.now.places.now race.now count) }
{
    let names = legend.names;
    put!(out, Style::InString, names;
        Text(rule_front(of)), Text(verb_of(race.deed)),
        Thread(b"\",\"level\":\"error\",\"message\":{\"text\":\"", race.thread)
    )?;
    put_deed(out, legend.places, race.line, race.deed)?;
    put!(out, Style::InString, names;
        Text(cause_words(of)), Number(b"\"},\"occurrenceCount\":", count),
        Text(b",\"locations\":[")
    )?;
    Ok(())
}

fn verb_of(deed: Deed) -> &'static [u8]
    ensures { result.now ≡ verb_of deed }
{
    match deed {
        Deed::Access(kind, _) => verb(kind),
        Deed::Reuse(_) => b"reuse".as_slice(),
    }
}

fn put_deed(out: &mut Vec<u8>, places: &Places, line: u64, deed: Deed) -> Put
    ensures { OnOk result (out.new.items ≡ out.old.items ++ deed_words places.now line deed) }
{
    let names = places.names();
    match deed {
        Deed::Access(kind, word) => {
            out.extend_from_slice(did_text(kind))?;
            put_subject(out, Style::InString, places, line, word)?;
            put!(out, Style::InString, names; Address(b" the word at ", word))
        }
        Deed::Reuse(range) => put!(out, Style::InString, names;
            Number(b" gave back ", bytes_of(&range)), Address(b" bytes at ", range.lo)
        ),
    }
}

// Puts where a race is: its site, and of a reuse without one the address.
fn put_site(out: &mut Vec<u8>, names: &Names, race: &Race<'_>) -> Put
    requires { HasRaceNames names.now race.now }
    ensures { OnOk result (out.new.items ≡ out.old.items ++ race_site names.now race.now.site race.now.deed) }
{
    match race.deed {
        Deed::Reuse(range) if race.site.number() == 0 => {
            put!(out, Style::Plain, names; Address(b"", range.lo))
        }
        _ => put!(out, Style::Plain, names; Site(b"", race.site)),
    }
}

// Puts the location and what is the same in each run, and opens the array of reasons.
#[tactic(auto, unfolding(crate::specs::Sarif::place_text))]
fn put_place(out: &mut Vec<u8>, names: &Names, site: &[u8], function: &[u8], deed: Deed) -> Put
    ensures { OnOk result (out.new.items ≡ out.old.items ++ place_text site.now function.now deed) }
{
    open_location(out, site, function)?;
    put!(out, Style::InString, names;
        Name(b"}],\"partialFingerprints\":{\"siteAndKind/v1\":\"", site), Text(b" "),
        Text(verb_of(deed)), Text(b"\"},\"relatedLocations\":[")
    )?;
    Ok(())
}

// Puts how the first race came about, the calls that led there, its line and the locks that its thread held, and closes the result.
#[tactic(auto, unfolding(crate::specs::Sarif::back_text))]
fn put_back(out: &mut Vec<u8>, legend: &Legend, race: &Race<'_>) -> Put
    requires { HasRaceNames legend.now.names.now race.now }
    ensures { OnOk result (out.new.items ≡ out.old.items ++ back_text legend.now.names.now legend.now.places.now race.now) }
{
    put_reasons(out, ReasonForm::Location, legend, race.explained)?;
    out.extend_from_slice(b"]")?;
    put_stacks(out, legend.places, race)?;
    put!(out, Style::Json, legend.names;
        Number(b",\"properties\":{\"line\":", race.line), Locks(b",\"held\":", race.held),
        Text(b"}}")
    )?;
    Ok(())
}

/// What each result begins with: the front of its rule.
pub(crate) fn rule_front(of: ReportKind) -> &'static [u8]
    ensures { result.now ≡ rule_front of }
{
    match of {
        ReportKind::Lockset => b"{\"ruleId\":\"race/".as_slice(),
        ReportKind::Unordered => b"{\"ruleId\":\"unordered/".as_slice(),
    }
}

fn cause_words(of: ReportKind) -> &'static [u8]
    ensures { result.now ≡ cause_words of }
{
    match of {
        ReportKind::Lockset => b", and no lock protects it".as_slice(),
        ReportKind::Unordered => b", and nothing orders this after an earlier access".as_slice(),
    }
}
