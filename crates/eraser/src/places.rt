//! What a report shows from files: the places of the accesses that reasons name and what the trace says of the program, by a second look at the trace,
//! and lines of source files. And which races rules take by what the trace says of the program.
ghost use Rattle.std.specs.Prelude.{◌≡◌, [], false, true, None, is_some, IfErr, IfOk, IfSome, OnOk};
ghost use Rattle.er_binary.specs.Decoded.{IsFresh};
ghost use Rattle.er_device.specs.Device.{has_failed, inner_of};
ghost use Rattle.er_exit.specs.declared.faults.Fault.TheVariants.{Memory};
ghost use Rattle.er_report.specs.Reports.{HaveNames};
ghost use Rattle.er_rules.specs.Rules.{targets_of};
ghost use Rattle.er_trace.specs.Names.{NameTable};
ghost use Rattle.eraser.specs.Replays.{AreCounted, MayHavePlaces, MayLack, MayLackRaces, reads_again, shows_places};

use crate::replaying::Job;
use er_binary::Decoded;
use er_device::Device;
use er_exit::{Fault, open_ordinary};
use er_forms::{Excerpt, excerpt_around, place_of, sites_of};
use er_places::{Noting, Places, facts_of_races, facts_of_reports, places_of_reports};
use er_report::{Form, Report, Reports};
use er_request::Replay;
use er_trace::Names;
use er_triage::take_by_facts;
use std::alloc::{AllocError, Global};
use std::io::{ErrorKind, Read};
use std::rt::Files;

// How many bytes of a source file are read.
const MOST_BYTES: u64 = 16_777_216;

type Found<T> = Result<Option<T>, AllocError>;

/// The places of the accesses that the reports' reasons name. None is known if they aren't shown, and if the trace can't be read again.
pub(crate) fn places_of<R: Files + AllocGlobal>(rt: &R, job: Job<'_>, reports: &Reports) -> Places
    ensures { MayHavePlaces R.File.remaining job.entry.replay.now job.entry.options.now.byte_limit reports.now result }
{
    let alloc = rt.alloc();
    let Some(mut again) = open_again(rt, job, reports) else {
        return Places::new(alloc);
    };
    let options = job.options;
    let found = places_of_reports(alloc, &mut again, options.byte_limit, options.keys, reports);
    let Ok(places) = found else {
        return Places::new(alloc);
    };
    let mut again = again.into_inner();
    again.read_on();
    places.with_facts(again.into_facts())
}

/// The reports without the races that rules take by what the trace says of the program. It says nothing if it can't be read again. If the reports of all
/// parts are merged, what these count stands in the place of what the replayed pages give.
pub(crate) fn without_known<R: Files + AllocGlobal>(
    rt: &R,
    job: Job<'_>,
    reports: Reports,
) -> Result<Reports, Fault>
    ensures left { IfOk result (MayLack job.entry.replay.now (targets_of job.entry.suppressions.now) reports) }
    ensures named { (names : NameTable) → HaveNames names reports → IfOk result (HaveNames names) }
    ensures asked { IfOk result (λ left. (is_some left.lockset ≡ is_some reports.lockset) × (is_some left.unordered ≡ is_some reports.unordered)) }
    ensures fault { IfErr result (λ fault. fault ≡ Memory) }
{
    let mut left = without_facts(rt, job, reports)?;
    with_counts(rt.alloc(), &mut left, &job.replay.counts)?;
    Ok(left)
}

// Counts in the report of the lockset rule as this one does, if it is given.
fn with_counts(
    alloc: Global,
    reports: &mut Reports,
    counts: &Option<Report>,
) -> Result<(), AllocError>
    ensures counted { OnOk result (AreCounted counts.now reports.old reports.new) }
    ensures named { (names : NameTable) → HaveNames names reports.old → OnOk result (HaveNames names reports.new) }
    ensures asked { OnOk result ((is_some reports.new.lockset ≡ is_some reports.old.lockset) × (is_some reports.new.unordered ≡ is_some reports.old.unordered)) }
{
    if let Some(counts) = counts
        && let Some(report) = &mut reports.lockset
    {
        report.rule_counts = counts.rule_counts.to_vec(alloc)?;
        report.steps = counts.steps;
        report.suppressed = counts.suppressed;
    }
    Ok(())
}

fn without_facts<R: Files + AllocGlobal>(
    rt: &R,
    job: Job<'_>,
    reports: Reports,
) -> Result<Reports, Fault>
    ensures left { IfOk result (MayLackRaces job.entry.replay.now (targets_of job.entry.suppressions.now) reports) }
    ensures named { (names : NameTable) → HaveNames names reports → IfOk result (HaveNames names) }
    ensures asked { IfOk result (λ left. (is_some left.lockset ≡ is_some reports.lockset) × (is_some left.unordered ≡ is_some reports.unordered)) }
    ensures fault { IfErr result (λ fault. fault ≡ Memory) }
{
    if !job.suppressions.ask_facts() || !reads_again(job.replay) {
        return Ok(reports);
    }
    let Some(file) = open_ordinary(rt, job.replay.trace) else {
        return Ok(reports);
    };
    let Ok(facts) = facts_of_races(rt.alloc(), Decoded::new(rt.alloc(), file), &reports) else {
        drop(reports);
        return Err(Fault::Memory);
    };
    let left = take_by_facts(rt.alloc(), reports, job.suppressions, &facts);
    drop(facts);
    Ok(left?)
}

/// The lines around the sites of the reports' races, of each file that is found below the folder. Without a folder there are none.
pub(crate) fn excerpts_of<R: Files + AllocGlobal>(
    rt: &R,
    folder: Option<&str>,
    reports: &Reports,
    names: &Names,
) -> Result<Vec<Excerpt>, Fault>
    requires named { HaveNames names.now reports.now }
    ensures none { folder.entry ≡ None → IfOk result (λ excerpts. excerpts.items ≡ []) }
    ensures fault { IfErr result (λ fault. fault ≡ Memory) }
{
    let mut excerpts = Vec::new(rt.alloc());
    let Some(folder) = folder else {
        return Ok(excerpts);
    };
    let sites = sites_of(rt.alloc(), reports, names)?;
    for site in &sites {
        if let Some(excerpt) = excerpt_of(rt, folder, site)? {
            excerpts.push(excerpt).map_err(AllocError::from)?;
        }
    }
    Ok(excerpts)
}

// The trace once more, if its reports have reasons whose places are shown and it is an ordinary file. What it says of the program is noted meanwhile.
fn open_again<R: Files + AllocGlobal>(
    rt: &R,
    job: Job<'_>,
    reports: &Reports,
) -> Option<Device<Noting<R::File>>>
    ensures open { IfSome result (λ again. has_failed again ≡ false) }
    ensures fresh { IfSome result (λ again. IsFresh (inner_of again).decoded) }
    ensures shown { IfSome result (λ again. shows_places job.entry.replay.now ≡ true) }
{
    if !shows_places(job.replay) {
        return None;
    }
    let file = open_ordinary(rt, job.replay.trace)?;
    let facts = facts_of_reports(rt.alloc(), job.options.keys, reports).ok()?;
    let decoded = Decoded::new(rt.alloc(), file);
    Some(Device::new(Noting { decoded, facts }))
}

// Whether places are shown, and the trace is read again.
fn shows_places(replay: &Replay<'_>) -> bool
    ensures { result ≡ shows_places replay.now }
{
    replay.explain && replay.form != Form::Text && reads_again(replay)
}

// Whether the trace may be a file that is read whole.
fn reads_again(replay: &Replay<'_>) -> bool
    ensures { result ≡ reads_again replay.now }
{
    !replay.until_fault && replay.trace != "-"
}

// The lines around a site, if its file is found and has that line.
fn excerpt_of<R: Files + AllocGlobal>(rt: &R, folder: &str, site: &str) -> Found<Excerpt> {
    let Some((file, line)) = place_of(site) else {
        return Ok(None);
    };
    let file = file.strip_prefix(folder).unwrap_or(file);
    let path = format!(in rt.alloc(); "{folder}/{file}")?;
    match text_at(rt, &path)? {
        Some(text) => excerpt_around(rt.alloc(), site, line, &text),
        None => Ok(None),
    }
}

// The beginning of an ordinary file. None if it can't be opened or read.
fn text_at<R: Files + AllocGlobal>(rt: &R, path: &str) -> Found<Vec<u8>> {
    let Some(file) = open_ordinary(rt, path) else {
        return Ok(None);
    };
    let mut text = Vec::new(rt.alloc());
    match file.take(MOST_BYTES).read_to_end(&mut text) {
        Ok(_) => Ok(Some(text)),
        Err(why) if why.kind() == ErrorKind::OutOfMemory => Err(AllocError),
        Err(_) => Ok(None),
    }
}
