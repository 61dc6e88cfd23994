//! The table of sites: a row for each site that has a race.
ghost use Rattle.std.specs.Prelude.{◌≡◌, ◌+◌, ◌^◌, ◌<◌, ℕ, All, None, Some, cond, slice_index_or, IfOk, OnOk};
ghost use Rattle.std.specs.List.{sum_by};
ghost use Rattle.er_sites.specs.Counted.{AreCounts};
ghost use Rattle.er_sites.specs.Inner.Rows.{AreExamples, HasNames, HasRowsBelow, or_first};
ghost use Rattle.er_sites.specs.Table.{is_at, races_at, races_in, row_order, IsOwnCount, IsTable};

use crate::counts::{Counts, count_at, count_distinct, count_races, grow};
use crate::names::is_system_site;
use crate::row::SiteRow;
use er_event::Site;
use er_print::Put;
use er_report::Line;
use er_trace::Names;
use std::alloc::{AllocError, Global};
use std::cmp::Ordering;

/// The table of the sites that have races. Those in headers of the system come last, and the site with most races first. Sites with as many
/// races stand in the order of their numbers. `AllocError`: memory was refused.
pub fn site_rows(alloc: Global, lines: &[Line], names: &Names) -> Result<Vec<SiteRow>, AllocError>
    requires { All (HasNames names.now) lines.now }
    ensures { IfOk result (λ rows. IsTable names.now lines.now rows.items) }
{
    let found = find_sites(alloc, lines)?;
    let mut rows = rows_of(alloc, lines, names, &found)?;
    rows.sort_by(|row: &SiteRow, other: &SiteRow| order_of(row, other))?;
    Ok(rows)
}

// The rows by rising site, of what was found of these lines.
fn rows_of(
    alloc: Global,
    lines: &[Line],
    names: &Names,
    found: &Found,
) -> Result<Vec<SiteRow>, AllocError>
    requires names { All (HasNames names.now) lines.now }
    requires counts { AreCounts lines.now found.now.counts }
    requires examples { AreExamples lines.now found.now.examples.items }
    ensures own { IfOk result (λ rows. All (IsOwnCount names.now lines.now) rows.items) }
    ensures each { IfOk result (λ rows. (s : ℕ) → sum_by (races_in s) rows.items ≡ races_at lines.now s) }
{
    let mut rows = Vec::new(alloc);
    let counts = &found.counts;
    let most = counts.reads.len().max(counts.writes.len());
    for site in 0..most.max(counts.reuses.len()) {
        add_site(&mut rows, lines, names, found, site)?;
    }
    Ok(rows)
}

fn add_site(
    rows: &mut Vec<SiteRow>,
    lines: &[Line],
    names: &Names,
    found: &Found,
    site: usize,
) -> Put
    requires names { All (HasNames names.now) lines.now }
    requires counts { AreCounts lines.now found.now.counts }
    requires examples { AreExamples lines.now found.now.examples.items }
    requires below { HasRowsBelow names.now lines.now rows.old.items site }
    requires within { site < 2 ^ 32 }
    ensures { OnOk result (HasRowsBelow names.now lines.now rows.new.items (site + 1)) }
{
    prove!(lines.len() < 1 << 63);
    let Some(example) = example_at(&found.examples, site) else {
        return Ok(());
    };
    let number = Site::new(site as u32);
    rows.push(SiteRow {
        site: number,
        is_system: is_system_site(names, number),
        reads: count_at(&found.counts.reads, number),
        writes: count_at(&found.counts.writes, number),
        reuses: count_at(&found.counts.reuses, number),
        threads: count_at(&found.threads, number),
        locks: count_at(&found.locks, number),
        example,
    })?;
    Ok(())
}

// What is known of each site, by its number.
#[derive(Drop)]
struct Found {
    counts: Counts,
    threads: Vec<u64>,
    locks: Vec<u64>,
    // The place of its first race among the lines, if it has one.
    examples: Vec<Option<usize>>,
}

fn find_sites(alloc: Global, lines: &[Line]) -> Result<Found, AllocError>
    ensures counts { IfOk result (λ found. AreCounts lines.now found.counts) }
    ensures examples { IfOk result (λ found. AreExamples lines.now found.examples.items) }
{
    let (threads, locks) = count_distinct(alloc, lines)?;
    Ok(Found {
        counts: count_races(alloc, lines)?,
        threads,
        locks,
        examples: find_examples(alloc, lines)?,
    })
}

fn example_at(examples: &[Option<usize>], site: usize) -> Option<usize>
    ensures { result ≡ slice_index_or examples.now site None }
{
    examples.get(site).copied().unwrap_or(None)
}

// The place of the first race at each site among the lines, by the number of the site.
fn find_examples(alloc: Global, lines: &[Line]) -> Result<Vec<Option<usize>>, AllocError>
    ensures { IfOk result (λ examples. AreExamples lines.now examples.items) }
{
    let mut examples = Vec::new(alloc);
    for (place, line) in lines.iter().enumerate() {
        note_example(&mut examples, place, line)?;
    }
    Ok(examples)
}

// Notes the line in this place, if it is a race at a site that has none yet.
fn note_example(examples: &mut Vec<Option<usize>>, place: usize, line: &Line) -> Put
    ensures { OnOk result ((s : ℕ) → slice_index_or examples.new.items s None ≡ or_first (slice_index_or examples.old.items s None) (cond (is_at s line.now) (Some place) None)) }
{
    let site = match line {
        Line::Race { site, .. } => site.number() as usize,
        Line::Reused { site, .. } if site.number() != 0 => site.number() as usize,
        _ => return Ok(()),
    };
    grow(examples, None, site + 1)?;
    if examples[site].is_none() {
        examples[site] = Some(place);
    }
    Ok(())
}

fn order_of(row: &SiteRow, other: &SiteRow) -> Ordering
    ensures { result ≡ row_order row.now other.now }
{
    row.is_system
        .cmp(&other.is_system)
        .then(other.races().cmp(&row.races()))
        .then(row.site.number().cmp(&other.site.number()))
}
