//! How many races there are at each site, and how many different threads and locks.
ghost use Rattle.std.specs.Prelude.{◌≡◌, ◌+◌, ◌^◌, ◌<◌, ◌≤◌, ◌==◌, ◌&&◌, ℕ, List, [], cond, count_by, length, slice_index, slice_index_or, OnOk, IfOk};
ghost use Rattle.er_sites.specs.Counted.{AreCounts, HasRoom, LineOf, count_like, reads_at, reuses_at, writes_at};

use er_event::{Kind, Site};
use er_print::Put;
use er_report::{Deed, Line};
use std::alloc::{AllocError, Global};

/// The races at each site, by the number of the site.
#[derive(Drop)]
pub struct Counts {
    /// How many of them read.
    pub reads: Vec<u64>,
    /// How many of them write.
    pub writes: Vec<u64>,
    /// How many of them are reuses. One without a site is not counted.
    pub reuses: Vec<u64>,
}

impl Counts {
    /// No race was counted.
    pub fn new(alloc: Global) -> Counts
        ensures { AreCounts [] result }
    {
        Counts {
            reads: Vec::new(alloc),
            writes: Vec::new(alloc),
            reuses: Vec::new(alloc),
        }
    }

    /// Counts a line at its site, if it is a race.
    pub fn count(&mut self, line: &Line) -> Put
        requires { HasRoom self.old }
        ensures reads { OnOk result ((s : ℕ) → slice_index self.new.reads.items s ≡ slice_index self.old.reads.items s + cond (reads_at s line.now) 1 0) }
        ensures writes { OnOk result ((s : ℕ) → slice_index self.new.writes.items s ≡ slice_index self.old.writes.items s + cond (writes_at s line.now) 1 0) }
        ensures reuses { OnOk result ((s : ℕ) → slice_index self.new.reuses.items s ≡ slice_index self.old.reuses.items s + cond (reuses_at s line.now) 1 0) }
        ensures few_reads { OnOk result (length self.old.reads.items ≤ 2 ^ 32 → length self.new.reads.items ≤ 2 ^ 32) }
        ensures few_writes { OnOk result (length self.old.writes.items ≤ 2 ^ 32 → length self.new.writes.items ≤ 2 ^ 32) }
        ensures few_reuses { OnOk result (length self.old.reuses.items ≤ 2 ^ 32 → length self.new.reuses.items ≤ 2 ^ 32) }
    {
        match line {
            Line::Race { kind, site, .. } => match kind {
                Kind::Read => add_one(&mut self.reads, *site),
                Kind::Write => add_one(&mut self.writes, *site),
            },
            Line::Reused { site, .. } if site.number() != 0 => add_one(&mut self.reuses, *site),
            _ => Ok(()),
        }
    }

    /// How many races there are of the site and the kind of this one; 0 for a line that isn't counted.
    pub fn like(&self, line: &Line) -> u64
        ensures { result ≡ count_like self.now line.now }
    {
        match line {
            Line::Race { kind, site, .. } => match kind {
                Kind::Read => count_at(&self.reads, *site),
                Kind::Write => count_at(&self.writes, *site),
            },
            Line::Reused { site, .. } if site.number() != 0 => count_at(&self.reuses, *site),
            _ => 0,
        }
    }

    /// Whether no race is at the site.
    pub(crate) fn has_none_at(&self, site: Site) -> bool
        ensures { (lines : List LineOf) → AreCounts lines self.now → result ≡ (count_by (reads_at site) lines == 0 && count_by (writes_at site) lines == 0 && count_by (reuses_at site) lines == 0) }
    {
        count_at(&self.reads, site) == 0
            && count_at(&self.writes, site) == 0
            && count_at(&self.reuses, site) == 0
    }
}

/// The count of a site; 0 past the end of the list.
pub(crate) fn count_at(counts: &[u64], site: Site) -> u64
    ensures { result ≡ slice_index counts.now site }
{
    counts.get(site.number() as usize).copied().unwrap_or(0)
}

/// The races of a report at each site.
pub fn count_races(alloc: Global, lines: &[Line]) -> Result<Counts, AllocError>
    ensures { IfOk result (AreCounts lines.now) }
{
    let mut counts = Counts::new(alloc);
    for line in lines {
        counts.count(line)?;
    }
    Ok(counts)
}

/// How many threads have races at each site, and how many locks were held at these, by the number of the site.
pub(crate) fn count_distinct(
    alloc: Global,
    lines: &[Line],
) -> Result<(Vec<u64>, Vec<u64>), AllocError> {
    let mut threads = Vec::new(alloc);
    let mut locks = Vec::new(alloc);
    for line in lines {
        let Some(race) = line.race() else {
            continue;
        };
        let site = race.site.number();
        // A reuse without a site counts at none.
        if site == 0 && matches!(race.deed, Deed::Reuse(_)) {
            continue;
        }
        threads.push((site, race.thread.number()))?;
        for lock in race.held {
            locks.push((site, lock.number()))?;
        }
    }
    Ok((
        count_different(alloc, threads)?,
        count_different(alloc, locks)?,
    ))
}

// Adds one to the count of a site, which is 0 past the end of the list.
fn add_one(counts: &mut Vec<u64>, site: Site) -> Put
    requires { slice_index counts.old.items site + 1 < 2 ^ 64 }
    ensures count { OnOk result ((s : ℕ) → slice_index counts.new.items s ≡ slice_index counts.old.items s + cond (s == site) 1 0) }
    ensures few { OnOk result (length counts.old.items ≤ 2 ^ 32 → length counts.new.items ≤ 2 ^ 32) }
{
    let place = site.number() as usize;
    grow(counts, 0, place + 1)?;
    counts[place] += 1;
    Ok(())
}

// How many different pairs there are of each site, of which each begins with its site.
fn count_different(alloc: Global, mut pairs: Vec<(u32, u32)>) -> Result<Vec<u64>, AllocError> {
    pairs.sort_unstable();
    pairs.dedup();
    let mut counts = Vec::new(alloc);
    for (site, _) in &pairs {
        let place = *site as usize;
        grow(&mut counts, 0, place + 1)?;
        counts[place] = u64::saturating_add(counts[place], 1);
    }
    Ok(counts)
}

/// Adds this value until the list has as many.
pub(crate) fn grow<T: Copy>(list: &mut Vec<T>, value: T, len: usize) -> Put
    ensures same { OnOk result ((s : ℕ) → slice_index_or list.new.items s value ≡ slice_index_or list.old.items s value) }
    ensures long { OnOk result (len ≤ length list.new.items) }
    ensures few { OnOk result (length list.old.items ≤ 2 ^ 32 → len ≤ 2 ^ 32 → length list.new.items ≤ 2 ^ 32) }
{
    while list.len() < len {
        list.push(value)?;
    }
    Ok(())
}
