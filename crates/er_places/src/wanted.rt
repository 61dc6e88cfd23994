//! `Wanted`, the lines of a trace that a report asks about.
ghost use Rattle.std.specs.Prelude.{IsSorted, ◌≡◌, ℕ, ◌||◌, false, true, IfOk, OnOk};
ghost use Rattle.std.specs.Ordering.{nat_cmp};
ghost use Rattle.er_event.specs.declared.steps.Kind.{Kind as Kinds};
ghost use Rattle.er_places.specs.Inner.Sites.{has_site, site_key};
ghost use Rattle.er_places.specs.Wanted.{are_asked, asked_in, asks_unless, is_race_at, is_wanted, name_line};

use er_event::{Kind, Site};
use er_keys::{HashKeys, NumberHasher};
use er_report::{Because, Line, Report, Reports, reasons_in};
use std::alloc::{AllocError, Global};
use std::collections::HashSet;

pub(crate) type Put = Result<(), AllocError>;

/// Lines, or the numbers of words.
pub(crate) type Numbers = HashSet<u64, NumberHasher>;

/// The lines whose accesses are wanted, and the numbers of the words of the races on them.
#[derive(Drop)]
pub(crate) struct Wanted {
    pub(crate) lines: Numbers,
    pub(crate) words: Numbers,
}

impl Wanted {
    /// The lines of the races that people are shown, which are the first of each site and kind in each report, and those that their reasons
    /// name. Of a reuse only those that its reasons name. Lines and sites are hashed by these keys.
    pub(crate) fn of_reports(
        alloc: Global,
        keys: HashKeys,
        reports: &Reports,
    ) -> Result<Wanted, AllocError>
        ensures { IfOk result (λ wanted. (line : ℕ) → is_wanted wanted.lines.keys line ≡ are_asked reports.now line) }
    {
        let mut wanted = Wanted {
            lines: HashSet::with_hasher(alloc, NumberHasher::new(keys)),
            words: HashSet::with_hasher(alloc, NumberHasher::new(keys)),
        };
        wanted.add_report(alloc, &reports.lockset)?;
        wanted.add_report(alloc, &reports.unordered)?;
        Ok(wanted)
    }

    /// Whether no line is wanted.
    pub(crate) fn is_empty(&self) -> bool
        ensures { result ≡ true → (line : ℕ) → is_wanted self.now.lines.keys line ≡ false }
    {
        self.lines.is_empty()
    }

    fn add_report(&mut self, alloc: Global, report: &Option<Report>) -> Put
        ensures { OnOk result ((line : ℕ) → is_wanted self.new.lines.keys line ≡ (is_wanted self.old.lines.keys line || asked_in report.now line)) }
    {
        let Some(report) = report else {
            return Ok(());
        };
        let mut sites = HashSet::with_hasher(alloc, *self.lines.hasher());
        for line in &report.lines {
            self.add_line(&mut sites, line)?;
        }
        Ok(())
    }

    // The sites are those of the races so far.
    fn add_line(&mut self, sites: &mut Numbers, line: &Line) -> Put
        ensures sites { OnOk result ((s : ℕ) (k : Kinds) → has_site sites.new.keys s k ≡ (has_site sites.old.keys s k || is_race_at s k line.now)) }
        ensures lines { OnOk result ((number : ℕ) → is_wanted self.new.lines.keys number ≡ (is_wanted self.old.lines.keys number || asks_unless (has_site sites.old.keys) number line.now)) }
    {
        match line {
            Line::Race {
                kind,
                site,
                line,
                word,
                details,
                ..
            } => {
                if sites.insert(site_key(*site, *kind))? {
                    self.words.insert(word.number())?;
                    self.lines.insert(*line)?;
                    return self.add_lines(reasons_in(details));
                }
                Ok(())
            }
            Line::Reused { details, .. } => self.add_lines(reasons_in(details)),
            _ => Ok(()),
        }
    }

    fn add_lines(&mut self, reasons: &[Because]) -> Put
        ensures { OnOk result ((line : ℕ) → is_wanted self.new.lines.keys line ≡ (is_wanted self.old.lines.keys line || name_line reasons.now line)) }
    {
        for because in reasons {
            self.lines.insert(because.line)?;
        }
        Ok(())
    }
}

/// These numbers in order.
pub(crate) fn to_rising(alloc: Global, set: &Numbers) -> Result<Vec<u64>, AllocError>
    ensures same { IfOk result (λ rising. (n : ℕ) → is_wanted rising.items n ≡ is_wanted set.now.keys n) }
    ensures rising { IfOk result (λ rising. IsSorted nat_cmp rising.items) }
{
    let mut rising: Vec<u64> = set.iter().copied().collect(alloc)?;
    rising.sort_unstable();
    Ok(rising)
}

// The number of the races of a kind at a site.
fn site_key(site: Site, kind: Kind) -> u64
    ensures { result ≡ site_key site kind }
{
    match kind {
        Kind::Read => 2 * site.number() as u64,
        Kind::Write => 2 * site.number() as u64 + 1,
    }
}
