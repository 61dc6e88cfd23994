//! Which sites get lines of source files, and the lines around one.
ghost use Rattle.std.specs.Prelude.{◌≡◌, ◌<◌, ◌≤◌, All, length, max, IfOk, IfSome, string_bytes};
ghost use Rattle.er_report.specs.Names.{HasNames};
ghost use Rattle.er_report.specs.Reports.{HaveNames};

use er_report::{Line, Report, Reports};
use er_trace::Names;
use std::alloc::{AllocError, Global};
use std::collections::HashSet;

// How many sites are looked up: those of the first races.
const MOST_SITES: usize = 1000;

// How many lines are shown on each side of a site's line.
const LINES_AROUND: u64 = 5;

// How many bytes of a line are shown.
const MOST_COLUMNS: usize = 400;

/// Lines of a source file around a site.
#[derive(Debug, Drop)]
pub struct Excerpt {
    /// The site, as the trace names it.
    pub site: String,
    /// The number of the first of the lines.
    pub first_line: u64,
    /// The lines, with a line feed between them.
    pub text: String,
}

/// The sites of the reports' races in their order, each once, and at most a thousand.
pub fn sites_of<'n>(
    alloc: Global,
    reports: &Reports,
    names: &'n Names,
) -> Result<Vec<&'n str>, AllocError>
    requires { HaveNames names.now reports.now }
    ensures { IfOk result (λ sites. length sites.items ≤ 1000) }
{
    let mut found: HashSet<u32> = HashSet::new(alloc);
    let mut sites = Vec::new(alloc);
    add_sites(&mut sites, &mut found, names, &reports.lockset)?;
    add_sites(&mut sites, &mut found, names, &reports.unordered)?;
    Ok(sites)
}

// Adds each site of a report, if there is one, that was not found before.
fn add_sites<'n>(
    sites: &mut Vec<&'n str>,
    found: &mut HashSet<u32>,
    names: &'n Names,
    report: &Option<Report>,
) -> Result<(), AllocError>
    requires named { IfSome report.now (λ report. All (HasNames names.now) report.lines.items) }
    requires few { length sites.old.items ≤ 1000 }
    ensures { length sites.new.items ≤ 1000 }
{
    let Some(report) = report else {
        return Ok(());
    };
    for line in &report.lines {
        match line {
            Line::Race { site, .. } | Line::Reused { site, .. } if site.number() > 0 => {
                if sites.len() < MOST_SITES && found.insert(site.number())? {
                    sites.push(names.site_name(*site))?;
                }
            }
            _ => (),
        }
    }
    Ok(())
}

/// The file and the line of a site. None if it names none, and if the file's name could lead out of a folder.
pub fn place_of(site: &str) -> Option<(&str, u64)>
    ensures { IfSome result (λ place. 0 < place.1) }
{
    let (file, digits) = site.rsplit_once(':')?;
    let line = digits.parse::<u64>().ok()?;
    if file.is_empty() || file.contains("..") || line == 0 {
        return None;
    }
    Some((file, line))
}

/// The lines of a file's text around the line of a site. None if the text ends before that line.
pub fn excerpt_around(
    alloc: Global,
    site: &str,
    line: u64,
    text: &[u8],
) -> Result<Option<Excerpt>, AllocError>
    ensures site { IfOk result (λ found. IfSome found (λ excerpt. string_bytes excerpt.site ≡ site.now)) }
    ensures line { IfOk result (λ found. IfSome found (λ excerpt. (0 < excerpt.first_line) × (excerpt.first_line ≤ max line 1))) }
{
    let first_line = line.saturating_sub(LINES_AROUND).max(1);
    let most = line.saturating_add(LINES_AROUND) - first_line + 1;
    let mut kept = Vec::new(alloc);
    let mut next_line = first_line;
    for bytes in text
        .split(|byte| *byte == b'\n')
        .skip(first_line as usize - 1)
        .take(most as usize)
    {
        if next_line > first_line {
            kept.push(b'\n')?;
        }
        kept.extend_from_slice(&bytes[..bytes.len().min(MOST_COLUMNS)])?;
        next_line = next_line.saturating_add(1);
    }
    if next_line <= line {
        return Ok(None);
    }
    Ok(Some(Excerpt {
        site: String::from_str(alloc, site)?,
        first_line,
        text: String::from_utf8_lossy(alloc, &kept)?,
    }))
}
