//! The report of one part, read.
ghost use Rattle.std.specs.Prelude.{◌≡◌};
ghost use Rattle.er_lines.specs.Lines.{lines_of};
ghost use Rattle.er_merge.specs.Parts.{Adds, IsFirstLine, Reads, body_from, body_view, content_view, empty_body, heading_in, part_of, report_view, seen_heading, with_count, with_entry, with_kind, with_line, whole};

use crate::faults::{LineFault, MergeFault};
use crate::lines::{Place, ReportLine, Totals, number_behind, report_line};
use er_lines::line_len;
use std::alloc::{AllocError, Global};

/// A line of a step, or of a reason, and where it belongs. A reason belongs where the last line of a step above it does.
#[derive(Clone, Copy)]
pub struct Entry<'a> {
    pub place: Place,
    pub text: &'a [u8],
}

/// What the text of a part's report says: clauses speak of texts by it.
#[derive(Drop)]
pub struct PartReport<'a> {
    pub heading: Heading<'a>,
    pub content: Content<'a>,
}

/// What its first line says. A [`PartHeading`](crate::PartHeading) writes such a line.
#[derive(Clone, Copy)]
pub struct Heading<'a> {
    /// Which part it is, from 1.
    pub part: u64,
    /// How many parts there are.
    pub parts: u64,
    /// Which trace it is of, and how the report was made.
    pub about: &'a [u8],
}

/// What its other lines say.
#[derive(Drop)]
pub struct Content<'a> {
    pub entries: Vec<Entry<'a>>,
    pub counts: Vec<u64>,
    pub totals: Totals,
}

// The lines that were read so far.
#[derive(Drop)]
struct Body<'a> {
    entries: Vec<Entry<'a>>,
    counts: Vec<u64>,
    totals: Option<Totals>,
    // The place of the last entry.
    last: Option<Place>,
}

// Whether a line was added, or what is wrong with it.
type Added = Result<Option<LineFault>, AllocError>;

impl<'a> Body<'a> {
    fn new(alloc: Global) -> Self
        ensures { body_view result ≡ empty_body }
    {
        Body {
            entries: Vec::new(alloc),
            counts: Vec::new(alloc),
            totals: None,
            last: None,
        }
    }

    fn add(&mut self, text: &'a [u8]) -> Added
        ensures { Adds (with_line (body_view self.old) text.now) (body_view self.new) result }
    {
        if self.totals.is_some() {
            return Ok(Some(LineFault::Foreign));
        }
        self.add_kind(text, report_line(text))
    }

    fn add_kind(&mut self, text: &'a [u8], kind: ReportLine) -> Added
        ensures { Adds (with_kind (body_view self.old) text.now kind) (body_view self.new) result }
    {
        match kind {
            ReportLine::Step(place) => self.add_entry(text, Some(place)),
            ReportLine::Reason => self.add_entry(text, self.last),
            ReportLine::Stopped => Ok(Some(LineFault::Stopped)),
            ReportLine::Count(number, count) => self.add_count(number, count),
            ReportLine::Totals(totals) => {
                self.totals = Some(totals);
                Ok(None)
            }
            ReportLine::Foreign => Ok(Some(LineFault::Foreign)),
        }
    }

    fn add_entry(&mut self, text: &'a [u8], place: Option<Place>) -> Added
        ensures { Adds (with_entry (body_view self.old) text.now place) (body_view self.new) result }
    {
        let Some(place) = place else {
            return Ok(Some(LineFault::Foreign));
        };
        if self.counts.len() != 0 {
            return Ok(Some(LineFault::Foreign));
        }
        self.entries.push(Entry { place, text })?;
        self.last = Some(place);
        Ok(None)
    }

    fn add_count(&mut self, number: u64, count: u64) -> Added
        ensures { Adds (with_count (body_view self.old) number count) (body_view self.new) result }
    {
        if number == 0 || number - 1 != self.counts.len() as u64 {
            return Ok(Some(LineFault::Foreign));
        }
        self.counts.push(count)?;
        Ok(None)
    }
}

/// The report of a part, which has this number among the reports that are given.
pub(crate) fn read_part(
    alloc: Global,
    number: u64,
    text: &[u8],
) -> Result<PartReport<'_>, MergeFault>
    ensures { Reads report_view number (part_of text.now) result }
{
    let Some((line, rest)) = first_line(text) else {
        return Err(MergeFault::Line(number, 1, LineFault::NoPart));
    };
    let Some(heading) = heading_in(line) else {
        return Err(MergeFault::Line(number, 1, LineFault::NoPart));
    };
    match read_content(alloc, number, rest) {
        Ok(content) => Ok(PartReport { heading, content }),
        Err(fault) => Err(fault),
    }
}

fn heading_in(line: &[u8]) -> Option<Heading<'_>>
    ensures { seen_heading result ≡ heading_in line.now }
{
    let (part, rest) = number_behind(b"# part ", line)?;
    let (parts, about) = number_behind(b" of ", rest)?;
    if part == 0 || part > parts {
        return None;
    }
    Some(Heading { part, parts, about })
}

// The lines behind the first.
fn read_content(alloc: Global, number: u64, text: &[u8]) -> Result<Content<'_>, MergeFault>
    ensures { Reads content_view number (body_from 2 empty_body (lines_of text.now)) result }
{
    let mut body = Body::new(alloc);
    let mut line = 2u64;
    let mut rest = text;
    while let Some((next, behind)) = first_line(rest) {
        match body.add(next) {
            Ok(None) => {}
            Ok(Some(fault)) => return Err(MergeFault::Line(number, line, fault)),
            Err(_) => return Err(MergeFault::Memory),
        }
        rest = behind;
        line += 1;
    }
    if !rest.is_empty() {
        return Err(MergeFault::Line(number, line, LineFault::CutOff));
    }
    whole(number, line, body)
}

fn whole(number: u64, line: u64, body: Body<'_>) -> Result<Content<'_>, MergeFault>
    ensures { Reads content_view number (whole line (body_view body.entry) body.entry.totals) result }
{
    let Body {
        entries,
        counts,
        totals,
        ..
    } = body;
    match totals {
        Some(totals) => Ok(Content {
            entries,
            counts,
            totals,
        }),
        None => Err(MergeFault::Line(number, line, LineFault::CutOff)),
    }
}

// The first line, without its line feed, and what follows it.
fn first_line(text: &[u8]) -> Option<(&[u8], &[u8])>
    ensures { IsFirstLine text.now result }
{
    let len = line_len(text);
    if len >= text.len() {
        return None;
    }
    Some((&text[..len], &text[len + 1..]))
}
