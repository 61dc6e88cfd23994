//! What a replay comes to before a byte is written.
ghost use Rattle.std.specs.Prelude.{◌≡◌, ◌<◌, ◌^◌};
ghost use Rattle.er_run.specs.Inner.Outcomes.{IsGivenIf, IsGivenOf, IsOwnOf, is_later, is_own};
ghost use Rattle.er_text.specs.Ending.{lost_if};

use er_batch::Options;
use er_report::{Line, Report, Reports};
use er_text::Ending;
use er_trace::Trace;

/// What a replay of a text came to, before a byte of it is written.
#[derive(Drop)]
pub struct ReplayedTrace {
    /// The report of each analysis that was asked for, without the races that the rules take.
    pub reports: Reports,
    /// It has the names of the numbers in the reports. Most of its steps were forgotten.
    pub trace: Trace,
    /// How the text ended.
    pub ending: Ending,
    /// Whether some step orders threads beside locks: a start, a join, a signal or an await. False if no report by happens-before was
    /// asked for.
    pub has_order: bool,
}

/// The same of reports of the steps that were answered: of each this gives what the part gives, which has so many steps of pages. Each also says how
/// many events the text lost.
pub(crate) fn outcome(
    reports: Reports,
    options: &Options,
    of_pages: u64,
    has_order: bool,
    trace: Trace,
    ending: Ending,
) -> ReplayedTrace
    ensures lockset { IsGivenIf (is_later options.now.part) of_pages (lost_if ending.is_text_3 ending.lost) reports.lockset result.reports.lockset }
    ensures unordered { IsGivenIf (is_later options.now.part) of_pages (lost_if ending.is_text_3 ending.lost) reports.unordered result.reports.unordered }
    ensures others { result ≡ (record { reports = result.reports; trace = trace; ending = ending; has_order = has_order }) }
{
    let lost = ending.lost_events();
    let later = is_later(options);
    let Reports { lockset, unordered } = reports;
    ReplayedTrace {
        reports: Reports {
            lockset: given_if(lockset, later, of_pages, lost),
            unordered: given_if(unordered, later, of_pages, lost),
        },
        trace,
        ending,
        has_order,
    }
}

// What a part, a later one or not, gives of a report, if there is one.
fn given_if(report: Option<Report>, later: bool, of_pages: u64, lost: Option<u64>) -> Option<Report>
    ensures { IsGivenIf later of_pages lost report result }
{
    let Some(report) = report else {
        return None;
    };
    Some(given(report, later, of_pages, lost))
}

// What a part gives of a report, with so many lost events.
fn given(mut report: Report, later: bool, of_pages: u64, lost: Option<u64>) -> Report
    ensures { IsGivenOf later of_pages lost report result }
{
    report.lost = lost;
    if later {
        return own_of(report, of_pages);
    }
    report
}

// The report without its lines of refused steps, and with this number of steps.
fn own_of(mut report: Report, of_pages: u64) -> Report
    ensures { IsOwnOf of_pages report result }
{
    report.lines.retain(
        |line| -> bool
            ensures { result ≡ is_own line.now }
        { is_own(line) },
    );
    report.steps = of_pages_in(report.steps, of_pages);
    report.refused = 0;
    report
}

// How many of these steps are of pages. That a number of steps is less than 2^64 is known of a number that is passed.
fn of_pages_in(steps: u64, of_pages: u64) -> u64
    ensures value { result ≡ of_pages }
    ensures few { steps < 2 ^ 64 }
{
    of_pages
}

// Whether a part other than the first is replayed, which says nothing of the steps of no page.
fn is_later(options: &Options) -> bool
    ensures { result ≡ is_later options.now.part }
{
    match options.part {
        Some(part) => !part.is_first(),
        None => false,
    }
}

// Whether the line tells of no refused step.
fn is_own(line: &Line) -> bool
    ensures { result ≡ is_own line.now }
{
    !matches!(line, Line::Refused { .. })
}
