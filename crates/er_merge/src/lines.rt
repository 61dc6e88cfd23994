//! What a line of a report is.
ghost use Rattle.std.specs.Prelude.{◌≡◌, ◌≤◌, length};
ghost use Rattle.std.specs.List.{position_or_len};
ghost use Rattle.er_lines.specs.Lines.{words};
ghost use Rattle.er_lines.specs.Words.{seen_name};
ghost use Rattle.er_merge.specs.Lines.{address_in, address_word, behind, count_line, is_no_digit, is_step, lost_in, number_behind, number_in_front, races_label, report_line, seen_number, step_line, totals_in, totals_line};

use er_lines::{number_of, split_words, value_in};

/// Where a line belongs among those of the whole report: the line of the trace that it names, and the address of its word.
#[derive(Clone, Copy, Drop)]
pub struct Place {
    /// The line of the trace, from 1.
    pub line: u64,
    /// The address of the word, or 0.
    pub address: u64,
}

/// What the last line of a report counts.
#[derive(Clone, Copy, Drop)]
pub struct Totals {
    /// Whether it calls races unordered, as a report by happens-before does.
    pub unordered: bool,
    /// How many steps were answered.
    pub steps: u64,
    /// How many races have lines.
    pub races: u64,
    /// How many races a rule took.
    pub suppressed: u64,
    /// How many steps were refused.
    pub refused: u64,
    /// How many events were lost, or 0.
    pub lost: u64,
}

/// What a line of a report is.
#[derive(Clone, Copy, Drop)]
pub enum ReportLine {
    /// It tells of a step, and belongs there.
    Step(Place),
    /// It gives a reason for the race above it.
    Reason,
    /// It says where the replay stopped.
    Stopped,
    /// It says of the rule with the first number how many races it took.
    Count(u64, u64),
    /// It counts all.
    Totals(Totals),
    /// It is none of these.
    Foreign,
}

/// What a line is, without its line feed.
pub(crate) fn report_line(text: &[u8]) -> ReportLine
    ensures { result ≡ report_line text.now }
{
    if text.starts_with(b"  ") {
        return ReportLine::Reason;
    }
    if let Some((line, rest)) = number_behind(b"line ", text) {
        return step_line(line, text, rest);
    }
    if let Some((number, rest)) = number_behind(b"suppression ", text) {
        return count_line(number, rest);
    }
    totals_line(text)
}

fn step_line(line: u64, text: &[u8], rest: &[u8]) -> ReportLine
    ensures { result ≡ step_line line text.now rest.now }
{
    if rest.starts_with(b": stopped: ") {
        return ReportLine::Stopped;
    }
    if !is_step(rest) {
        return ReportLine::Foreign;
    }
    ReportLine::Step(Place {
        line,
        address: address_in(text),
    })
}

fn is_step(rest: &[u8]) -> bool
    ensures { result ≡ is_step rest.now }
{
    rest.starts_with(b": race: ")
        || rest.starts_with(b": unordered: ")
        || rest.starts_with(b": refused: ")
        || rest.starts_with(b": state ")
}

fn address_in(text: &[u8]) -> u64
    ensures { result ≡ address_in text.now }
{
    number_of(address_word(text)).unwrap_or(0)
}

fn address_word(text: &[u8]) -> &[u8]
    ensures { result.now ≡ address_word (words text.now) }
{
    let words = split_words(text);
    if words.third == b"state".as_slice() {
        return &words.fourth[..words.fourth.len().saturating_sub(1)];
    }
    words.sixth
}

fn count_line(number: u64, rest: &[u8]) -> ReportLine
    ensures { result ≡ count_line number rest.now }
{
    match number_behind(b": ", rest) {
        Some((count, [])) => ReportLine::Count(number, count),
        _ => ReportLine::Foreign,
    }
}

fn totals_line(text: &[u8]) -> ReportLine
    ensures { result ≡ totals_line text.now }
{
    match totals_in(text) {
        Some(totals) => ReportLine::Totals(totals),
        None => ReportLine::Foreign,
    }
}

fn totals_in(text: &[u8]) -> Option<Totals>
    ensures { result ≡ totals_in text.now }
{
    let (steps, rest) = number_behind(b"steps ", text)?;
    let unordered = rest.starts_with(b", unordered ");
    let (races, rest) = number_behind(races_label(unordered), rest)?;
    let (suppressed, rest) = number_behind(b", suppressed ", rest)?;
    let (refused, rest) = number_behind(b", refused ", rest)?;
    let lost = lost_in(rest)?;
    Some(Totals {
        unordered,
        steps,
        races,
        suppressed,
        refused,
        lost,
    })
}

fn races_label(unordered: bool) -> &'static [u8]
    ensures { result.now ≡ races_label unordered }
{
    if unordered {
        b", unordered ".as_slice()
    } else {
        b", races ".as_slice()
    }
}

fn lost_in(rest: &[u8]) -> Option<u64>
    ensures { result ≡ lost_in rest.now }
{
    if rest.is_empty() {
        return Some(0);
    }
    match number_behind(b", lost ", rest) {
        Some((lost, [])) => Some(lost),
        _ => None,
    }
}

/// The number that stands behind these bytes at the beginning of a text, and what follows it.
pub(crate) fn number_behind<'a>(before: &[u8], text: &'a [u8]) -> Option<(u64, &'a [u8])>
    ensures { seen_number result ≡ number_behind before.now text.now }
{
    number_in_front(behind(before, text)?)
}

fn number_in_front(text: &[u8]) -> Option<(u64, &[u8])>
    ensures { seen_number result ≡ number_in_front text.now }
{
    let (digits, rest) = text.split_at(digits_len(text));
    let value = value_in(10, digits)?;
    Some((value, rest))
}

fn behind<'a>(before: &[u8], text: &'a [u8]) -> Option<&'a [u8]>
    ensures { seen_name result ≡ behind before.now text.now }
{
    if !text.starts_with(before) {
        return None;
    }
    Some(&text[before.len()..])
}

// How many digits stand in front.
fn digits_len(text: &[u8]) -> usize
    ensures place { result ≡ position_or_len is_no_digit text.now }
    ensures bound { result ≤ length text.now }
{
    let end = text.iter().position(|byte| !byte.is_ascii_digit());
    end.unwrap_or(text.len())
}
