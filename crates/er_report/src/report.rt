//! A report, as plain data.
ghost use Rattle.std.specs.Prelude.{◌≡◌, IfSome};
ghost use Rattle.er_report.specs.Lines.{RacedView, line_view, locks_in, race_of, reasons_in};

use er_event::{
    Kind, LockId, Lockset, NoRoom, PageRange, Refusal, Site, Step, ThreadId, Word, WordState,
};
use std::marker::Model;

/// One line of a report. Each names the line of the text that its step came from. A report may have millions of them, so what only few of
/// them have stands apart, and the fields are in the order in which they take least room.
#[derive(Debug, PartialEq, Eq, Drop)]
pub enum Line {
    /// An access that was answered with a race.
    Race {
        /// Whether it read or wrote.
        kind: Kind,
        /// Who made the access.
        thread: ThreadId,
        /// Where in the program it stands.
        site: Site,
        /// The line of the text, from 1.
        line: u64,
        /// The word that it touched.
        word: Word,
        /// The locks that the thread held then, and the accesses that make it a race: the first, the joining, a write, and one for each
        /// lock of the joining. None if it held no lock and no reasons were given, as at most races.
        details: Option<Box<Details>>,
    },
    /// A reuse that was answered with a race: its memory was given back while another thread still used it.
    Reused {
        /// Who gave the memory back.
        thread: ThreadId,
        /// Where in the program it stands.
        site: Site,
        /// The line of the text, from 1.
        line: u64,
        /// The words that were given back.
        range: Box<PageRange>,
        /// The locks that the thread held then, and the access that it is unordered with. None if there is neither.
        details: Option<Box<Details>>,
    },
    /// A step that was refused.
    Refused {
        /// Why.
        refusal: Refusal,
        /// What was refused, and to whom.
        step: Step,
        /// The line of the text, from 1.
        line: u64,
    },
    /// A word that was shown.
    Shown {
        /// The line of the text, from 1.
        line: u64,
        /// The word.
        word: Word,
        /// What was known of it then.
        state: Box<WordState>,
    },
}

const _: () = prove!(size_of::<Line>() == 48);

/// What few races have.
#[derive(Debug, PartialEq, Eq, Drop)]
pub struct Details {
    /// The locks that the thread held, in any mode. None if it held none.
    pub held: Option<Box<Lockset>>,
    /// The accesses that make it a race. Empty in a report without explanations.
    pub explained: Vec<Because>,
}

impl Line {
    /// The race that it tells, if it tells one. The two clauses say the same.
    pub fn race(&self) -> Option<Race<'_>>
        ensures value { result ≡ race_of (line_view self.now) }
        ensures is { IfSome result (λ race. line_view self.now ≡ RacedView race) }
    {
        let (line, thread, deed, site, details) = match self {
            Line::Race {
                kind,
                thread,
                site,
                line,
                word,
                details,
            } => (line, thread, Deed::Access(*kind, *word), site, details),
            Line::Reused {
                thread,
                site,
                line,
                range,
                details,
            } => (line, thread, Deed::Reuse(**range), site, details),
            Line::Refused { .. } | Line::Shown { .. } => return None,
        };
        Some(Race {
            line: *line,
            thread: *thread,
            deed,
            site: *site,
            held: locks_in(details),
            explained: reasons_in(details),
        })
    }
}

// The locks among a race's details.
fn locks_in(details: &Option<Box<Details>>) -> &[LockId]
    ensures { result.now ≡ locks_in details.now }
{
    match details {
        Some(details) => match &details.held {
            Some(locks) => locks.as_slice(),
            None => &[],
        },
        None => &[],
    }
}

/// The reasons among a race's details.
pub fn reasons_in(details: &Option<Box<Details>>) -> &[Because]
    ensures { result.now ≡ reasons_in details.now }
{
    match details {
        Some(details) => &details.explained,
        None => &[],
    }
}

/// What a thread did that was answered with a race.
#[derive(Clone, Copy, Debug, PartialEq, Eq, Drop)]
pub enum Deed {
    /// It read or wrote this word.
    Access(Kind, Word),
    /// It gave back these words.
    Reuse(PageRange),
}

/// A race, of an access or of a reuse, as a line tells it.
#[derive(Debug, Drop)]
pub struct Race<'a> {
    /// The line of the text, from 1.
    pub line: u64,
    /// Whose race it is.
    pub thread: ThreadId,
    /// What the thread did.
    pub deed: Deed,
    /// Where in the program it stands.
    pub site: Site,
    /// The locks that the thread held then, in any mode.
    pub held: &'a [LockId],
    /// The accesses that make it a race. Empty in a report without explanations.
    pub explained: &'a [Because],
}

impl<'a> Model for Race<'a> {
    ghost use Rattle.er_report.specs.Lines.{RaceView};

    ghost Value = { RaceView };

    ghost view = { λ r. record { line = r.line; thread = r.thread; deed = r.deed; site = r.site; held = r.held.now; explained = r.explained.now } };
}

/// An earlier access, or the race's own, and what it has to do with the race.
#[derive(Clone, Copy, Debug, PartialEq, Eq, Drop)]
pub struct Because {
    /// What it has to do with the race.
    pub label: Label,
    /// The line of the text that it came from, from 1.
    pub line: u64,
    /// Who made the access.
    pub thread: ThreadId,
    /// Whether it read or wrote.
    pub kind: Kind,
}

/// What an access has to do with a race.
#[derive(Clone, Copy, Debug, PartialEq, Eq, Drop)]
pub enum Label {
    /// It was the first since the word's last reuse.
    First,
    /// It was the first by a second thread: from it on the accesses must have a lock in common.
    Joined,
    /// It was the first write from the joining on.
    Write,
    /// It was the first after the joining that was made without this lock, which covered the joining.
    Uncovered(LockId),
    /// It was the last before the race that conflicts with it and doesn't come before it in order.
    Unordered,
}

/// What a run of a trace came to.
#[derive(Debug, PartialEq, Eq, Drop)]
pub struct Report {
    /// What the steps gave to report, in their order.
    pub lines: Vec<Line>,
    /// The line of the step at which the run stopped, and why, where it did.
    pub stop: Option<(u64, NoRoom)>,
    /// How many races each rule took, in the order of the rules.
    pub rule_counts: Vec<u64>,
    /// How many steps were answered, refused ones among them.
    pub steps: u64,
    /// How many races the lines tell.
    pub races: u64,
    /// How many races a rule took.
    pub suppressed: u64,
    /// How many steps were refused.
    pub refused: u64,
    /// How many events the trace says were lost. None if it says nothing of lost events.
    pub lost: Option<u64>,
}
