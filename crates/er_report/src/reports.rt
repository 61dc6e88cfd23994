//! Which reports a replay is asked for, how they are written, and what it comes to.
ghost use Rattle.std.specs.Prelude.{◌≡◌};
ghost use Rattle.er_report.specs.Reports.{asks_locks, asks_order};

use crate::Report;

/// By which rule accesses are races.
#[derive(Clone, Copy, Debug, PartialEq, Eq, Drop)]
pub enum Analysis {
    /// No lock was held at each access of the word.
    Lockset,
    /// Two accesses were not ordered in this run.
    HappensBefore,
    /// Each of the two, with a report of its own.
    Both,
}

impl Analysis {
    /// Whether it has a report by the lockset rule.
    pub fn asks_locks(self) -> bool
        ensures { result ≡ asks_locks self }
    {
        matches!(self, Analysis::Lockset | Analysis::Both)
    }

    /// Whether it has a report by happens-before.
    pub fn asks_order(self) -> bool
        ensures { result ≡ asks_order self }
    {
        matches!(self, Analysis::HappensBefore | Analysis::Both)
    }
}

/// How reports are written.
#[derive(Clone, Copy, Debug, PartialEq, Eq, Drop)]
pub enum Form {
    /// As text, a line for each race.
    Text,
    /// For people: the races by their sites, each site with an example.
    BySite,
    /// As JSON, a document for each report.
    Json,
    /// As a SARIF log.
    Sarif,
    /// As a page of HTML.
    Html,
}

/// The reports of one trace, of each analysis that was asked for.
#[derive(Debug, PartialEq, Eq, Drop)]
pub struct Reports {
    /// The report of the lockset rule.
    pub lockset: Option<Report>,
    /// The report of accesses and reuses that were not ordered in this run.
    pub unordered: Option<Report>,
}
