//! What a command line asks for.
ghost use Rattle.std.specs.Prelude.{◌<◌, ◌≤◌, ◌^◌};

use er_parts::Part;
use er_report::{Analysis, Form, Report};

/// What a command line asks for.
#[derive(Drop)]
pub enum Request<'a> {
    /// A replay of a trace.
    Replay(Replay<'a>),
    /// The story of one step of a trace.
    Explain(Explain<'a>),
    /// The text that a trace means. It has the path of the trace, or `-` for standard input.
    Print(&'a str),
    /// The one report of the reports of a trace's parts, as text. It has the paths of these reports.
    Merge(Vec<&'a str>),
    /// A workload on threads of this program.
    Demo(Demo),
}

/// Which trace to replay, by which suppressions, and how.
#[derive(Drop)]
pub struct Replay<'a> {
    /// The paths of the files of suppressions, in the order of their rules.
    pub suppressions: Vec<&'a str>,
    /// The path of the file that gets rules for the races of the report, if there is to be one.
    pub write_rules: Option<&'a str>,
    /// Whether each rule that took no race is named.
    pub unused_rules: bool,
    /// How many lines of races the report has at most, if that is limited.
    pub max_races: Option<u64>,
    /// The path of the trace, or `-` for standard input.
    pub trace: &'a str,
    /// Which part of the trace is replayed, or None if all of it is. Given only with the path of a file, and of a replay whose report is text.
    pub part: Option<Part>,
    /// The paths of the reports of all parts of the trace, if these are there: then the pages of their lines alone are replayed. With them `part` is None,
    /// until the reports are read and merged.
    pub reports: Vec<&'a str>,
    /// What these reports count together.
    pub counts: Option<Report>,
    /// By which rule accesses are races.
    pub analysis: Analysis,
    /// How the reports are written.
    pub form: Form,
    /// The path of the folder that has the source files, if the page is to show lines of them. Given only with [`Form::Html`].
    pub source: Option<&'a str>,
    /// Whether races are explained, as they are by site, as SARIF and as HTML.
    pub explain: bool,
    /// Whether a damaged trace is a fault.
    pub strict: bool,
    /// Whether the report of a text with a fault has the steps before its first faulty line.
    pub until_fault: bool,
    /// Whether standard error shows how far the replay has come.
    pub progress: bool,
    /// Whether what helps people follows the line of a fault: if a word asks for it, or the errors are a terminal.
    pub hints: bool,
    /// In how many shards the words are, from 1 to 64.
    pub shards: u32,
    /// How many workers replay the trace, from 1 to 16.
    pub workers: u32,
    /// How many bytes the trace may have, and the suppressions, at most 2^62.
    pub byte_limit: u64,
    /// How many bytes of text a binary trace may have that is given by its path: as many, if a word says how many, and else 2^62.
    pub binary_limit: u64,
    pub ghost some_shards: { 1 ≤ shards },
    pub ghost few_shards: { shards ≤ 64 },
    pub ghost some_workers: { 1 ≤ workers },
    pub ghost few_workers: { workers ≤ 16 },
    pub ghost few_of_binary: { binary_limit ≤ 2 ^ 62 },
    pub ghost few_bytes: { byte_limit ≤ 2 ^ 62 },
}

/// Which step of which trace to explain.
#[derive(Drop)]
pub struct Explain<'a> {
    /// The line of the trace that the step stands on, from 1.
    pub line: u64,
    /// The path of the trace, or `-` for standard input.
    pub trace: &'a str,
    /// How many bytes the trace may have, at most 2^62.
    pub byte_limit: u64,
    pub ghost few_bytes: { byte_limit ≤ 2 ^ 62 },
}

/// Which of the six workloads to run.
#[derive(Clone, Copy, Drop)]
pub struct Demo {
    /// Its place in the list of names that `--help` shows, from 0.
    pub place: usize,
    pub ghost within: { place < 6 },
}
