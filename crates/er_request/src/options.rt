//! The options of each command, as rows of tables, and the command line that they make.
use clap::builder::ValueParser;
use clap::{Arg, ArgAction, Command};
use std::alloc::{AllocError, Global};

pub(crate) const MOST_SHARDS: u32 = 64;

pub(crate) const MOST_WORKERS: u32 = 16;

pub(crate) const MOST_BYTES: u64 = 4_611_686_018_427_387_904;

/// What `demo` runs, by its name.
#[rattlefmt::skip]
pub(crate) const DEMOS: [&str; 6] = ["locked-counter", "racy-counter", "init-then-read", "rw-table", "reuse-pool", "ignored-stats"];

const ANALYSES: [&str; 3] = ["lockset", "happens-before", "both"];

const FORMS: [&str; 4] = ["text", "json", "sarif", "html"];

// How a row is given. What takes a value has what `--help` calls the value, and what the value has to be.
#[derive(Clone, Copy)]
enum Shape {
    // An option without a value.
    Flag,
    // An option with a value.
    Value(&'static str, ValueParser<'static>),
    // An option with a value, and the one that it has if it isn't given.
    Default(&'static str, ValueParser<'static>, &'static str),
    // An option with a value that may be given several times.
    Values(&'static str, ValueParser<'static>),
    // A value that must be given, without an option's name before it.
    Word(&'static str, ValueParser<'static>),
    // One such value or more.
    Words(&'static str, ValueParser<'static>),
    // The same as a word, with the value that it has if it isn't given.
    DefaultWord(&'static str, ValueParser<'static>, &'static str),
}

// An option, or a word that must be given, and the options that it can't be used with.
#[derive(Clone, Copy)]
struct Row {
    name: &'static str,
    shape: Shape,
    without: &'static [&'static str],
    help: &'static str,
}

// `--help` lists the rows of a command in their order.
#[rattlefmt::skip]
const REPLAY: [Row; 18] = [
    Row { name: "analysis", shape: Shape::Default("ANALYSIS", ValueParser::Names(&ANALYSES), "lockset"), without: &[],
          help: "Report accesses that no lock protects, accesses and reuses that were not ordered in this run, or both" },
    SUPPRESS,
    Row { name: "write-rules", shape: Shape::Value("FILE", ValueParser::String), without: &["part"], help: "Write rules to this file that take each race of the report" },
    Row { name: "unused-rules", shape: Shape::Flag, without: &["part"], help: "Name each rule that took no race, on standard error" },
    Row { name: "max-races", shape: Shape::Value("COUNT", ValueParser::Unsigned(0, u64::MAX)), without: &["by-site", "part"],
          help: "Write the lines of the first races alone, and how many were left out" },
    EXPLAINED,
    Row { name: "by-site", shape: Shape::Flag, without: &["part"], help: BY_SITE },
    FORMAT,
    Row { name: "source", shape: Shape::Value("DIR", ValueParser::String), without: &["part"], help: SOURCE },
    Row { name: "strict", shape: Shape::Flag, without: &["part"], help: "End with 2 if the trace is damaged, and write no report" },
    Row { name: "until-fault", shape: Shape::Flag, without: &["part"], help: "Report the steps before the first faulty line of the trace, and then its fault" },
    Row { name: "part", shape: Shape::Value("I/N", ValueParser::String), without: &[], help: "Replay part I of N alone, as 2/8, with at most 4096 parts; merge makes one report of those of all parts" },
    Row { name: "progress", shape: Shape::Flag, without: &[], help: "Show on standard error, about twice a second, how far the replay has come" },
    Row { name: "hints", shape: Shape::Flag, without: &[], help: "Write on standard error, as on a terminal, what helps people behind the line of a fault" },
    Row { name: "workers", shape: Shape::Default("N", ValueParser::Signed(1, MOST_WORKERS as i64), "1"), without: &[], help: "How many threads replay the trace, 1 to 16" },
    Row { name: "shards", shape: Shape::Default("N", ValueParser::Signed(1, MOST_SHARDS as i64), "8"), without: &[], help: "Into how many parts several workers cut the words, 1 to 64" },
    BYTE_LIMIT,
    Row { name: "trace", shape: Shape::Word("TRACE", ValueParser::String), without: &[], help: "The trace to replay, or - for standard input" },
];

#[rattlefmt::skip]
const EXPLAIN: [Row; 3] = [
    BYTE_LIMIT,
    Row { name: "line", shape: Shape::Word("LINE", ValueParser::Unsigned(0, u64::MAX)), without: &[], help: "The line of the trace that the step stands on, from 1" },
    Row { name: "trace", shape: Shape::Word("TRACE", ValueParser::String), without: &[], help: "The trace, or - for standard input" },
];

#[rattlefmt::skip]
const PRINT: [Row; 1] = [Row { name: "trace", shape: Shape::DefaultWord("TRACE", ValueParser::String, "-"), without: &[], help: "The trace, or - for standard input" }];

#[rattlefmt::skip]
const MERGE: [Row; 8] = [
    Row { name: "trace", shape: Shape::Value("FILE", ValueParser::String), without: &[], help: "The trace that the reports are of; each option below needs it" },
    SUPPRESS,
    EXPLAINED,
    Row { name: "by-site", shape: Shape::Flag, without: &[], help: BY_SITE },
    FORMAT,
    Row { name: "source", shape: Shape::Value("DIR", ValueParser::String), without: &[], help: SOURCE },
    BYTE_LIMIT,
    Row { name: "reports", shape: Shape::Words("REPORT", ValueParser::String), without: &[], help: "The reports of all parts, in any order" },
];

#[rattlefmt::skip]
const DEMO: [Row; 1] = [Row { name: "name", shape: Shape::Word("NAME", ValueParser::Names(&DEMOS)), without: &[], help: "What the threads do" }];

#[rattlefmt::skip]
const SUPPRESS: Row = Row { name: "suppress", shape: Shape::Values("FILE", ValueParser::String), without: &[], help: "Count the races that this file's rules take, and leave their lines out" };

#[rattlefmt::skip]
const EXPLAINED: Row = Row { name: "explain", shape: Shape::Flag, without: &[], help: "Name the accesses that make each race" };

#[rattlefmt::skip]
const FORMAT: Row = Row { name: "format", shape: Shape::Default("FORM", ValueParser::Names(&FORMS), "text"), without: &["by-site"],
                          help: "How the report is written: as text for scripts, as JSON for programs, as SARIF for code hosts, or as one page of HTML for people" };

const BY_SITE: &str =
    "Write a table of the sites with races, most words first, and explain a race of each";

const SOURCE: &str =
    "With --format html, show the lines around each site, from the files below this folder";

#[rattlefmt::skip]
const BYTE_LIMIT: Row = Row { name: "byte-limit", shape: Shape::Default("BYTES", ValueParser::Unsigned(1, MOST_BYTES), "268435456"), without: &[],
                              help: "The most bytes that a text may have, 1 to 4611686018427387904" };

const AFTER_EXPLAIN: &str = "\
Example:
  printf 'eraser trace 1\\nt1 write 0x1000\\nt2 write 0x1000\\n' | eraser explain 3 -
prints
  line 3: t2 write 0x000000001000 at -, holding none
  answer: race: the word was written, and no lock was held at each access since a second thread came
  before: exclusive t1
  after: shared-modified, candidates none: this access left no candidate
  earlier accesses: 1
    access 1: line 2, t1 write at -, holding none: exclusive t1

The earlier accesses are those that count since the word's last reuse. Each one that changed the word's state has a line.";

const AFTER_MERGE: &str = "\
Example, for a trace that three machines replay:
  eraser replay --part 1/3 big.trace > 1.report
  eraser replay --part 2/3 big.trace > 2.report
  eraser replay --part 3/3 big.trace > 3.report
  eraser merge 1.report 2.report 3.report
prints what `eraser replay big.trace` prints, and ends with its status. With the trace, the report has any form:
  eraser merge --trace big.trace --by-site 1.report 2.report 3.report
prints what `eraser replay --by-site big.trace` prints. It replays the pages with races alone.

Each part must be there once. All must be of the same trace, by the same rules and options. Otherwise nothing is printed but what is wrong.
cluster/README.md has scripts for Slurm and for GNU parallel.";

const AFTER_HELP: &str = "\
Example:
  printf 'eraser trace 1\\nt1 write 0x1000\\nt2 write 0x1000\\n' | eraser replay -
prints
  line 3: race: t2 write 0x000000001000 at -, holds none
  steps 2, races 1, suppressed 0, refused 0

With --explain the race is followed by the accesses that make it one:
  line 3: race: t2 write 0x000000001000 at -, holds none
    first: line 2, t1 write
    joined: line 3, t2 write
    write: line 3, t2 write

A suppression file has a rule a line, and the first that fits a race takes it:
  site parser.c:120
  words 0x1000 64

Exit status:
  0  no race was printed
  1  some race was printed
  2  wrong arguments, a text with a fault, or with --strict a damaged trace
  3  the replay ran out of room, or a demo was refused or did not settle
  4  a file could not be opened, read or written

The texts of traces, suppressions and reports are described in docs/FORMATS.md.";

// A command, what `--help` says of it before and behind its options, and these.
#[derive(Clone, Copy)]
struct Subcommand {
    name: &'static str,
    about: &'static str,
    after: Option<&'static str>,
    rows: &'static [Row],
}

#[rattlefmt::skip]
static SUBCOMMANDS: [Subcommand; 5] = [
    Subcommand { name: "replay", about: "Replay a trace and report its races", after: None, rows: &REPLAY },
    Subcommand { name: "explain", about: "Say why one step is a race or not, by the story of its word", after: Some(AFTER_EXPLAIN), rows: &EXPLAIN },
    Subcommand { name: "print", about: "Write the text of a trace, also of a binary one", after: None, rows: &PRINT },
    Subcommand { name: "merge", about: "Make one report of the reports of a trace's parts", after: Some(AFTER_MERGE), rows: &MERGE },
    Subcommand { name: "demo", about: "Run threads that call the detector, and print how many steps and races they made", after: None, rows: &DEMO },
];

/// The command line of the program.
pub(crate) fn eraser_command<'a>(alloc: Global) -> Result<Command<'a>, AllocError> {
    let mut subcommands = Vec::new(alloc);
    for subcommand in SUBCOMMANDS.as_slice() {
        subcommands.push(command_of(alloc, *subcommand)?)?;
    }
    Command::new(alloc, "eraser")
        .version("0.1.0")
        .about("Finds data races by the locks that are held at each access")
        .after_help(AFTER_HELP)
        .subcommand_required(true)
        .arg_required_else_help(true)
        .subcommands(subcommands)
}

fn command_of<'a>(alloc: Global, subcommand: Subcommand) -> Result<Command<'a>, AllocError> {
    let mut arguments = Vec::new(alloc);
    for row in subcommand.rows {
        arguments.push(argument_of(alloc, *row)?)?;
    }
    let command = Command::new(alloc, subcommand.name).about(subcommand.about);
    match subcommand.after {
        Some(text) => command.after_help(text).args(arguments),
        None => command.args(arguments),
    }
}

fn argument_of<'a>(alloc: Global, row: Row) -> Result<Arg<'a>, AllocError> {
    let named = Arg::new(alloc, row.name).help(row.help);
    let mut argument = match row.shape {
        Shape::Flag => named.long(row.name).action(ArgAction::SetTrue),
        Shape::Value(value, takes) => with_value(named, value, takes).long(row.name),
        Shape::Default(value, takes, default) => with_value(named, value, takes)
            .long(row.name)
            .default_value(default),
        Shape::Values(value, takes) => with_value(named, value, takes)
            .long(row.name)
            .action(ArgAction::Append),
        Shape::Word(value, takes) => with_value(named, value, takes).required(true),
        Shape::Words(value, takes) => with_value(named, value, takes)
            .required(true)
            .num_args(1..)
            .action(ArgAction::Append),
        Shape::DefaultWord(value, takes, default) => {
            with_value(named, value, takes).default_value(default)
        }
    };
    for other in row.without {
        argument = argument.conflicts_with(other)?;
    }
    Ok(argument)
}

fn with_value<'a>(argument: Arg<'a>, value: &'a str, takes: ValueParser<'a>) -> Arg<'a> {
    argument.value_name(value).value_parser(takes)
}
