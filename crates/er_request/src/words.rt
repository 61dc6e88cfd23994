//! What the words of a command line ask for.
ghost use Rattle.std.specs.Prelude.{◌≡◌, ◌||◌, ◌⊎◌, [], false, true, IfOk, IsOk};
ghost use Rattle.er_request.specs.Words.{merges_by_locks, IsUsual, asks_hints, asks_print, asks_progress, asks_until_fault, asks_usual, gives_hints, names, names_hints, names_progress, names_until_fault, prints_input, replays_input, takes_input};

use crate::options::{DEMOS, MOST_BYTES, MOST_SHARDS, MOST_WORKERS, eraser_command};
use crate::request::{Demo, Explain, Replay, Request};
use clap::error::ErrorKind;
use clap::parser::ValueSource;
use clap::{ArgMatches, Command, Error};
use er_parts::Part;
use er_report::{Analysis, Form};
use std::alloc::{AllocError, Global};

/// Reads a command line, of which the first word is the program's name. Steps before a fault are asked for only if a word asks for them,
/// and so is how far a replay has come. What helps people is asked for by a word, or if the errors are a terminal. `replay -` and `print -` are read
/// here, and what they ask for is proved. All other words are left to the parser.
pub fn read_request<'a>(
    alloc: Global,
    words: &'a [String],
    on_terminal: bool,
) -> Result<Request<'a>, Error>
    ensures until_fault { IfOk result (λ request. asks_until_fault request ≡ true → names_until_fault words.now ≡ true) }
    ensures progress { IfOk result (λ request. asks_progress request ≡ true → names_progress words.now ≡ true) }
    ensures hints { IfOk result (λ request. asks_hints request ≡ true → (names_hints words.now || on_terminal) ≡ true) }
    ensures terminal { on_terminal ≡ true → IfOk result (λ request. gives_hints request ≡ true) }
    ensures usual { replays_input words.now ≡ true → IsOk result }
    ensures asks { replays_input words.now ≡ true → IfOk result (asks_usual on_terminal) }
    ensures merges { IfOk result merges_by_locks }
    ensures prints { prints_input words.now ≡ true → IsOk result × IfOk result asks_print }
{
    if takes_input(words, "print") {
        return Ok(Request::Print("-"));
    }
    if takes_input(words, "replay") {
        return Ok(Request::Replay(usual_replay(alloc, on_terminal)));
    }
    match read_by_parser(alloc, words)? {
        Request::Replay(mut replay) => {
            replay.until_fault = replay.until_fault && names(words, "--until-fault");
            replay.progress = replay.progress && names(words, "--progress");
            replay.hints = on_terminal || (replay.hints && names(words, "--hints"));
            replay.analysis = rule_of(&replay);
            Ok(Request::Replay(replay))
        }
        other => Ok(other),
    }
}

// By which rule it is: reports of parts are merged by the lockset rule alone.
fn rule_of(replay: &Replay<'_>) -> Analysis
    ensures { (replay.now.reports.items ≡ []) ⊎ (result ≡ Analysis.Lockset) }
{
    match replay.reports.as_slice() {
        [] => replay.analysis,
        _ => Analysis::Lockset,
    }
}

// Whether the words are this command and `-`.
fn takes_input(words: &[String], command: &str) -> bool
    ensures { result ≡ takes_input command.now words.now }
{
    match words {
        [_, first, trace] => first.as_str() == command && trace.as_str() == "-",
        _ => false,
    }
}

// A replay of the standard input with no option. The parser gives each field the same value if no word names it.
fn usual_replay<'a>(alloc: Global, hints: bool) -> Replay<'a>
    ensures usual { IsUsual result }
    ensures hints { result.hints ≡ hints }
{
    Replay {
        suppressions: Vec::new(alloc),
        write_rules: None,
        unused_rules: false,
        max_races: None,
        trace: "-",
        part: None,
        reports: Vec::new(alloc),
        counts: None,
        analysis: Analysis::Lockset,
        form: Form::Text,
        source: None,
        explain: false,
        strict: false,
        until_fault: false,
        progress: false,
        hints,
        shards: 8,
        workers: 1,
        byte_limit: 268_435_456,
        binary_limit: MOST_BYTES,
    }
}

// Whether one of the words is this option. The parser decides whether it is that option, and no name of a file.
fn names(words: &[String], option: &str) -> bool
    ensures { result ≡ names option.now words.now }
{
    words.iter().any(|word| word.as_str() == option)
}

// The request, or the parser's error.
type Read<'a> = Result<Request<'a>, Error>;

// Reads a command line by the parser.
fn read_by_parser<'a>(alloc: Global, words: &'a [String]) -> Read<'a> {
    let mut command = eraser_command(alloc)?;
    request_by(alloc, &mut command, words)
}

fn request_by<'a>(alloc: Global, command: &mut Command<'a>, words: &'a [String]) -> Read<'a> {
    let matches = command.try_get_matches_from_mut(words)?;
    let found = request_of(alloc, &matches);
    let no_part = no_part_of(&matches);
    drop(matches);
    if let Some(value) = no_part {
        drop(found);
        let text = format!(in alloc;
            "invalid value '{value}' for '--part <I/N>': it has to be two numbers, as in 2/8, with 1 <= I <= N <= 4096"
        )?;
        return Err(command.error(ErrorKind::ValueValidation, text.as_str())?);
    }
    let Some(request) = found? else {
        return Err(command.error(ErrorKind::InvalidValue, "a value is missing")?);
    };
    match conflict_of(&request) {
        None => Ok(request),
        Some(text) => Err(command.error(ErrorKind::ArgumentConflict, text)?),
    }
}

// What is wrong with a request whose words are right one by one.
fn conflict_of(request: &Request<'_>) -> Option<&'static str> {
    let Request::Replay(replay) = request else {
        return None;
    };
    if replay.source.is_some() && replay.form != Form::Html {
        return Some("--source goes with --format html alone");
    }
    if let Some(path) = replay.write_rules
        && replay.suppressions.iter().any(|other| *other == path)
    {
        return Some("--write-rules would replace a file of --suppress: give it another path");
    }
    if !replay.reports.is_empty() && replay.trace == "-" {
        return Some("merge with options reads the trace twice: give its file with --trace");
    }
    replay.part.and(conflict_of_part(replay))
}

// What `eraser merge` can't read of a part, and what is not read twice.
fn conflict_of_part(replay: &Replay<'_>) -> Option<&'static str> {
    if replay.analysis != Analysis::Lockset || replay.form != Form::Text {
        return Some("--part goes with --analysis lockset and --format text alone");
    }
    (replay.trace == "-").then_some("--part reads the trace twice: give it a file in place of -")
}

// None if a value is missing that the parser requires or gives.
fn request_of<'a>(alloc: Global, all: &ArgMatches<'a>) -> Result<Option<Request<'a>>, AllocError> {
    Ok(match all.subcommand() {
        Some(("replay", found)) => {
            let suppressions = found.get_strs("suppress").unwrap_or(&[]);
            replay_of(alloc, found, suppressions.to_vec(alloc)?)
        }
        Some(("explain", found)) => explain_of(found),
        Some(("print", found)) => found.get_str("trace").map(Request::Print),
        Some(("merge", found)) => merge_of(alloc, found)?,
        Some(("demo", found)) => demo_of(found),
        _ => None,
    })
}

// The parser has refused numbers beyond their limits: `clamp` and `min` show that to the prover.
fn replay_of<'a>(
    alloc: Global,
    found: &ArgMatches<'a>,
    suppressions: Vec<&'a str>,
) -> Option<Request<'a>> {
    let form = form_of(found)?;
    let byte_limit = found.get_one::<u64>("byte-limit")?.min(MOST_BYTES);
    let gives_limit = found.value_source("byte-limit") == Some(ValueSource::CommandLine);
    Some(Request::Replay(Replay {
        write_rules: found.get_str("write-rules"),
        unused_rules: found.get_flag("unused-rules"),
        max_races: found.get_one::<u64>("max-races"),
        trace: found.get_str("trace")?,
        part: found.get_str("part").and_then(part_in),
        reports: Vec::new(alloc),
        counts: None,
        analysis: analysis_of(found)?,
        form,
        source: found.get_str("source"),
        explain: has_reasons(form) || found.get_flag("explain"),
        strict: found.get_flag("strict"),
        until_fault: found.get_flag("until-fault"),
        progress: found.get_flag("progress"),
        hints: found.get_flag("hints"),
        shards: found.get_one::<u32>("shards")?.clamp(1, MOST_SHARDS),
        workers: found.get_one::<u32>("workers")?.clamp(1, MOST_WORKERS),
        byte_limit,
        binary_limit: if gives_limit { byte_limit } else { MOST_BYTES },
        suppressions,
    }))
}

// Without an option the reports are merged as text. Else a replay of the pages with races makes the form that is asked for.
fn merge_of<'a>(alloc: Global, found: &ArgMatches<'a>) -> Result<Option<Request<'a>>, AllocError> {
    let reports = found.get_strs("reports").unwrap_or(&[]).to_vec(alloc)?;
    let mut replay = usual_replay(alloc, false);
    replay
        .suppressions
        .extend_from_slice(found.get_strs("suppress").unwrap_or(&[]))?;
    replay.source = found.get_str("source");
    replay.form = form_of(found).unwrap_or(Form::Text);
    replay.explain = has_reasons(replay.form) || found.get_flag("explain");
    let is_plain = replay.form == Form::Text && !replay.explain && replay.source.is_none();
    let trace = found.get_str("trace");
    if is_plain && replay.suppressions.is_empty() && trace.is_none() {
        return Ok(Some(Request::Merge(reports)));
    }
    let byte_limit = found.get_one::<u64>("byte-limit");
    replay.byte_limit = byte_limit.unwrap_or(MOST_BYTES).min(MOST_BYTES);
    replay.binary_limit = replay.byte_limit;
    replay.trace = trace.unwrap_or("-");
    replay.reports = reports;
    Ok(Some(Request::Replay(replay)))
}

// Whether the form always has reasons.
fn has_reasons(form: Form) -> bool {
    matches!(form, Form::BySite | Form::Sarif | Form::Html)
}

// The value of `--part`, if it is no part.
fn no_part_of<'a>(all: &ArgMatches<'a>) -> Option<&'a str> {
    let (_, found) = all.subcommand()?;
    let value = found.get_str("part")?;
    part_in(value).is_none().then_some(value)
}

// Which part a text names, as `2/8` does.
fn part_in(text: &str) -> Option<Part> {
    let (index, count) = text.split_once('/')?;
    let (index, count) = (index.parse::<u64>().ok()?, count.parse::<u64>().ok()?);
    if text.contains('+') {
        return None;
    }
    Part::new(index, count)
}

fn analysis_of(found: &ArgMatches<'_>) -> Option<Analysis> {
    match found.get_str("analysis")? {
        "lockset" => Some(Analysis::Lockset),
        "happens-before" => Some(Analysis::HappensBefore),
        "both" => Some(Analysis::Both),
        _ => None,
    }
}

fn form_of(found: &ArgMatches<'_>) -> Option<Form> {
    match (found.get_flag("by-site"), found.get_str("format")?) {
        (true, _) => Some(Form::BySite),
        (false, "text") => Some(Form::Text),
        (false, "json") => Some(Form::Json),
        (false, "sarif") => Some(Form::Sarif),
        (false, "html") => Some(Form::Html),
        _ => None,
    }
}

fn explain_of<'a>(found: &ArgMatches<'a>) -> Option<Request<'a>> {
    Some(Request::Explain(Explain {
        line: found.get_one::<u64>("line")?,
        trace: found.get_str("trace")?,
        byte_limit: found.get_one::<u64>("byte-limit")?.min(MOST_BYTES),
    }))
}

fn demo_of<'a>(found: &ArgMatches<'a>) -> Option<Request<'a>> {
    let name = found.get_str("name")?;
    let place = DEMOS.iter().position(|known| *known == name)?;
    Some(Request::Demo(Demo { place }))
}
