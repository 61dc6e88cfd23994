//! Reports without the races that rules take by what a trace says of the program.
ghost use Rattle.std.specs.Prelude.{◌≡◌, ℕ, cond, filter, is_none, nat_eq, position, IfOk, OnOk, option_map, slice_get};
ghost use Rattle.std.specs.List.{list_any};
ghost use Rattle.er_places.specs.Names.{call_function};
ghost use Rattle.er_places.specs.Places.{call_name};
ghost use Rattle.er_rules.specs.Rules.{target_of, targets_of};
ghost use Rattle.er_triage.specs.Facts.{line_rule, taken_by, takes_by, takes_deed, takes_fact, takes_name, with_more, AreLeft, IsLeftOf};
ghost use Rattle.er_triage.specs.Known.{HaveNames, NameTable};

use er_places::Places;
use er_report::{Deed, Line, Race, Report, Reports};
use er_rules::{FactKind, Rule, Suppressions, pattern_takes};
use std::alloc::{AllocError, Global};

/// The reports without the races that one of these rules takes by what is known of the program. The first rule that takes a race counts it. Rules of sites
/// and words take none here: they took theirs when the reports were made.
pub fn take_by_facts(
    alloc: Global,
    reports: Reports,
    suppressions: &Suppressions,
    places: &Places,
) -> Result<Reports, AllocError>
    ensures left { IfOk result (AreLeft places.now (targets_of suppressions.now) reports) }
    ensures named { (names : NameTable) → HaveNames names reports → IfOk result (HaveNames names) }
{
    let Reports { lockset, unordered } = reports;
    Ok(Reports {
        lockset: left_of(alloc, lockset, suppressions, places)?,
        unordered: left_of(alloc, unordered, suppressions, places)?,
    })
}

fn left_of(
    alloc: Global,
    report: Option<Report>,
    suppressions: &Suppressions,
    places: &Places,
) -> Result<Option<Report>, AllocError>
    ensures { IfOk result (IsLeftOf places.now (targets_of suppressions.now) report) }
{
    let Some(report) = report else {
        return Ok(None);
    };
    let Report {
        lines,
        mut rule_counts,
        races,
        suppressed,
        stop,
        steps,
        refused,
        lost,
    } = report;
    let all = lines.len();
    let lines = left_lines(alloc, lines, suppressions, places, &mut rule_counts)?;
    let taken = all.saturating_sub(lines.len()) as u64;
    Ok(Some(Report {
        lines,
        rule_counts,
        races: races.saturating_sub(taken),
        suppressed: suppressed.saturating_add(taken),
        stop,
        steps,
        refused,
        lost,
    }))
}

// The lines that no rule takes. The others are counted at their rules.
fn left_lines(
    alloc: Global,
    lines: Vec<Line>,
    suppressions: &Suppressions,
    places: &Places,
    counts: &mut Vec<u64>,
) -> Result<Vec<Line>, AllocError>
    ensures lines { IfOk result (λ left. left.items ≡ filter (λ line. is_none (line_rule places.now (targets_of suppressions.now) line)) lines.items) }
    ensures counts { OnOk result ((place : ℕ) → slice_get counts.new.items place ≡ option_map (with_more (taken_by places.now (targets_of suppressions.now) lines.items place)) (slice_get counts.old.items place)) }
{
    let mut left = Vec::new(alloc);
    for line in lines {
        match line_rule(places, suppressions, &line) {
            Some(rule) => {
                count_one(counts, rule);
                drop(line);
            }
            None => left.push(line)?,
        }
    }
    Ok(left)
}

// Counts one more race for the rule in a place.
fn count_one(counts: &mut Vec<u64>, place: usize)
    ensures { (i : ℕ) → slice_get counts.new.items i ≡ option_map (with_more (cond (nat_eq i place) 1 0)) (slice_get counts.old.items i) }
{
    if place < counts.len() {
        counts[place] = counts[place].saturating_add(1);
    }
}

// The first rule that takes the race of a line.
fn line_rule(places: &Places, suppressions: &Suppressions, line: &Line) -> Option<usize>
    ensures { result ≡ line_rule places.now (targets_of suppressions.now) line.now }
{
    let race = line.race()?;
    fact_rule(places, &race, &suppressions.rules)
}

fn fact_rule(places: &Places, race: &Race<'_>, rules: &[Rule]) -> Option<usize>
    ensures { result ≡ position (λ rule. takes_fact places.now race.now (target_of rule)) rules.now }
{
    let mut rules = rules.iter();
    rules.position(|rule| takes_fact(places, race, rule))
}

fn takes_fact(places: &Places, race: &Race<'_>, rule: &Rule) -> bool
    ensures { result ≡ takes_fact places.now race.now (target_of rule.now) }
{
    match rule {
        Rule::Fact(kind, pattern) => takes_by(places, race, *kind, pattern.as_bytes()),
        Rule::Site(_) | Rule::Sites(_) | Rule::Words(_) => false,
    }
}

fn takes_by(places: &Places, race: &Race<'_>, kind: FactKind, pattern: &[u8]) -> bool
    ensures { result ≡ takes_by places.now race.now kind pattern.now }
{
    match kind {
        FactKind::Frame => has_frame(places, places.way_on(race.line), pattern),
        FactKind::Function => has_function(places, places.way_on(race.line), pattern),
        FactKind::Variable => takes_deed(places, race.deed, pattern),
    }
}

fn has_frame(places: &Places, way: &[u32], pattern: &[u8]) -> bool
    ensures { result ≡ list_any (λ call. takes_name pattern.now (call_name places.now call)) way.now }
{
    way.iter()
        .any(|call| takes_name(pattern, places.call_name(*call)))
}

fn has_function(places: &Places, way: &[u32], pattern: &[u8]) -> bool
    ensures { result ≡ list_any (λ call. takes_name pattern.now (call_function places.now call)) way.now }
{
    way.iter()
        .any(|call| takes_name(pattern, places.call_function(*call)))
}

fn takes_deed(places: &Places, deed: Deed, pattern: &[u8]) -> bool
    ensures { result ≡ takes_deed places.now pattern.now deed }
{
    match deed {
        Deed::Access(_, word) => match places.variable_of(word) {
            Some(variable) => takes_name(pattern, &variable.name),
            None => false,
        },
        Deed::Reuse(_) => false,
    }
}

// Whether there is a name, and the pattern takes it.
fn takes_name(pattern: &[u8], name: &[u8]) -> bool
    ensures { result ≡ takes_name pattern.now name.now }
{
    !name.is_empty() && pattern_takes(pattern, name)
}
