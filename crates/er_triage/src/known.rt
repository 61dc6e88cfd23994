//! A rule for each race that no rule before it takes, and the rules of several files, one behind another.
ghost use Rattle.std.specs.Prelude.{◌≡◌, ◌++◌, ◌<◌, ◌≤◌, ◌^◌, All, length, map, slice_get, Some, IfOk, IfSome, OnOk};
ghost use Rattle.er_rules.specs.Rules.{target_of, targets_of};
ghost use Rattle.er_triage.specs.Known.{HasNames, HaveNames, NameTable, known_target, lines_in, lines_of, race_of, rule_of, rules_of, AreCounts, IsTaken};
ghost use Rattle.er_triage.specs.Inner.Counting.{with_one_more, with_race, with_races};
ghost use Rattle.er_triage.specs.Sound.{IsSound};

use er_event::{Site, ThreadId};
use er_print::Put;
use er_report::{Deed, Line, Report, Reports, name_of};
use er_rules::{Rule, Suppressions, WordSpan};
use er_trace::Names;
use std::alloc::{AllocError, Global};

/// The races that one rule takes, by the first of them.
#[derive(Clone, Copy, Debug, PartialEq, Eq)]
pub struct KnownRace {
    /// The line of the trace, from 1, at which the first was found.
    pub line: u64,
    /// Whose step it is.
    pub thread: ThreadId,
    /// What it is of.
    pub deed: Deed,
    /// Where in the program it stands. Its rule is by this site, or by its words if it is the missing one.
    pub site: Site,
    /// How many races the rule takes, the first among them, up to the greatest number.
    pub races: u64,
}

/// The rules that take the races of these reports, in the order of the first race that each takes: first those of the lockset rule.
pub fn known_races(
    alloc: Global,
    reports: &Reports,
    names: &Names,
) -> Result<Vec<KnownRace>, AllocError>
    requires { HaveNames names.now reports.now }
    ensures rules { IfOk result (λ known. map (known_target names.now) known.items ≡ rules_of names.now (lines_of reports.now)) }
    ensures taken { IfOk result (λ known. All (IsTaken names.now (map (known_target names.now) known.items)) (lines_of reports.now)) }
    ensures counted { IfOk result (λ known. AreCounts names.now (lines_of reports.now) known.items) }
    ensures sound { IfOk result (λ known. All (IsSound names.now) known.items) }
{
    let mut rules = Suppressions::new(alloc);
    let mut known = Vec::new(alloc);
    add_lines(&mut rules, &mut known, names, lines_in(&reports.lockset))?;
    add_lines(&mut rules, &mut known, names, lines_in(&reports.unordered))?;
    Ok(known)
}

/// Adds copies of the other rules behind these. `AllocError`: memory was refused, and some of them may have been added.
pub fn append_rules(rules: &mut Suppressions, others: &Suppressions) -> Put
    ensures { OnOk result (targets_of rules.new ≡ targets_of rules.old ++ targets_of others.now) }
{
    for rule in &others.rules {
        rules.push(copy_of(rule)?)?;
    }
    Ok(())
}

pub(crate) fn lines_in(report: &Option<Report>) -> &[Line]
    ensures lines { result.now ≡ lines_in report.now }
    ensures few { length (lines_in report.now) < 2 ^ 63 }
{
    match report {
        Some(report) => &report.lines,
        None => &[],
    }
}

fn add_lines(
    rules: &mut Suppressions,
    known: &mut Vec<KnownRace>,
    names: &Names,
    lines: &[Line],
) -> Put
    requires names { All (HasNames names.now) lines.now }
    requires rules { map (known_target names.now) known.old.items ≡ targets_of rules.old }
    requires sound { All (IsSound names.now) known.old.items }
    ensures rules { OnOk result (map (known_target names.now) known.new.items ≡ targets_of rules.new) }
    ensures counted { OnOk result (known.new.items ≡ with_races names.now known.old.items lines.now) }
    ensures sound { OnOk result (All (IsSound names.now) known.new.items) }
{
    for line in lines {
        if let Some(race) = race_of(names, line) {
            add_race(rules, known, names, race)?;
        }
    }
    Ok(())
}

fn race_of(names: &Names, line: &Line) -> Option<KnownRace>
    requires { HasNames names.now line.now }
    ensures race { result ≡ race_of line.now }
    ensures sound { IfSome result (IsSound names.now) }
{
    let race = line.race()?;
    Some(KnownRace {
        line: race.line,
        thread: race.thread,
        deed: race.deed,
        site: race.site,
        races: 1,
    })
}

// Counts a race at the first rule that takes it, and adds a rule for it if none does.
fn add_race(
    rules: &mut Suppressions,
    known: &mut Vec<KnownRace>,
    names: &Names,
    race: KnownRace,
) -> Put
    requires race { IsSound names.now race }
    requires rules { map (known_target names.now) known.old.items ≡ targets_of rules.old }
    requires sound { All (IsSound names.now) known.old.items }
    ensures rules { OnOk result (map (known_target names.now) known.new.items ≡ targets_of rules.new) }
    ensures counted { OnOk result (known.new.items ≡ with_race names.now known.old.items (Some race)) }
    ensures sound { OnOk result (All (IsSound names.now) known.new.items) }
{
    match rule_of(rules, names, &race) {
        Some(place) => {
            count_race(known, place);
            Ok(())
        }
        None => {
            let alloc = *known.allocator();
            rules.push(rule_for(alloc, names, &race)?)?;
            // Built anew for the prover.
            Ok(known.push(KnownRace { ..race })?)
        }
    }
}

fn rule_of(rules: &Suppressions, names: &Names, race: &KnownRace) -> Option<usize>
    requires { race.now.site ≤ length names.now.sites }
    ensures rule { result ≡ rule_of names.now (targets_of rules.now) race.now.deed race.now.site }
    ensures within { IfSome result (λ rule. rule < length (targets_of rules.now)) }
{
    let site = name_of(names, race.site);
    match race.deed {
        Deed::Access(_, word) => rules.matching_rule(site, word),
        Deed::Reuse(range) => rules.matching_reuse(site, range),
    }
}

fn count_race(known: &mut Vec<KnownRace>, place: usize)
    requires { place < length known.old.items }
    ensures counted { known.new.items ≡ with_one_more known.old.items place (slice_get known.old.items place) }
    ensures rules { (names : NameTable) → map (known_target names) known.new.items ≡ map (known_target names) known.old.items }
    ensures sound { (names : NameTable) → All (IsSound names) known.old.items → All (IsSound names) known.new.items }
{
    let mut race = known[place];
    race.races = race.races.saturating_add(1);
    known[place] = race;
}

pub(crate) fn rule_for(alloc: Global, names: &Names, race: &KnownRace) -> Result<Rule, AllocError>
    requires { race.now.site ≤ length names.now.sites }
    ensures { IfOk result (λ rule. target_of rule ≡ known_target names.now race.now) }
{
    let (first, last) = match race.deed {
        Deed::Access(_, word) => (word, word),
        Deed::Reuse(range) => (range.lo, range.hi),
    };
    match name_of(names, race.site) {
        Some(name) => Ok(Rule::Site(Some(String::from_str(alloc, name)?))),
        None => Ok(Rule::Words(Some(WordSpan { first, last }))),
    }
}

fn copy_of(rule: &Rule) -> Result<Rule, AllocError>
    ensures { IfOk result (λ copy. target_of copy ≡ target_of rule.now) }
{
    match rule {
        Rule::Site(Some(name)) => Ok(Rule::Site(Some(name.clone()?))),
        Rule::Site(None) => Ok(Rule::Site(None)),
        Rule::Sites(pattern) => Ok(Rule::Sites(pattern.clone()?)),
        Rule::Words(words) => Ok(Rule::Words(*words)),
        Rule::Fact(kind, pattern) => Ok(Rule::Fact(*kind, pattern.clone()?)),
    }
}
