//! The texts of rules, each built whole in memory, and what holds of them.
ghost use Rattle.std.specs.Prelude.{ℕ, ◌≡◌, ◌≤◌, ◌++◌, All, cond, [], length, List, map, Some, IfOk, OnOk};
ghost use Rattle.er_rules.specs.Rules.{AtWords, target_of, targets_of};
ghost use Rattle.er_rules.specs.Texts.{IsRules};
ghost use Rattle.er_text.specs.Trace.{IsTrace};
ghost use Rattle.er_trace.specs.Trace.{Recording};
ghost use Rattle.er_triage.specs.Known.{known_target, IsNamed, NameTable};
ghost use Rattle.er_triage.specs.Sound.{AreSound, IsSound, KnownRaceOf};
ghost use Rattle.er_triage.specs.Texts.{comment_text, hidden_text, is_unused, known_text, known_races_text, left_out_text, taken_text, target_text, took_none, unused_from, unused_text};

use crate::known::{KnownRace, rule_for};
use er_event::Word;
use er_print::Piece::{Address, Number, Text, Thread, Verb};
use er_print::{Built, Put, Style, bytes_of, put, put_address, put_number};
use er_report::{Deed, Report, Reports};
use er_rules::{FactKind, Rule, Suppressions, WordSpan};
use er_sites::is_system_name;
use er_trace::Names;
use std::alloc::Global;

/// A suppression text with the rules of these races. Above each rule is a comment that says what it takes.
pub fn known_races_text(alloc: Global, known: &[KnownRace], names: &Names) -> Built
    requires { All (IsNamed names.now) known.now }
    ensures { IfOk result (λ text. text.items ≡ known_races_text names.now known.now) }
{
    let mut text = Vec::new(alloc);
    text.extend_from_slice(b"# Known races, written by eraser replay --write-rules\n")?;
    for race in known {
        put_known(&mut text, names, race)?;
    }
    Ok(text)
}

/// A line for each rule that took no race of any of these reports.
pub fn unused_rules_text(alloc: Global, suppressions: &Suppressions, reports: &Reports) -> Built
    ensures { IfOk result (λ text. text.items ≡ unused_from 0 reports.now (targets_of suppressions.now)) }
{
    let mut text = Vec::new(alloc);
    for (place, rule) in suppressions.rules.iter().enumerate() {
        put_if_unused(&mut text, is_unused(reports, place), place as u64 + 1, rule)?;
    }
    Ok(text)
}

/// How many races were left out, or nothing if none was.
pub fn left_out_text(alloc: Global, races: u64) -> Built
    ensures { IfOk result (λ text. text.items ≡ left_out_text races) }
{
    let mut text = Vec::new(alloc);
    if races > 0 {
        text.extend_from_slice(b"races left out: ")?;
        put_number(&mut text, races)?;
        text.extend_from_slice(b"\n")?;
    }
    Ok(text)
}

/// The names of a trace are sound.
pub fn names_of_a_trace_are_sound()
    ensures { (text : List ℕ) (limit : ℕ) (t : Recording) → IsTrace text limit t → AreSound t.names }
{}

/// A text of the rules of known races has these rules and no fault, if it is within the limit and the names and races are sound, as those of
/// a trace are.
pub fn written_rules_are_read_back()
    ensures { (names : NameTable) (known : List KnownRaceOf) (limit : ℕ) → AreSound names → All (IsSound names) known → length (known_races_text names known) ≤ limit
        → IsRules (known_races_text names known) limit (map (known_target names) known) }
{}

fn put_known(out: &mut Vec<u8>, names: &Names, race: &KnownRace) -> Put
    requires { IsNamed names.now race.now }
    ensures { OnOk result (out.new.items ≡ out.old.items ++ known_text names.now race.now) }
{
    put_taken(out, names, race)?;
    let rule = rule_for(*out.allocator(), names, race)?;
    put_hidden(out, &rule)?;
    put_rule(out, &rule)?;
    out.extend_from_slice(b"\n")
}

// Puts what a rule hides, if it is for a site in a header of the system.
fn put_hidden(out: &mut Vec<u8>, rule: &Rule) -> Put
    ensures { OnOk result (out.new.items ≡ out.old.items ++ hidden_text (target_of rule.now)) }
{
    match rule {
        Rule::Site(Some(name)) if is_system_name(name) => put_comment(out, name),
        _ => Ok(()),
    }
}

#[tactic(auto, unfolding(crate::specs::Texts::comment_text))]
fn put_comment(out: &mut Vec<u8>, name: &str) -> Put
    ensures { OnOk result (out.new.items ≡ out.old.items ++ comment_text name.now) }
{
    out.extend_from_slice(b"# ")?;
    out.extend_from_slice(name.as_bytes())?;
    out.extend_from_slice(
        b" is a line of a system header: this rule hides the races of every part of the program that uses it\n",
    )
}

// Puts how many races a rule takes, and the first of them: who did what to which word, or gave back which words.
fn put_taken(out: &mut Vec<u8>, names: &Names, race: &KnownRace) -> Put
    requires { IsNamed names.now race.now }
    ensures { OnOk result (out.new.items ≡ out.old.items ++ taken_text names.now race.now) }
{
    match race.deed {
        Deed::Access(kind, word) => put!(out, Style::Plain, names;
            Number(b"# races ", race.races), Number(b", first: line ", race.line),
            Thread(b", ", race.thread), Verb(b" ", kind), Address(b" ", word), Text(b"\n")
        ),
        Deed::Reuse(range) => put!(out, Style::Plain, names;
            Number(b"# races ", race.races), Number(b", first: line ", race.line),
            Thread(b", ", race.thread), Address(b" reuse ", range.lo),
            Number(b" ", bytes_of(&range)), Text(b"\n")
        ),
    }
}

fn put_run(out: &mut Vec<u8>, first: Word, last: Word) -> Put
    ensures { OnOk result (out.new.items ≡ out.old.items ++ target_text (AtWords (Some (record { first = first; last = last })))) }
{
    let words = (last.number() + 1).saturating_sub(first.number());
    out.extend_from_slice(b"words ")?;
    put_address(out, first)?;
    out.extend_from_slice(b" ")?;
    put_number(out, words * Word::BYTES)
}

// Whether the report, if there is one, says that the rule in this place took no race.
fn took_none(report: &Option<Report>, place: usize) -> bool
    ensures { result ≡ took_none report.now place }
{
    match report {
        Some(report) => report.rule_counts.get(place) == Some(&0),
        None => true,
    }
}

fn is_unused(reports: &Reports, place: usize) -> bool
    ensures { result ≡ is_unused reports.now place }
{
    took_none(&reports.lockset, place) && took_none(&reports.unordered, place)
}

fn put_if_unused(out: &mut Vec<u8>, unused: bool, number: u64, rule: &Rule) -> Put
    ensures { OnOk result (out.new.items ≡ out.old.items ++ cond unused (unused_text number (target_of rule.now)) []) }
{
    if !unused {
        return Ok(());
    }
    out.extend_from_slice(b"unused suppression ")?;
    put_number(out, number)?;
    out.extend_from_slice(b": ")?;
    put_rule(out, rule)?;
    out.extend_from_slice(b"\n")
}

/// Puts a rule as a suppression text has it, without a line feed.
pub fn put_rule(out: &mut Vec<u8>, rule: &Rule) -> Put
    ensures { OnOk result (out.new.items ≡ out.old.items ++ target_text (target_of rule.now)) }
{
    match rule {
        Rule::Site(Some(name)) | Rule::Sites(name) => put_named(out, b"site ", name),
        Rule::Site(None) => out.extend_from_slice(b"site -"),
        Rule::Words(Some(WordSpan { first, last })) => put_run(out, *first, *last),
        Rule::Words(None) => out.extend_from_slice(b"words 0 0"),
        Rule::Fact(FactKind::Frame, pattern) => put_named(out, b"frame ", pattern),
        Rule::Fact(FactKind::Function, pattern) => put_named(out, b"function ", pattern),
        Rule::Fact(FactKind::Variable, pattern) => put_named(out, b"variable ", pattern),
    }
}

fn put_named(out: &mut Vec<u8>, front: &[u8], name: &str) -> Put
    ensures { OnOk result (out.new.items ≡ out.old.items ++ (front.now ++ name.now)) }
{
    out.extend_from_slice(front)?;
    out.extend_from_slice(name.as_bytes())
}
