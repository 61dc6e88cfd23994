//! A result for each rule of suppressions that takes races.
ghost use Rattle.std.specs.Prelude.{◌≡◌, ◌++◌, ◌&&◌, ℕ, List, length, IfOk, OnOk};
ghost use Rattle.er_json.specs.Inner.Sections.{has_none, next_text, rows_text};
ghost use Rattle.er_rules.specs.Rules.{target_of, targets_of};
ghost use Rattle.er_json.specs.Sarif.{suppressed_below, suppressed_of, suppressed_text, suppression_text, taken_text, target_location};

use crate::document::put_separator;
use crate::locations::put_location;
use crate::results::rule_front;
use er_print::{Put, ReportKind, put_escaped, put_number};
use er_rules::{Rule, Suppressions};
use er_triage::put_rule;
use std::alloc::AllocError;

/// Puts the results of the rules behind other results, each on a line of its own. `is_first` says that there is no other result.
pub(crate) fn put_suppressed(
    out: &mut Vec<u8>,
    of: ReportKind,
    rule_counts: &[u64],
    rules: &Suppressions,
    is_first: bool,
) -> Put
    ensures { (old : List ℕ) (rows : List (List ℕ)) → is_first ≡ has_none rows → out.old.items ≡ old ++ rows_text rows
        → OnOk result (out.new.items ≡ old ++ rows_text (rows ++ suppressed_below of rule_counts.now (targets_of rules.now) (length (targets_of rules.now)))) }
{
    let mut still_first = is_first;
    for (place, rule) in rules.rules.iter().enumerate() {
        let count = rule_counts.get(place).copied();
        still_first = put_next(out, of, place as u64 + 1, count, rule, still_first)?;
    }
    Ok(())
}

// Puts the result of a rule if it takes a race, and returns whether the next one is the first.
fn put_next(
    out: &mut Vec<u8>,
    of: ReportKind,
    number: u64,
    count: Option<u64>,
    rule: &Rule,
    is_first: bool,
) -> Result<bool, AllocError>
    ensures text { OnOk result (out.new.items ≡ out.old.items ++ next_text is_first (suppressed_of of number count (target_of rule.now))) }
    ensures first { IfOk result (λ still. still ≡ (is_first && has_none (suppressed_of of number count (target_of rule.now)))) }
{
    match count {
        Some(count) if count > 0 => {
            put_separator(out, is_first)?;
            put_result(out, of, number, count, rule)?;
            Ok(false)
        }
        _ => Ok(is_first),
    }
}

#[tactic(auto, unfolding(crate::specs::Sarif::suppressed_text))]
fn put_result(out: &mut Vec<u8>, of: ReportKind, number: u64, count: u64, rule: &Rule) -> Put
    ensures { OnOk result (out.new.items ≡ out.old.items ++ suppressed_text of number count (target_of rule.now)) }
{
    let mut text = Vec::new(*out.allocator());
    put_rule(&mut text, rule)?;
    put_taken(out, of, &text, count)?;
    put_place(out, rule)?;
    put_suppression(out, &text, number)
}

// Opens a result with the rule of this text and how many races it takes.
#[tactic(auto, unfolding(crate::specs::Sarif::taken_text))]
fn put_taken(out: &mut Vec<u8>, of: ReportKind, rule: &[u8], count: u64) -> Put
    ensures { OnOk result (out.new.items ≡ out.old.items ++ taken_text of rule.now count) }
{
    out.extend_from_slice(rule_front(of))?;
    out.extend_from_slice(
        b"suppressed\",\"level\":\"error\",\"message\":{\"text\":\"Races that a rule takes: ",
    )?;
    put_escaped(out, rule)?;
    out.extend_from_slice(b"\"},\"occurrenceCount\":")?;
    put_number(out, count)?;
    Ok(())
}

// Puts where the races are, if the rule is for a site that has a name.
fn put_place(out: &mut Vec<u8>, rule: &Rule) -> Put
    ensures { OnOk result (out.new.items ≡ out.old.items ++ target_location (target_of rule.now)) }
{
    match rule {
        Rule::Site(Some(name)) => put_location(out, name.as_bytes()),
        Rule::Site(None) | Rule::Sites(_) | Rule::Words(_) | Rule::Fact(..) => Ok(()),
    }
}

// Puts that the races count as suppressed, by the rule of this text and number, and closes the result.
#[tactic(auto, unfolding(crate::specs::Sarif::suppression_text))]
fn put_suppression(out: &mut Vec<u8>, rule: &[u8], number: u64) -> Put
    ensures { OnOk result (out.new.items ≡ out.old.items ++ suppression_text rule.now number) }
{
    out.extend_from_slice(b",\"partialFingerprints\":{\"rule/v1\":\"")?;
    put_escaped(out, rule)?;
    out.extend_from_slice(
        b"\"},\"suppressions\":[{\"kind\":\"external\",\"justification\":\"rule ",
    )?;
    put_number(out, number)?;
    out.extend_from_slice(b"\"}]}")
}
