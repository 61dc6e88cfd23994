//! The whole log: a run for each report.
ghost use Rattle.std.specs.Prelude.{◌≡◌, ◌++◌, All, IfOk, IfSome, OnOk};
ghost use Rattle.er_rules.specs.Rules.{targets_of};
ghost use Rattle.er_json.specs.Sarif.{HasNames, HaveNames, end_text, rules_text, run_if, run_text, sarif_reports, start_text};

use crate::document::put_sign;
use crate::results::put_results;
use crate::suppressed::put_suppressed;
use er_places::Legend;
use er_print::{Built, Put, ReportKind, put_lost};
use er_report::{Report, Reports};
use er_rules::Suppressions;
use er_sites::count_races;
use std::alloc::Global;

/// The reports as a SARIF log, with these names for their numbers, and with how many races each of these rules took: a run for each report,
/// that of the lockset rule first. Each reason of a race says where its access was, as far as the places are known.
#[tactic(auto, unfolding(crate::specs::Sarif::sarif_reports))]
pub fn sarif_text(alloc: Global, reports: &Reports, legend: &Legend, rules: &Suppressions) -> Built
    requires { HaveNames legend.now.names.now reports.now }
    ensures { IfOk result (λ text. text.items ≡ sarif_reports legend.now.names.now legend.now.places.now (targets_of rules.now) reports.now) }
{
    let (lockset, unordered) = (&reports.lockset, &reports.unordered);
    let mut text = Vec::new(alloc);
    text.extend_from_slice(
        b"{\"$schema\":\"https://json.schemastore.org/sarif-2.1.0.json\",\n\"version\":\"2.1.0\",\n\"runs\":[",
    )?;
    put_run(&mut text, ReportKind::Lockset, legend, rules, lockset)?;
    put_sign(&mut text, reports, b",")?;
    put_run(&mut text, ReportKind::Unordered, legend, rules, unordered)?;
    text.extend_from_slice(b"]}\n")?;
    Ok(text)
}

#[tactic(auto, unfolding(crate::specs::Sarif::run_text))]
fn put_run(
    out: &mut Vec<u8>,
    of: ReportKind,
    legend: &Legend,
    rules: &Suppressions,
    report: &Option<Report>,
) -> Put
    requires { IfSome report.now (λ report. All (HasNames legend.now.names.now) report.lines.items) }
    ensures { OnOk result (out.new.items ≡ out.old.items ++ run_if of legend.now.names.now legend.now.places.now (targets_of rules.now) report.now) }
{
    match report {
        Some(report) => {
            let lines = report.lines.as_slice();
            let total = count_races(*out.allocator(), lines)?;
            put_start(out, of)?;
            let is_first = put_results(out, of, legend, lines, &total)?;
            put_suppressed(out, of, &report.rule_counts, rules, is_first)?;
            put_end(out, report.lost)
        }
        None => Ok(()),
    }
}

#[tactic(auto, unfolding(crate::specs::Sarif::start_text))]
fn put_start(out: &mut Vec<u8>, of: ReportKind) -> Put
    ensures { OnOk result (out.new.items ≡ out.old.items ++ start_text of) }
{
    out.extend_from_slice(b"{\n\"tool\":{\"driver\":{\"name\":\"eraser\",\"rules\":[")?;
    out.extend_from_slice(rules_text(of))?;
    out.extend_from_slice(b",\n\"results\":[")?;
    Ok(())
}

#[tactic(auto, unfolding(crate::specs::Sarif::end_text))]
fn put_end(out: &mut Vec<u8>, lost: Option<u64>) -> Put
    ensures { OnOk result (out.new.items ≡ out.old.items ++ end_text lost) }
{
    out.extend_from_slice(b"]")?;
    put_lost(
        out,
        b",\n\"invocations\":[{\"executionSuccessful\":true,\"toolExecutionNotifications\":[{\"level\":\"warning\",\"message\":{\"text\":\"",
        lost,
        b" events were lost: the report is of a part of the run\"}}]}]",
    )?;
    out.extend_from_slice(b"}")?;
    Ok(())
}

// The rules by which results go.
fn rules_text(of: ReportKind) -> &'static [u8]
    ensures { result.now ≡ rules_text of }
{
    match of {
        ReportKind::Lockset =>
            b"{\"id\":\"race/read\",\"shortDescription\":{\"text\":\"A read that no lock protects\"}},{\"id\":\"race/write\",\"shortDescription\":{\"text\":\"A write that no lock protects\"}},{\"id\":\"race/suppressed\",\"shortDescription\":{\"text\":\"Races that a rule of suppressions takes\"}}]}}".as_slice(),
        ReportKind::Unordered =>
            b"{\"id\":\"unordered/read\",\"shortDescription\":{\"text\":\"A read that nothing orders after an earlier write\"}},{\"id\":\"unordered/write\",\"shortDescription\":{\"text\":\"A write that nothing orders after an earlier access\"}},{\"id\":\"unordered/reuse\",\"shortDescription\":{\"text\":\"A reuse of memory that nothing orders after an earlier access\"}},{\"id\":\"unordered/suppressed\",\"shortDescription\":{\"text\":\"Races that a rule of suppressions takes\"}}]}},\n\"automationDetails\":{\"id\":\"happens-before/\"}".as_slice(),
    }
}
