//! The laws of reports: each function does nothing, and its contract is proved of the definitions.
ghost use Rattle.std.specs.Prelude.{◌≡◌, ◌<◌, ◌≤◌, ◌+◌, ◌∷◌, ℕ, Bool, List, Option, length, map, sum};
ghost use Rattle.er_trace.specs.Trace.{Recording};
ghost use Rattle.er_explain.specs.Explaining.{explanation_at};
ghost use Rattle.er_explain.specs.Racing.{is_race};
ghost use Rattle.er_model.specs.Answers.{answer};
ghost use Rattle.er_model.specs.Explanations.{Explanation};
ghost use Rattle.er_journal.specs.declared.answers.Stopped.{Stopped};
ghost use Rattle.er_report.specs.Builder.{Built, GoesOn, IsBuilt, IsBuiltBy, IsReported};
ghost use Rattle.er_report.specs.Reasons.{reasons_at};
ghost use Rattle.er_report.specs.Report.{Answering, report_by, report_of, count_below};
ghost use Rattle.er_rules.specs.Rules.{Target};

use crate::{Because, Label};

/// The counts of the rules add up to the races that rules took, and these and the races that are printed are all races. So it is for each
/// analysis, and for the lockset rule.
pub fn the_counts_add_up()
    ensures suppressed_by { (a : Answering) (reasons : ℕ → List Because) (r : Recording) (rules : List Target) (stop : Option Stopped) → sum (report_by a reasons r rules stop).rule_counts ≡ (report_by a reasons r rules stop).suppressed }
    ensures races_by { (a : Answering) (reasons : ℕ → List Because) (r : Recording) (rules : List Target) (stop : Option Stopped) → (report_by a reasons r rules stop).races + (report_by a reasons r rules stop).suppressed ≡ count_below (λ k. is_race (a k)) (report_by a reasons r rules stop).steps }
    ensures suppressed { (r : Recording) (rules : List Target) (explain : Bool) (stop : Option Stopped) → sum (report_of r rules explain stop).rule_counts ≡ (report_of r rules explain stop).suppressed }
    ensures races { (r : Recording) (rules : List Target) (explain : Bool) (stop : Option Stopped) → (report_of r rules explain stop).races + (report_of r rules explain stop).suppressed ≡ count_below (λ k. is_race (answer r.steps k)) (report_of r rules explain stop).steps }
{}

/// Each access that an explanation names is told: the first, the joining, the write, and one for each lock, in this order.
pub fn each_reason_is_told()
    ensures { (r : Recording) (k : ℕ) (e : Explanation) → explanation_at r.steps k ≡ Option.Some e → map (λ because. because.label) (reasons_at r k) ≡ Label.First ∷ Label.Joined ∷ Label.Write ∷ map (λ pair. Label.Uncovered pair.0) e.uncovered }
{}

/// What was built of a recording's first steps is also built of every recording that goes on from it: later steps and new names
/// change nothing of a report so far. For another analysis than the lockset rule, its answers to the first steps must be the same.
pub fn a_report_goes_on()
    ensures built_by { (a b : Answering) (builder : Built) (before after : Recording) (n : ℕ) → GoesOn before after → n ≤ length before.steps → ((k : ℕ) → k < n → a k ≡ b k) → IsBuiltBy a builder before n → IsBuiltBy b builder after n }
    ensures built { (builder : Built) (before after : Recording) (n : ℕ) → GoesOn before after → n ≤ length before.steps → IsBuilt builder before n → IsBuilt builder after n }
    ensures reported { (builder : Built) (before after : Recording) (n : ℕ) → GoesOn before after → n ≤ length before.steps → IsReported builder before n → IsReported builder after n }
{}
