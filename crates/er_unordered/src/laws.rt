//! The law of a text's report by happens-before: the function does nothing, and its contract is proved of the definitions in `specs/`.
ghost use Rattle.std.specs.Prelude.{◌≡◌, [], ℕ, Bool, List, None, cond};
ghost use Rattle.er_order.specs.ByBytes.{Touched, whole};
ghost use Rattle.er_order.specs.Races.{order_answer};
ghost use Rattle.er_order.specs.Reasons.{unordered_with};
ghost use Rattle.er_report.specs.Report.{report_by};
ghost use Rattle.er_rules.specs.Rules.{Target};
ghost use Rattle.er_trace.specs.Trace.{Recording};
ghost use Rattle.er_unordered.specs.Reasons.{reasons_with};
ghost use Rattle.er_unordered.specs.Reports.{touched_by, unordered_report};

/// Where nothing is said of bytes, as of a text, each access touches its whole word. Then the report is that of the answers by words, with the reasons by
/// words.
pub fn a_text_has_whole_words()
    ensures whole { (lines : List ℕ) (k : ℕ) → touched_by [] lines k ≡ whole }
    ensures report { (r : Recording) (touched : Touched) (rules : List Target) (explain : Bool) → ((k : ℕ) → touched k ≡ whole)
        → unordered_report r touched rules explain ≡ report_by (order_answer r.steps) (λ k. cond explain (reasons_with r (unordered_with r.steps k)) []) r rules None }
{}
