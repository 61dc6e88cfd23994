//! The laws of parts: each function does nothing, and its contract is proved of the definitions.
ghost use Rattle.std.specs.List.{range_with_len};
ghost use Rattle.std.specs.Prelude.{◌≡◌, ◌≤◌, ℕ, Bool, true, List, filter, map};
ghost use Rattle.er_event.specs.Span.{page_of};
ghost use Rattle.er_event.specs.declared.steps.Step.{Step};
ghost use Rattle.er_model.specs.Answers.{answers, state_end};
ghost use Rattle.er_model.specs.Holdings.{holdings_end};
ghost use Rattle.er_report.specs.Report.{report_of};
ghost use Rattle.er_rules.specs.Rules.{Target};
ghost use Rattle.er_text.specs.Trace.{IsTrace};
ghost use Rattle.er_trace.specs.Trace.{Recording};
ghost use Rattle.er_parts.specs.Given.{HasPages, counted_as, part_report};
ghost use Rattle.er_parts.specs.Merged.{HasEachPart, merged};
ghost use Rattle.er_parts.specs.Ordered.{IsOrdered};
ghost use Rattle.er_parts.specs.Parts.{PartView, has_page, kept_beside, part_at, takes};

/// What a part keeps is answered as it is among all steps, and leaves each thread and each word of the part as all steps do.
pub fn a_part_answers_as_the_whole()
    ensures answers { (part : PartView) (steps : List Step) → answers (filter (takes part) steps) ≡ kept_beside part steps (answers steps) }
    ensures holdings { (part : PartView) (steps : List Step) (t : ℕ) → holdings_end (filter (takes part) steps) t ≡ holdings_end steps t }
    ensures states { (part : PartView) (steps : List Step) (w : ℕ) → has_page part (page_of w) ≡ true
        → state_end (filter (takes part) steps) w ≡ state_end steps w }
{}

/// The reports of all parts of a recording, merged in whatever order they are in, are the report of the recording: without reasons and with them.
pub fn parts_make_the_whole()
    ensures any_order { (r : Recording) (rules : List Target) (explain : Bool) (n : ℕ) (parts : List ℕ) → IsOrdered r → 1 ≤ n → HasEachPart n parts
        → merged (map (λ i. part_report (Some (part_at n i)) r rules explain) parts) ≡ report_of r rules explain None }
    ensures in_turn { (r : Recording) (rules : List Target) (explain : Bool) (n : ℕ) → IsOrdered r → 1 ≤ n
        → merged (map (λ i. part_report (Some (part_at n i)) r rules explain) (range_with_len 1 n)) ≡ report_of r rules explain None }
{}

/// A first part that has the page of each line of the whole report gives these lines, races and refusals, and no others. So its report, with what the
/// whole counts of steps and of races that rules took, is the report of the whole, without reasons and with them. It doesn't matter whether the lines that
/// named the pages had reasons.
pub fn pages_of_the_lines_make_the_whole()
    ensures { (part : PartView) (r : Recording) (rules : List Target) (explain told : Bool) → part.index ≡ 1 → HasPages part (report_of r rules told None).lines
        → counted_as (report_of r rules told None) (part_report (Some part) r rules explain) ≡ report_of r rules explain None }
{}

/// The recording of a text is in the order of the text.
pub fn a_trace_is_ordered()
    ensures { (text : List ℕ) (limit : ℕ) (r : Recording) → IsTrace text limit r → IsOrdered r }
{}
