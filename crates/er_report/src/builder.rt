//! `ReportBuilder`, a report that grows by one step after another.
ghost use Rattle.std.specs.Prelude.{◌≡◌, ◌<◌, ◌≤◌, ◌+◌, ◌^◌, ◌&&◌, ℕ, [], All, List, Option, None, Some, false, true, is_none, is_some, length, map, option_copied, slice_get, slice_index, OnOk, OnErr, IfOk, IfSome, IsOk, IsTrue};
ghost use Rattle.std.specs.Option.{option_to_list};
ghost use Rattle.er_trace.specs.Trace.{Recording, IsNamed, HasSiteName as IsSite};
ghost use Rattle.er_explain.specs.Following.{BeginsAt, CoversAt};
ghost use Rattle.er_explain.specs.Racing.{is_race};
ghost use Rattle.er_journal.specs.AnswerList.{shown};
ghost use Rattle.er_journal.specs.declared.answers.Stopped.{Stopped as Stop};
ghost use Rattle.er_model.specs.Answers.{answer};
ghost use Rattle.er_report.specs.Builder.{ArePlain, ArePlainBy, IsBuilt, IsBuiltBy, IsExplained, IsReported, IsStepBy, KeepStates, is_plain};
ghost use Rattle.er_report.specs.Inner.Adding.{with_answer, HasRoom};
ghost use Rattle.er_report.specs.Kept.{Follows};
ghost use Rattle.er_report.specs.Lines.{line_view, locks_in, reasons_in};
ghost use Rattle.er_report.specs.Names.{HasNames, HasReasonNames, HasSiteName, HaveStateNames};
ghost use Rattle.er_report.specs.declared.report.Because.{Because as Reason};
ghost use Rattle.er_report.specs.Report.{Answering, RacesHaveLines, told, answer_line, answered_steps, no_reasons, report_by, report_of, stop_line};
ghost use Rattle.er_rules.specs.Rules.{Target, targets_of};

use crate::explainer::Explainer;
use crate::reasons::give_reasons;
use crate::rules::first_rule;
use crate::{Details, Line, Made, Report};
use er_event::{Event, Lockset, NoRoom, Refusal, Reply, Site, Step};
use er_journal::Answer;
use er_keys::HashKeys;
use er_rules::Suppressions;
use er_trace::{Names, Trace};
use std::alloc::{AllocError, Global};
use std::marker::Model;

/// The report of the steps so far, under some rules. It keeps no step: a line has what a report says of its step.
/// Of lost events its report says nothing.
///
/// If reasons are wanted, each step that was added by itself is to be explained right after it, and the builder keeps the books of all
/// words.
/// Contracts see the report without reasons, the positions of the races that have lines, the rules, and what is kept for reasons. Clauses
/// that end in `_by` hold for the answers of any analysis, and the others for those of the lockset rule: `IsBuilt` is `IsBuiltBy` with
/// these. A call of `add` that finds no memory leaves the builder as it was.
#[derive(Drop)]
pub struct ReportBuilder<'r> {
    rules: &'r Suppressions,
    report: Report,
    races: Vec<u64>,
    explainer: Option<Explainer>,
}

impl<'r> Model for ReportBuilder<'r> {
    ghost use Rattle.std.specs.Prelude.{length};
    ghost use Rattle.er_report.specs.Builder.{Built};
    ghost use Rattle.er_report.specs.Inner.Adding.{IsCounted};
    ghost use Rattle.er_report.specs.Report.{told};
    ghost use Rattle.er_rules.specs.Rules.{targets_of};

    ghost Value = { Built };

    ghost view = { λ b. record { report = told b.report; races = b.races.items; rules = targets_of b.rules.now; kept = b.explainer } };

    ghost invariant = { λ b. IsCounted (told b.report) (length (targets_of b.rules.now)) };
}

impl<'r> ReportBuilder<'r> {
    /// The report before any step.
    pub fn new(alloc: Global, rules: &'r Suppressions) -> Result<ReportBuilder<'r>, AllocError>
        ensures rules { IfOk result (λ builder. builder.rules ≡ targets_of rules.now) }
        ensures built_by { IfOk result (λ builder. (a : Answering) (r : Recording) → IsBuiltBy a builder r 0) }
        ensures kept { IfOk result (λ builder. builder.kept ≡ None) }
    {
        ReportBuilder::explaining_keyed(alloc, rules, false, HashKeys::KNOWN)
    }

    /// The same, for races that get reasons if `explain` is set. Reasons find each word by these keys: whoever can guess them and chooses the
    /// words that are accessed can make that slow.
    pub fn explaining_keyed(
        alloc: Global,
        rules: &'r Suppressions,
        explain: bool,
        keys: HashKeys,
    ) -> Result<ReportBuilder<'r>, AllocError>
        ensures rules { IfOk result (λ builder. builder.rules ≡ targets_of rules.now) }
        ensures explains { IfOk result (λ builder. is_some builder.kept ≡ explain) }
        ensures built_by { IfOk result (λ builder. (a : Answering) (r : Recording) → IsBuiltBy a builder r 0) }
        ensures built { IfOk result (λ builder. (r : Recording) → IsReported builder r 0) }
    {
        let rule_counts = vec![in alloc; 0; rules.len()]?;
        let explainer = explain.then(
            || -> Explainer
                ensures { (r : Recording) (rules : List Target) → Follows result r rules 0 }
            { Explainer::new(alloc, keys) },
        );
        Ok(ReportBuilder {
            rules,
            report: Report {
                lines: Vec::new(alloc),
                stop: None,
                rule_counts,
                steps: 0,
                races: 0,
                suppressed: 0,
                refused: 0,
                lost: None,
            },
            races: Vec::new(alloc),
            explainer,
        })
    }

    /// How many steps were added.
    pub fn steps(&self) -> u64
        ensures { result ≡ self.now.report.steps }
    {
        self.report.steps
    }

    /// How many of them are races that have a line.
    pub fn races(&self) -> u64
        ensures { result ≡ self.now.report.races }
    {
        self.report.races
    }

    /// Whether reasons are wanted.
    pub fn explains(&self) -> bool
        ensures { result ≡ is_some self.now.kept }
    {
        self.explainer.is_some()
    }

    /// Adds the next step: the line of the text that it came from, the site that the line names, a view of its answer, and the locks that its thread holds, in
    /// any mode, which are looked at for a race alone. `AllocError`: memory was refused, and the builder is as it was.
    pub fn add(
        &mut self,
        names: &Names,
        line: u64,
        site: Site,
        step: &Step,
        answer: Answer<'_>,
        held: &Lockset,
    ) -> Result<(), AllocError>
        requires room { self.old.report.steps + 1 < 2 ^ 64 }
        requires site { HasSiteName names.now step.now.event }
        requires at { site ≤ length names.now.sites }
        ensures rules { OnOk result (self.new.rules ≡ self.old.rules) }
        ensures steps { OnOk result (self.new.report.steps ≡ self.old.report.steps + 1) }
        ensures built_by { (a : Answering) (r : Recording) (k : ℕ) → IsBuiltBy a self.old r k → IsStepBy a r k names.now line site step.now (shown answer.entry) held.now → OnOk result (IsBuiltBy a self.new r (k + 1)) }
        ensures kept { OnOk result (self.new.kept ≡ self.old.kept) }
        ensures err { OnErr result (self.new ≡ self.old) }
    {
        if let Answer::Refused(refusal) = answer {
            return add_refused(&mut self.report, line, step, refusal);
        }
        let rule = first_rule(self.rules, names, site, step.event, answer);
        let place = self.report.steps;
        if is_printed(answer, rule) {
            self.races.reserve(1)?;
            add_step(&mut self.report, line, site, step, answer, rule, held)?;
            self.races.push_reserved(place);
            return Ok(());
        }
        add_step(&mut self.report, line, site, step, answer, rule, held)?;
        Ok(())
    }

    /// Adds that many steps at once. The answer to each must be `Done`, `Quiet` or `Ignored`. If reasons are wanted, each must also leave
    /// the state of every word as it was. None of them is to be explained.
    pub fn add_plain(&mut self, count: u64)
        requires room { self.old.report.steps + count < 2 ^ 64 }
        ensures rules { self.new.rules ≡ self.old.rules }
        ensures steps { self.new.report.steps ≡ self.old.report.steps + count }
        ensures built_by { (a : Answering) (r : Recording) (k : ℕ) → IsBuiltBy a self.old r k → ArePlainBy a k count → IsBuiltBy a self.new r (k + count) }
        ensures reported { (r : Recording) (k : ℕ) → IsReported self.old r k → ArePlain r.steps k count → (IsTrue (is_some self.old.kept) → KeepStates r.steps k count) → IsReported self.new r (k + count) }
        ensures kept { self.new.kept ≡ self.old.kept }
    {
        self.report.steps += count;
    }

    /// Finds the reasons of the step that was added last, if reasons are wanted and it is a race that has a line. Each step is to be
    /// explained so. If its access counts, `cover` must be the locks that cover it. `AllocError`: memory was refused, and the builder is of no more use.
    pub fn explain(&mut self, line: u64, step: &Step, cover: Option<&Lockset>) -> Made<()>
        ensures rules { OnOk result (self.new.rules ≡ self.old.rules) }
        ensures steps { OnOk result (self.new.report.steps ≡ self.old.report.steps) }
        ensures explains { OnOk result (is_some self.new.kept ≡ is_some self.old.kept) }
        ensures explained { (r : Recording) (k : ℕ) → IsBuilt self.old r (k + 1) → IsExplained self.old r k → slice_get r.steps k ≡ Some step.now → line ≡ slice_index r.lines k → (IsTrue (is_some self.old.kept) → CoversAt r.steps k step.now (option_copied cover.entry)) → OnOk result (IsReported self.new r (k + 1)) }
    {
        let races = self.races.as_slice().len();
        if let Some(explainer) = &mut self.explainer {
            let printed = explainer.told() < races;
            explainer.follow(line, step, cover, printed)?;
        }
        Ok(())
    }

    /// Does what `explain` does, and faster, if the step that was added last is the first access of its word since its last reuse, and has no line.
    #[inline(always)]
    pub fn explain_first(&mut self, line: u64, step: &Step) -> Made<()>
        ensures rules { OnOk result (self.new.rules ≡ self.old.rules) }
        ensures steps { OnOk result (self.new.report.steps ≡ self.old.report.steps) }
        ensures explains { OnOk result (is_some self.new.kept ≡ is_some self.old.kept) }
        ensures explained { (r : Recording) (k : ℕ) → IsBuilt self.old r (k + 1) → IsExplained self.old r k → slice_get r.steps k ≡ Some step.now → line ≡ slice_index r.lines k → is_plain (answer r.steps k) ≡ true → (IsTrue (is_some self.old.kept) → BeginsAt r.steps k) → OnOk result (IsReported self.new r (k + 1)) }
    {
        if let Some(explainer) = &mut self.explainer {
            explainer.begin(line, step)?;
        }
        Ok(())
    }

    /// The report, without reasons, of a run that stopped so or not at all.
    pub fn finish(self, stop: Option<(u64, NoRoom)>) -> Report
        ensures report_by { (a : Answering) (r : Recording) (stopped : Option Stop) → IsBuiltBy a self.entry r (length (answered_steps r.steps stopped)) → stop ≡ stop_line r stopped → told result ≡ report_by a no_reasons r self.entry.rules stopped }
        ensures named_by { (a : Answering) (r : Recording) (n : ℕ) → IsBuiltBy a self.entry r n → All (IsNamed r.names) r.steps → All (IsSite r.names) r.sites → HaveStateNames r.names a → All (HasNames r.names) result.lines.items }
        ensures named { (r : Recording) (n : ℕ) → IsBuilt self.entry r n → All (IsNamed r.names) r.steps → All (IsSite r.names) r.sites → All (HasNames r.names) result.lines.items }
    {
        let ReportBuilder { mut report, .. } = self;
        report.stop = stop;
        report
    }

    /// The report of a run that stopped so or not at all, with reasons if they are wanted.
    pub fn finish_explained(self, stop: Option<(u64, NoRoom)>) -> Report
        ensures report { (r : Recording) (stopped : Option Stop) → IsReported self.entry r (length (answered_steps r.steps stopped)) → stop ≡ stop_line r stopped → told result ≡ report_of r self.entry.rules (is_some self.entry.kept) stopped }
        ensures named { (r : Recording) (n : ℕ) → IsReported self.entry r n → All (IsNamed r.names) r.steps → All (IsSite r.names) r.sites → All (HasNames r.names) result.lines.items }
        ensures stop { result.stop ≡ stop }
    {
        let ReportBuilder {
            mut report,
            explainer,
            ..
        } = self;
        report.stop = stop;
        if let Some(explainer) = explainer {
            give_reasons(explainer.into_told(), &mut report.lines);
        }
        report
    }

    /// The report with these reasons, one list for each race that has a line, in their order. Each comes in a box that its line can keep, so
    /// that no memory is needed here; locks in it are passed over. An access and a reuse are the only steps that are races.
    pub fn finish_with(self, reasons: Vec<Box<Details>>) -> Report
        ensures report_by { (a : Answering) (why : ℕ → List Reason) (r : Recording) → RacesHaveLines a r.steps → IsBuiltBy a self.entry r (length (answered_steps r.steps None)) → map (λ told. told.value.explained.items) reasons.items ≡ map why self.entry.races → told result ≡ report_by a why r self.entry.rules None }
        ensures named_by { (a : Answering) (why : ℕ → List Reason) (r : Recording) (n : ℕ) → RacesHaveLines a r.steps → IsBuiltBy a self.entry r n → map (λ told. told.value.explained.items) reasons.items ≡ map why self.entry.races
            → All (IsNamed r.names) r.steps → All (IsSite r.names) r.sites → HaveStateNames r.names a → ((k : ℕ) → All (HasReasonNames r.names) (why k)) → All (HasNames r.names) result.lines.items }
    {
        let ReportBuilder { mut report, .. } = self;
        report.stop = None;
        give_reasons(reasons, &mut report.lines);
        report
    }
}

/// A view of an answer.
pub fn view_of(answer: &Result<Reply, Refusal>) -> Answer<'_>
    ensures { shown result ≡ answer.now }
{
    match answer {
        Ok(Reply::Done) => Answer::Done,
        Ok(Reply::Quiet) => Answer::Quiet,
        Ok(Reply::Race) => Answer::Race,
        Ok(Reply::Ignored) => Answer::Ignored,
        Ok(Reply::State(state)) => Answer::State(state),
        Err(refusal) => Answer::Refused(*refusal),
    }
}

// Whether the answer is a race that no rule takes.
fn is_printed(answer: Answer<'_>, rule: Option<usize>) -> bool
    ensures { result ≡ (is_race (shown answer.entry) && is_none rule) }
{
    matches!((answer, rule), (Answer::Race, None))
}

// Adds a refused step of this line, and takes no room for the other lines.
fn add_refused(report: &mut Report, line: u64, step: &Step, refusal: Refusal) -> Made<()>
    requires room { HasRoom (told report.old) }
    ensures ok { OnOk result (told report.new ≡ with_answer (told report.old) line 0 [] step.now (Err refusal) None) }
    ensures err { OnErr result (told report.new ≡ told report.old) }
{
    let step = *step;
    report.lines.push(Line::Refused {
        refusal,
        step,
        line,
    })?;
    report.refused += 1;
    report.steps += 1;
    Ok(())
}

// Adds a step of this line and answer that wasn't refused, whose race the rule takes, if there is one.
fn add_step(
    report: &mut Report,
    number: u64,
    site: Site,
    step: &Step,
    answer: Answer<'_>,
    rule: Option<usize>,
    held: &Lockset,
) -> Made<()>
    requires room { HasRoom (told report.old) }
    requires taken { IsOk (shown answer) }
    requires rule { IfSome rule (λ rule. rule < length report.old.rule_counts.items) }
    ensures ok { OnOk result (told report.new ≡ with_answer (told report.old) number site held.now step.now (shown answer.entry) rule) }
    ensures err { OnErr result (told report.new ≡ told report.old) }
{
    match rule {
        Some(rule) => {
            report.rule_counts[rule] += 1;
            report.suppressed += 1;
        }
        None => {
            let alloc = *report.lines.allocator();
            if let Some(line) = line_of(alloc, number, site, step, answer, held)? {
                report.lines.push(line)?;
            }
            if let Answer::Race = answer {
                report.races += 1;
            }
        }
    }
    report.steps += 1;
    Ok(())
}

// The line of a step that wasn't refused, if its answer gives it one. A set of locks is copied for a race alone.
fn line_of(
    alloc: Global,
    number: u64,
    site: Site,
    step: &Step,
    answer: Answer<'_>,
    held: &Lockset,
) -> Made<Option<Line>>
    requires { IsOk (shown answer) }
    ensures { IfOk result (λ line. map line_view (option_to_list line) ≡ answer_line number site held.now [] step.now (shown answer.entry)) }
{
    Ok(match (answer, step.event) {
        (Answer::Race, Event::Access(kind, word, own)) => Some(Line::Race {
            kind,
            thread: step.thread,
            site: own,
            line: number,
            word,
            details: kept_locks(alloc, held)?,
        }),
        (Answer::Race, Event::Reuse(range)) => Some(Line::Reused {
            thread: step.thread,
            site,
            line: number,
            range: Box::new(alloc, range)?,
            details: kept_locks(alloc, held)?,
        }),
        (Answer::State(state), Event::Show(word)) => Some(Line::Shown {
            line: number,
            word,
            state: Box::new(alloc, state.copy()?)?,
        }),
        _ => None,
    })
}

// A copy of the locks, if there are any. Of reasons none are given yet.
fn kept_locks(alloc: Global, held: &Lockset) -> Made<Option<Box<Details>>>
    ensures locks { IfOk result (λ kept. locks_in kept ≡ held.now) }
    ensures reasons { IfOk result (λ kept. reasons_in kept ≡ []) }
{
    if held.is_empty() {
        return Ok(None);
    }
    let held = Some(Box::new(alloc, held.copy()?)?);
    let explained = Vec::new(alloc);
    Ok(Some(Box::new(alloc, Details { held, explained })?))
}
