//! Answers the steps of a batch by happens-before, one by one.
ghost use Rattle.std.specs.Prelude.{◌≡◌, ◌+◌, ◌++◌, ◌<◌, ◌≤◌, ◌^◌, [], ℕ, List, cond, length, IfErr, OnOk};
ghost use Rattle.er_event.specs.declared.steps.Step.{Step as Steps};
ghost use Rattle.er_order.specs.ByBytes.{Touched, answer_by_bytes};
ghost use Rattle.er_report.specs.Builder.{IsBuiltBy, IsStepBy};
ghost use Rattle.er_report.specs.Names.{HasSiteName};
ghost use Rattle.er_report.specs.Report.{is_printed_by};
ghost use Rattle.er_text.specs.Batches.{joined};
ghost use Rattle.er_text.specs.Named.{KeepsNames};
ghost use Rattle.er_trace.specs.Names.{NameTable};
ghost use Rattle.er_trace.specs.Trace.{Recording};
ghost use Rattle.er_unordered.specs.Reports.{TouchAs};
ghost use Rattle.er_unordered.specs.Answered.{HasAnswered, recorded};
ghost use Rattle.er_unordered.specs.Stops.{IsStopIn};

use crate::machine::{OrderAnswer, OrderMachine};
use crate::reasons::{Tag, Told};
use crate::touching::{bytes_at, place_of};
use er_batch::{has_room, is_plain};
use er_clock::NoTick;
use er_event::{Lockset, Site, Step};
use er_lines::Touch;
use er_report::{ReportBuilder, view_of};
use er_trace::{Names, Trace};
use std::alloc::AllocError;

/// Answers each step of a batch by happens-before, and adds it to the report, with its reason if it is a race that has a line and reasons are
/// wanted. The touches say which bytes accesses touch. So many steps that they can't be counted any more are reported as a want of memory.
pub(crate) fn answer_steps<T: Tag>(
    machine: &mut OrderMachine<T>,
    trace: &Trace,
    touches: &[Touch],
    builder: &mut ReportBuilder<'_>,
    told: &mut Told,
) -> Result<(), NoTick>
    ensures rules { OnOk result (builder.new.rules ≡ builder.old.rules) }
    ensures run { (touched : Touched) (past : List Steps) (lines sites : List ℕ) (names : NameTable) → KeepsNames names trace.now.names → HasAnswered touched T.tag_of T.told_of machine.old builder.old told.old (recorded past lines sites names)
        → TouchAs touched touches.now trace.now.lines (length past) → OnOk result (HasAnswered touched T.tag_of T.told_of machine.new builder.new told.new (joined past lines sites trace.now)) }
    ensures full { (touched : Touched) (past : List Steps) (lines sites : List ℕ) (names : NameTable) → KeepsNames names trace.now.names → HasAnswered touched T.tag_of T.told_of machine.old builder.old told.old (recorded past lines sites names)
        → TouchAs touched touches.now trace.now.lines (length past) → IfErr result (λ why. IsStopIn (past ++ trace.now.steps) why) }
{
    let steps = trace.steps();
    prove!(steps.len() == trace.lines().len());
    prove!(steps.len() == trace.sites().len());
    if !has_room(builder, steps) {
        return Err(NoTick::OutOfMemory);
    }
    let names = trace.names();
    let (mut place, mut last) = (0, 0);
    for (k, step) in steps.iter().enumerate() {
        machine.look_ahead(steps, k);
        let line = trace.lines()[k];
        place = place_of(touches, place, last, line);
        last = line;
        let bytes = bytes_at(touches, place, line);
        let answer = machine.step(step, bytes, T::of(line, step))?;
        if is_plain(&answer.reply) {
            builder.add_plain(1);
        } else {
            let held = machine.held(step.thread).held();
            let site = trace.sites()[k];
            add_told(builder, told, names, line, site, step, &answer, held)?;
        }
    }
    Ok(())
}

// Adds a step to the report, with its reason if it is a race that has a line and reasons are wanted.
fn add_told<T: Tag>(
    builder: &mut ReportBuilder<'_>,
    told: &mut Told,
    names: &Names,
    line: u64,
    site: Site,
    step: &Step,
    answer: &OrderAnswer<T>,
    held: &Lockset,
) -> Result<(), AllocError>
    requires room { builder.old.report.steps + 1 < 2 ^ 64 }
    requires site { HasSiteName names.now step.now.event }
    requires at { site ≤ length names.now.sites }
    ensures rules { OnOk result (builder.new.rules ≡ builder.old.rules) }
    ensures steps { OnOk result (builder.new.report.steps ≡ builder.old.report.steps + 1) }
    ensures built { (touched : Touched) (r : Recording) (k : ℕ) → IsBuiltBy (answer_by_bytes touched r.steps) builder.old r k → IsStepBy (answer_by_bytes touched r.steps) r k names.now line site step.now answer.now.reply held.now
        → OnOk result (IsBuiltBy (answer_by_bytes touched r.steps) builder.new r (k + 1)) }
    ensures told { (touched : Touched) (r : Recording) (k : ℕ) → IsBuiltBy (answer_by_bytes touched r.steps) builder.old r k → IsStepBy (answer_by_bytes touched r.steps) r k names.now line site step.now answer.now.reply held.now
        → OnOk result (told.new ≡ told.old ++ cond (is_printed_by (answer_by_bytes touched r.steps) r builder.old.rules k) (T.told_of answer.now.rival) []) }
{
    let before = builder.races();
    builder.add(names, line, site, step, view_of(&answer.reply), held)?;
    if builder.races() > before {
        T::tell(answer.rival, told)?;
    }
    Ok(())
}
