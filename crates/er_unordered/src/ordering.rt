//! Happens-before as an analyst.
ghost use Rattle.std.specs.Prelude.{◌≡◌, ◌++◌, ◌||◌, [], ℕ, List, All, IfOk, IfErr, IfSome, OnOk, length};
ghost use Rattle.er_batch.specs.Analysts.{Asked};
ghost use Rattle.er_event.specs.declared.steps.Step.{Step as Steps};
ghost use Rattle.er_order.specs.ByBytes.{Touched, answer_by_bytes};
ghost use Rattle.er_report.specs.Builder.{Built, IsBuiltBy};
ghost use Rattle.er_report.specs.Names.{HasNames};
ghost use Rattle.er_report.specs.Report.{told as summary};
ghost use Rattle.er_rules.specs.Rules.{targets_of};
ghost use Rattle.er_text.specs.Batches.{joined};
ghost use Rattle.er_text.specs.Named.{KeepsNames};
ghost use Rattle.er_trace.specs.Names.{NameTable};
ghost use Rattle.er_trace.specs.Trace.{Recording, no_steps};
ghost use Rattle.er_unordered.specs.Answered.{HasGathered, tells, recorded};
ghost use Rattle.er_unordered.specs.Ordered.{HasOrdered};
ghost use Rattle.er_unordered.specs.Reports.{TouchAs, has_order, is_order, touched_by, unordered_report};
ghost use Rattle.er_unordered.specs.Stops.{IsStopIn};

use crate::answering::answer_steps;
use crate::machine::OrderMachine;
use crate::reasons::Told;
use er_batch::{Analyst, Answered};
use er_clock::NoTick;
use er_event::{Event, Step};
use er_lines::Touch;
use er_reading::Chunk;
use er_report::{Because, Report, ReportBuilder};
use er_rules::Suppressions;
use er_trace::{NameKeys, Trace};
use std::alloc::{AllocError, Global};
use std::marker::Model;
use std::sync::Wait;
use std::thread::Threads;

/// Answers steps by happens-before, up to one that can't be answered.
#[derive(Drop)]
pub struct OrderAnalyst<'r> {
    machine: Machines,
    report: ReportBuilder<'r>,
    told: Told,
    stop: Option<NoTick>,
    has_order: bool,
}

impl<'r> Model for OrderAnalyst<'r> {
    ghost use Rattle.er_unordered.specs.Ordered.{OrderRan};

    ghost Value = { OrderRan };

    ghost view = { λ a. record { machine = a.machine; built = a.report; told = a.told; stop = a.stop; has_order = a.has_order } };
}

impl<'r> OrderAnalyst<'r> {
    /// Before any step. These rules take unordered accesses, and the keys hash the words.
    pub fn new(
        alloc: Global,
        suppressions: &'r Suppressions,
        explain: bool,
        keys: NameKeys,
    ) -> Result<OrderAnalyst<'r>, AllocError>
        ensures stands { (asked : Asked) → asked.rules ≡ targets_of suppressions.now → asked.explain ≡ explain → IfOk result (λ analyst. HasOrdered analyst asked no_steps) }
    {
        let report = ReportBuilder::new(alloc, suppressions)?;
        Ok(OrderAnalyst {
            machine: Machines::new(alloc, explain, keys),
            report,
            told: Told::new(alloc),
            stop: None,
            has_order: false,
        })
    }

    /// Whether some step so far starts or joins a thread, signals or awaits. It says so of the steps behind a stop too.
    pub fn has_order(&self) -> bool
        ensures { (asked : Asked) (r : Recording) → HasOrdered self.now asked r → result ≡ has_order r.steps }
    {
        self.has_order
    }

    /// The report of the steps so far by the bytes that they touch, or why they weren't all answered.
    pub fn finish(self) -> Result<Report, NoTick>
        ensures report { (asked : Asked) (r : Recording) → HasOrdered self.entry asked r → IfOk result (λ report. IfSome asked.touches (λ all. summary report ≡ unordered_report r (touched_by all r.lines) asked.rules asked.explain)) }
        ensures named { (asked : Asked) (r : Recording) → HasOrdered self.entry asked r → IfOk result (λ report. All (HasNames r.names) report.lines.items) }
        ensures fault { (asked : Asked) (r : Recording) → HasOrdered self.entry asked r → IfErr result (λ why. IsStopIn r.steps why) }
    {
        let OrderAnalyst {
            machine,
            report,
            told,
            stop,
            has_order: _,
        } = self;
        match stop {
            None => Ok(machine.finish(report, told)),
            Some(why) => {
                drop(machine);
                drop(report);
                drop(told);
                Err(why)
            }
        }
    }
}

impl<'r> Analyst for OrderAnalyst<'r> {
    ghost use Rattle.er_report.specs.Reports.{asks_order};
    ghost use Rattle.er_unordered.specs.Ordered.{HasOrdered};

    ghost stands = { λ ran asked r _. HasOrdered ran asked r };

    ghost wanted = { λ asked. asks_order asked.analysis };

    ghost answered = { λ ran. ran.built.report.steps };

    ghost found = { λ ran. ran.built.report.races };

    fn prepare<R: Threads + Wait + Sync, B, F: FnMut() -> B>(
        &mut self,
        _rt: &R,
        _chunks: &[Chunk],
        beside: &mut F,
    ) -> B {
        beside()
    }

    fn answer<R: Threads + Wait + Sync>(
        &mut self,
        _rt: &R,
        trace: &Trace,
        touches: &[Touch],
    ) -> Answered {
        let steps = trace.steps();
        prove!(steps.len() == trace.lines().len());
        self.has_order = with_order(self.has_order, steps);
        if self.stop.is_some() {
            return Ok(());
        }
        let (report, told) = (&mut self.report, &mut self.told);
        match self.machine.answer(trace, touches, report, told) {
            Ok(()) => Ok(()),
            Err(NoTick::OutOfMemory) => Err(AllocError),
            Err(why) => {
                self.stop = Some(why);
                Ok(())
            }
        }
    }

    fn counts(&self) -> (u64, u64) {
        (self.report.steps(), self.report.races())
    }
}

/// The machine of an analyst. Of each access it keeps what reasons want, or nothing.
#[derive(Drop)]
pub enum Machines {
    /// Without reasons.
    Plain(OrderMachine<()>),
    /// With reasons.
    Telling(OrderMachine<Because>),
}

impl Machines {
    // One that has taken no step. It finds each word by these keys.
    fn new(alloc: Global, explain: bool, keys: NameKeys) -> Machines
        ensures tells { tells result ≡ explain }
        ensures start { (touched : Touched) (builder : Built) → IsBuiltBy (answer_by_bytes touched []) builder no_steps 0 → HasGathered touched result builder [] no_steps }
    {
        if explain {
            Machines::Telling(OrderMachine::keyed(alloc, keys))
        } else {
            Machines::Plain(OrderMachine::keyed(alloc, keys))
        }
    }

    // Answers each step of a batch by happens-before, and adds it to the report.
    fn answer(
        &mut self,
        trace: &Trace,
        touches: &[Touch],
        builder: &mut ReportBuilder<'_>,
        told: &mut Told,
    ) -> Result<(), NoTick>
        ensures rules { OnOk result (builder.new.rules ≡ builder.old.rules) }
        ensures tells { tells self.new ≡ tells self.old }
        ensures run { (touched : Touched) (past : List Steps) (lines sites : List ℕ) (names : NameTable) → KeepsNames names trace.now.names → HasGathered touched self.old builder.old told.old (recorded past lines sites names)
            → TouchAs touched touches.now trace.now.lines (length past) → OnOk result (HasGathered touched self.new builder.new told.new (joined past lines sites trace.now)) }
        ensures full { (touched : Touched) (past : List Steps) (lines sites : List ℕ) (names : NameTable) → KeepsNames names trace.now.names → HasGathered touched self.old builder.old told.old (recorded past lines sites names)
            → TouchAs touched touches.now trace.now.lines (length past) → IfErr result (λ why. IsStopIn (past ++ trace.now.steps) why) }
    {
        match self {
            Machines::Plain(machine) => answer_steps(machine, trace, touches, builder, told),
            Machines::Telling(machine) => answer_steps(machine, trace, touches, builder, told),
        }
    }

    // The report of the steps that were answered and added to this one.
    fn finish(self, builder: ReportBuilder<'_>, told: Told) -> Report
        ensures report { (touched : Touched) (r : Recording) → HasGathered touched self builder.entry told r → summary result ≡ unordered_report r touched builder.entry.rules (tells self) }
        ensures named { (touched : Touched) (r : Recording) → HasGathered touched self builder.entry told r → All (HasNames r.names) result.lines.items }
    {
        match self {
            Machines::Plain(machine) => {
                drop(machine);
                drop(told);
                builder.finish(None)
            }
            Machines::Telling(machine) => {
                drop(machine);
                builder.finish_with(told.into_reasons())
            }
        }
    }
}

// Whether there was an order event before, or one of these steps is one.
fn with_order(before: bool, steps: &[Step]) -> bool
    ensures { result ≡ (before || has_order steps.now) }
{
    before || has_order(steps)
}

// Whether one of the steps is an order event.
fn has_order(steps: &[Step]) -> bool
    ensures { result ≡ has_order steps.now }
{
    steps.iter().any(|step| is_order(step))
}

// Whether the step starts or joins a thread, signals or awaits.
fn is_order(step: &Step) -> bool
    ensures { result ≡ is_order step.now }
{
    matches!(step.event, Event::Sync(_))
}
