//! The lockset rule as an analyst.
ghost use Rattle.std.specs.Prelude.{◌≡◌, All, IfOk};
ghost use Rattle.er_batch.specs.Analysts.{Asked, HasRunFor};
ghost use Rattle.er_report.specs.Names.{HasNames};
ghost use Rattle.er_report.specs.Report.{report_of, told};
ghost use Rattle.er_rules.specs.Rules.{targets_of};
ghost use Rattle.er_trace.specs.Trace.{Recording, no_steps};

use crate::{Analyst, Answered, Options, answer_batch};
use er_event::NoRoom;
use er_lines::Touch;
use er_reading::Chunk;
use er_replay::OwnMachine;
use er_report::{Report, ReportBuilder};
use er_rules::Suppressions;
use er_trace::Trace;
use std::alloc::{AllocError, Global};
use std::marker::Model;
use std::sync::Wait;
use std::thread::Threads;

/// Answers steps by the lockset rule, up to one that finds no room.
#[derive(Drop)]
pub struct LocksetAnalyst<'r> {
    machine: OwnMachine,
    builder: ReportBuilder<'r>,
    stop: Option<(u64, NoRoom)>,
}

impl<'r> Model for LocksetAnalyst<'r> {
    ghost use Rattle.er_batch.specs.Analysts.{Ran};

    ghost Value = { Ran };

    ghost view = { λ a. record { machine = a.machine; builder = a.builder; stop = a.stop } };
}

impl<'r> LocksetAnalyst<'r> {
    /// Before any step. These rules take races, and so many sets of locks may be met, whose limit, reasons and keys these options have.
    pub fn new(
        alloc: Global,
        suppressions: &'r Suppressions,
        options: &Options,
    ) -> Result<LocksetAnalyst<'r>, AllocError>
        ensures stands { (asked : Asked) → asked.rules ≡ targets_of suppressions.now → asked.explain ≡ options.now.explain → IfOk result (λ analyst. HasRunFor analyst asked no_steps) }
    {
        let (explain, keys) = (options.explain, options.keys);
        let machine = OwnMachine::keyed(alloc, options.max_sets, keys)?;
        let builder = ReportBuilder::explaining_keyed(alloc, suppressions, explain, keys)?;
        Ok(LocksetAnalyst {
            machine,
            builder,
            stop: None,
        })
    }

    /// At which line it has stopped, and for want of what.
    pub fn stop(&self) -> Option<(u64, NoRoom)>
        ensures { result ≡ self.now.stop }
    {
        self.stop
    }

    /// The report of the steps so far.
    pub fn finish(self) -> Report
        ensures report { (asked : Asked) (r : Recording) → (ran : HasRunFor self.entry asked r) → told result ≡ report_of r asked.rules asked.explain ran.run.stopped }
        ensures named { (asked : Asked) (r : Recording) → HasRunFor self.entry asked r → All (HasNames r.names) result.lines.items }
        ensures stop { result.stop ≡ self.entry.stop }
    {
        self.builder.finish_explained(self.stop)
    }
}

impl<'r> Analyst for LocksetAnalyst<'r> {
    ghost use Rattle.er_batch.specs.Analysts.{HasRunFor};
    ghost use Rattle.er_report.specs.Reports.{asks_locks};

    ghost stands = { λ ran asked r _. HasRunFor ran asked r };

    ghost wanted = { λ asked. asks_locks asked.analysis };

    ghost answered = { λ ran. ran.builder.report.steps };

    ghost found = { λ ran. ran.builder.report.races };

    fn prepare<R: Threads + Wait + Sync, B, F: FnMut() -> B>(
        &mut self,
        _rt: &R,
        _chunks: &[Chunk],
        beside: &mut F,
    ) -> B {
        beside()
    }

    fn answer<R: Threads + Wait + Sync>(
        &mut self,
        _rt: &R,
        trace: &Trace,
        _touches: &[Touch],
    ) -> Answered {
        self.stop = answer_batch(&mut self.machine, trace, &mut self.builder, self.stop)?;
        Ok(())
    }

    fn counts(&self) -> (u64, u64) {
        (self.builder.steps(), self.builder.races())
    }
}
