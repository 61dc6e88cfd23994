//! What answers the steps of a trace.
ghost use Rattle.std.specs.Prelude.{◌≡◌, ◌+◌, ◌<◌, ◌∷◌, ◌^◌, [], ℕ, Bool, List, max, OnOk};
ghost use Rattle.std.specs.Thread.{IsSync};
ghost use Rattle.er_batch.specs.Analysts.{Asked};
ghost use Rattle.er_batch.specs.Runs.{recorded};
ghost use Rattle.er_batch.specs.Touching.{AgreeOn};
ghost use Rattle.er_event.specs.declared.steps.Step.{Step as Steps};
ghost use Rattle.er_reading.specs.Chunks.{step_lists};
ghost use Rattle.er_text.specs.Batches.{joined};
ghost use Rattle.er_text.specs.Named.{KeepsNames};
ghost use Rattle.er_trace.specs.Names.{NameTable};
ghost use Rattle.er_trace.specs.Trace.{Recording};

use er_lines::Touch;
use er_reading::Chunk;
use er_trace::Trace;
use std::alloc::AllocError;
use std::sync::Wait;
use std::thread::Threads;

/// What is returned once the steps of a batch were answered.
pub type Answered = Result<(), AllocError>;

/// What answers the steps of a trace, batch by batch, and keeps what is to be reported of them.
///
/// An analyst that can't go on keeps why, and answers no later step: the text is read to its end all the same, since a fault of the text
/// comes first. If it starts threads or waits for others, it does so by the handle `rt`, which they share.
pub trait Analyst {
    /// It stands for this recording, of which it is asked this, and is ready for these lists of steps behind it.
    ghost stands: { Self → Asked → Recording → List (List Steps) → Type 0 };

    /// Whether it is wanted by who asks this.
    ghost wanted: { Asked → Bool };

    /// How many steps it has answered.
    ghost answered: { Self → ℕ };

    /// How many of them are races that have a line.
    ghost found: { Self → ℕ };

    /// Gets ready for the steps of these chunks, as far as no names are needed for it, and calls `beside`, which may be at the same time.
    fn prepare<R: Threads + Wait + Sync, B, F: FnMut() -> B>(
        &mut self,
        rt: &R,
        chunks: &[Chunk],
        beside: &mut F,
    ) -> B
        requires sync { IsSync R.row }
        requires callable { F.pre beside.old }
        ensures called { F.step beside.old result beside.new }
        ensures ready { (asked : Asked) (r : Recording) → stands self.old asked r [] → stands self.new asked r (step_lists chunks.now) };

    /// Answers the first steps that it is ready for, behind those that it has answered. The touches say what the accesses on their lines touch.
    fn answer<R: Threads + Wait + Sync>(
        &mut self,
        rt: &R,
        trace: &Trace,
        touches: &[Touch],
    ) -> Answered
        requires sync { IsSync R.row }
        ensures goes_on { (asked : Asked) (past : List Steps) (lines sites : List ℕ) (names : NameTable) (more : List (List Steps)) → KeepsNames names trace.now.names
            → stands self.old asked (recorded past lines sites names) (trace.now.steps ∷ more) → AgreeOn asked.touches touches.now trace.now.lines
            → OnOk result (stands self.new asked (joined past lines sites trace.now) more) };

    /// How many steps it has answered, and how many of them are races that have a line, or the greatest number that there is.
    fn counts(&self) -> (u64, u64)
        ensures steps { result.0 ≡ answered self.now }
        ensures races { found self.now < 2 ^ 64 → result.1 ≡ found self.now };
}

/// Two analysts of the same steps. Each batch is answered by the first and then by the second.
#[derive(Drop)]
pub struct Pair<A, B> {
    /// The one that answers first.
    pub first: A,
    /// The other one.
    pub second: B,
}

impl<A: Analyst, B: Analyst> Analyst for Pair<A, B> {
    ghost use Rattle.std.specs.Prelude.{◌+◌, ◌||◌, max};

    ghost stands = { λ pair asked r lists. A.stands pair.first asked r lists × B.stands pair.second asked r lists };

    ghost wanted = { λ asked. A.wanted asked || B.wanted asked };

    ghost answered = { λ pair. max (A.answered pair.first) (B.answered pair.second) };

    ghost found = { λ pair. A.found pair.first + B.found pair.second };

    fn prepare<R: Threads + Wait + Sync, C, F: FnMut() -> C>(
        &mut self,
        rt: &R,
        chunks: &[Chunk],
        beside: &mut F,
    ) -> C {
        self.second.prepare(rt, chunks, &mut || ());
        self.first.prepare(rt, chunks, beside)
    }

    fn answer<R: Threads + Wait + Sync>(
        &mut self,
        rt: &R,
        trace: &Trace,
        touches: &[Touch],
    ) -> Answered {
        self.first.answer(rt, trace, touches)?;
        self.second.answer(rt, trace, touches)
    }

    fn counts(&self) -> (u64, u64) {
        let (steps, races) = self.first.counts();
        let (others, more) = self.second.counts();
        (steps.max(others), races.saturating_add(more))
    }
}

/// An analyst that is there exactly if it is wanted. Without one, no step is answered.
impl<A: Analyst> Analyst for Option<A> {
    ghost use Rattle.std.specs.Option.{option_map_or};
    ghost use Rattle.er_batch.specs.Analysts.{StandsIf};

    ghost stands = { λ analyst asked r lists. StandsIf (λ one. A.stands one asked r lists) (A.wanted asked) analyst };

    ghost wanted = { A.wanted };

    ghost answered = { λ analyst. option_map_or A.answered analyst 0 };

    ghost found = { λ analyst. option_map_or A.found analyst 0 };

    fn prepare<R: Threads + Wait + Sync, B, F: FnMut() -> B>(
        &mut self,
        rt: &R,
        chunks: &[Chunk],
        beside: &mut F,
    ) -> B {
        match self {
            Some(analyst) => analyst.prepare(rt, chunks, beside),
            None => beside(),
        }
    }

    fn answer<R: Threads + Wait + Sync>(
        &mut self,
        rt: &R,
        trace: &Trace,
        touches: &[Touch],
    ) -> Answered {
        match self {
            Some(analyst) => analyst.answer(rt, trace, touches),
            None => Ok(()),
        }
    }

    fn counts(&self) -> (u64, u64) {
        match self {
            Some(analyst) => analyst.counts(),
            None => (0, 0),
        }
    }
}
