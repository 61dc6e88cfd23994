//! The damage of a trace, which a strict replay looks for batch by batch.
ghost use Rattle.std.specs.Prelude.{◌≡◌, ℕ, Bool, List, Option, false, is_some, None, IsNone, IfSome};
ghost use Rattle.er_batch.specs.Analysts.{IsAnswered};
ghost use Rattle.er_run.specs.Inner.Inspected.{IsInspected, HasFound};
ghost use Rattle.er_text.specs.Ending.{IsEndingOf};
ghost use Rattle.er_trace.specs.Names.{NameTable};
ghost use Rattle.er_trace.specs.Trace.{no_steps};

use er_batch::{Analyst, Answered};
use er_damage::{Damage, Inspector};
use er_lines::Touch;
use er_reading::Chunk;
use er_text::Ending;
use er_trace::Trace;
use std::alloc::Global;
use std::sync::Wait;
use std::thread::Threads;

/// What a strict replay of a whole trace has seen of the steps so far. Another replay looks at none.
#[derive(Drop)]
pub(crate) struct Inspection {
    inspector: Option<Inspector>,
}

impl Inspection {
    /// Before any step.
    pub(crate) fn new(alloc: Global, strict: bool) -> Inspection
        ensures { IsInspected result.inspector strict no_steps }
    {
        let inspector = if strict {
            Some(Inspector::new(alloc))
        } else {
            None
        };
        Inspection { inspector }
    }

    /// The damage of a text that was read to its end and ended so, if the replay is strict and there is any.
    pub(crate) fn damage(&self, ending: Ending) -> Option<Damage>
        ensures found { (strict : Bool) (told : Option (List ℕ)) (limit : ℕ) (used : NameTable) → IsAnswered (IsInspected self.now.inspector strict) None told limit used
            → IfSome told (λ text. IsEndingOf text ending) → HasFound told limit strict result }
        ensures lenient { is_some self.now.inspector ≡ false → IsNone result }
    {
        let Some(inspector) = &self.inspector else {
            return None;
        };
        let damage = inspector.damage(ending);
        if damage.is_any() { Some(damage) } else { None }
    }
}

impl Analyst for Inspection {
    ghost use Rattle.er_run.specs.Inner.Inspected.{IsInspected};

    ghost stands = { λ seen asked r _. IsInspected seen.inspector asked.strict r };

    ghost wanted = { λ asked. asked.strict };

    ghost answered = { λ _. 0 };

    ghost found = { λ _. 0 };

    fn prepare<R: Threads + Wait + Sync, B, F: FnMut() -> B>(
        &mut self,
        _rt: &R,
        _chunks: &[Chunk],
        beside: &mut F,
    ) -> B {
        beside()
    }

    fn answer<R: Threads + Wait + Sync>(
        &mut self,
        _rt: &R,
        trace: &Trace,
        _touches: &[Touch],
    ) -> Answered {
        let steps = trace.steps();
        let lines = trace.lines();
        match &mut self.inspector {
            Some(inspector) => inspector.follow(steps, lines),
            None => Ok(()),
        }
    }

    fn counts(&self) -> (u64, u64) {
        (0, 0)
    }
}
