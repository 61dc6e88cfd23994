//! What holds of every text.
ghost use Rattle.std.specs.Prelude.{◌≡◌, ◌⊎◌, ◌++◌, ℕ, List, Option};
ghost use Rattle.er_event.specs.declared.steps.Step.{Step};
ghost use Rattle.er_text.specs.Places.{Reached};
ghost use Rattle.er_text.specs.Batches.{HasRead};
ghost use Rattle.er_trace.specs.Trace.{Recording, without_steps};
ghost use Rattle.er_lines.specs.declared.faults.TextFault.{TextFault};
ghost use Rattle.er_text.specs.Named.{AreNamed};
ghost use Rattle.er_text.specs.Trace.{IsTrace, IsFault};

/// A text is a trace or has a fault, and never both. It has one trace at most, and one fault.
pub fn trace_or_fault()
    ensures either { (text : List ℕ) (limit : ℕ) → ((t : Recording) × IsTrace text limit t) ⊎ ((f : TextFault) × IsFault text limit f) }
    ensures never_both { (text : List ℕ) (limit : ℕ) (t : Recording) (f : TextFault) → IsTrace text limit t → IsFault text limit f → ⊥ }
    ensures one_trace { (text : List ℕ) (limit : ℕ) (t u : Recording) → IsTrace text limit t → IsTrace text limit u → t ≡ u }
    ensures one_fault { (text : List ℕ) (limit : ℕ) (f g : TextFault) → IsFault text limit f → IsFault text limit g → f ≡ g }
{}

/// Each step of a trace is what one of its event lines says, and has that line's number and site. Its thread, lock and site have there
/// the names that the trace gives for their numbers.
pub fn steps_are_named()
    ensures { (text : List ℕ) (limit : ℕ) (t : Recording) (is : IsTrace text limit t) → AreNamed is.version is.events t.names t.steps t.lines t.sites }
{}

/// The caller of a reader of batches may take the steps of the trace away: they are then the last of those that were taken.
pub fn a_batch_may_be_forgotten()
    ensures { (text : List ℕ) (steps : List Step) (lines sites : List ℕ) (reader : Reached) (known : Option (List ℕ)) (trace : Recording)
        → HasRead text steps lines sites reader known trace
        → HasRead text (steps ++ trace.steps) (lines ++ trace.lines) (sites ++ trace.sites) reader known (without_steps trace) }
{}
