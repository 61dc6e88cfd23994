//! The law of locks that are held twice: the function does nothing, and its contract is proved of the definitions in `specs/`.
ghost use Rattle.std.specs.Prelude.{◌≡◌, ◌<◌, ℕ, List, IsTrue, IsFalse};
ghost use Rattle.er_damage.specs.Damage.{IsHeldTwiceAt};
ghost use Rattle.er_damage.specs.Damaged.{IsDamageOf, no_damage};
ghost use Rattle.er_event.specs.Lockset.{has, is_level_lock};
ghost use Rattle.er_event.specs.declared.steps.Step.{Step};
ghost use Rattle.er_model.specs.Holdings.{holdings_at};
ghost use Rattle.er_text.specs.Trace.{IsTrace};
ghost use Rattle.er_trace.specs.Trace.{Recording};

/// Where no lock is held twice, threads exclude each other: at no point two threads hold one lock, one of them to write. So it is in a
/// text without damage. Level locks exclude nobody.
pub fn no_damage_means_exclusion()
    ensures steps { (steps : List Step) (l n : ℕ) → IsFalse (is_level_lock l) → ((k : ℕ) → k < n → IsHeldTwiceAt steps k → ⊥)
        → (t u : ℕ) → (t ≡ u → ⊥) → IsTrue (has (holdings_at steps t n).held l) → IsFalse (has (holdings_at steps u n).write_held l) }
    ensures text { (text : List ℕ) (limit : ℕ) → IsDamageOf text limit no_damage → (recording : Recording) × IsTrace text limit recording
        × ((l n t u : ℕ) → IsFalse (is_level_lock l) → (t ≡ u → ⊥) → IsTrue (has (holdings_at recording.steps t n).held l)
        → IsFalse (has (holdings_at recording.steps u n).write_held l)) }
{}
