//! The laws of explanations: each function does nothing, and its contract is proved of the definitions. All are own.
ghost use Rattle.std.specs.Prelude.{◌≡◌, ℕ, suc, List, Option};
ghost use Rattle.er_event.specs.declared.steps.Step.{Step};
ghost use Rattle.er_model.specs.Answers.{answer};
ghost use Rattle.er_event.specs.Lockset.{IsRising};
ghost use Rattle.er_model.specs.Explanations.{Explanation, Explains, locks_listed};
ghost use Rattle.er_model.specs.Words.{Reading, state};
ghost use Rattle.er_explain.specs.Books.{book_at};
ghost use Rattle.er_explain.specs.Explaining.{explanation_at};

use er_event::Reply;

/// The explanation of a step is one by the model's word, with its locks in rising order, and a step that has none is answered
/// otherwise than with a race.
pub fn an_explanation_explains()
    ensures explains { (steps : List Step) (k : ℕ) (e : Explanation) → explanation_at steps k ≡ Option.Some e → Explains steps e k × IsRising (locks_listed e.uncovered) }
    ensures none { (steps : List Step) (k : ℕ) → explanation_at steps k ≡ Option.None → ¬ (answer steps k ≡ Ok Reply.Race) }
    ensures race { (steps : List Step) (k : ℕ) (e : Explanation) → Explains steps e k → answer steps k ≡ Ok Reply.Race }
{}

/// A position that leaves a word's state as it was leaves its book as it was. So the book is complete if it goes on at the positions
/// alone that change the state.
pub fn a_kept_state_keeps_the_book()
    ensures { (r : Reading) (w n : ℕ) → state r w (suc n) ≡ state r w n → book_at r w (suc n) ≡ book_at r w n }
{}
