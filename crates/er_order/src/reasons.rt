//! The laws of what an unordered access or reuse is unordered with: each function does nothing, and its contract is proved of the definitions.
ghost use Rattle.std.specs.Prelude.{◌≡◌, ◌<◌, ◌≤◌, ◌++◌, length, slice_get, Option, Ok, ℕ, List, false, IsTrue};
ghost use Rattle.er_model.specs.Answers.{reading_of};
ghost use Rattle.er_model.specs.Explanations.{word_of};
ghost use Rattle.er_model.specs.Words.{thread_of, era, counted_from, is_within};
ghost use Rattle.er_event.specs.declared.steps.Event.TheVariants.{Reuse};
ghost use Rattle.er_event.specs.declared.steps.Step.{Step};
ghost use Rattle.er_order.specs.Order.{acts_of, happens_before};
ghost use Rattle.er_order.specs.Races.{conflicts, had_race, order_answer};
ghost use Rattle.er_order.specs.Reasons.{word_raced, unordered_with};

use er_event::{PageRange, Reply};

/// What is answered with a race is unordered with an earlier access. That one is a counted access of the race's word in the era that the
/// race is in or ends, by another thread. It doesn't come before the race in order, and it is the last such access. An access and the one
/// that it is unordered with are of one word, and one of the two is a write; a reuse has the word in its range, of which no race was
/// reported in the era. Steps that come later change nothing of this.
pub fn a_race_is_unordered_with_an_access()
    ensures race { (steps : List Step) (k : ℕ) → order_answer steps k ≡ Ok Reply.Race → (j : ℕ) × (unordered_with steps k ≡ Option.Some j) }
    ensures unordered { (steps : List Step) (j k : ℕ) → unordered_with steps k ≡ Option.Some j
        → (w : ℕ) × (word_raced steps k ≡ Option.Some w) × IsTrue (counted_from (reading_of steps) w (era (reading_of steps) w k) j)
        × (happens_before (acts_of steps) j k ≡ false) }
    ensures conflict { (steps : List Step) (j k w : ℕ) → unordered_with steps k ≡ Option.Some j → word_of (slice_get steps k) ≡ Option.Some w
        → IsTrue (conflicts (reading_of steps) w j k) }
    ensures reuse { (steps : List Step) (k w : ℕ) (step : Step) (range : PageRange) → slice_get steps k ≡ Option.Some step
        → step.event ≡ Reuse range → word_raced steps k ≡ Option.Some w
        → IsTrue (is_within w range) × (had_race (happens_before (acts_of steps)) (reading_of steps) w k ≡ false) }
    ensures earlier { (steps : List Step) (j k : ℕ) → unordered_with steps k ≡ Option.Some j → j < k }
    ensures access { (steps : List Step) (k w : ℕ) → word_of (slice_get steps k) ≡ Option.Some w → word_raced steps k ≡ Option.Some w }
    ensures word { (steps : List Step) (j k w : ℕ) → unordered_with steps k ≡ Option.Some j → word_raced steps k ≡ Option.Some w
        → word_of (slice_get steps j) ≡ Option.Some w }
    ensures threads { (steps : List Step) (j k : ℕ) (step : Step) → slice_get steps k ≡ Option.Some step
        → unordered_with steps k ≡ Option.Some j → thread_of (reading_of steps j) ≡ step.thread → ⊥ }
    ensures last { (steps : List Step) (i j k w : ℕ) → unordered_with steps k ≡ Option.Some j → word_of (slice_get steps k) ≡ Option.Some w
        → i < k → IsTrue (conflicts (reading_of steps) w i k) → happens_before (acts_of steps) i k ≡ false → i ≤ j }
    ensures last_use { (steps : List Step) (i j k w : ℕ) (step : Step) (range : PageRange) → unordered_with steps k ≡ Option.Some j
        → slice_get steps k ≡ Option.Some step → step.event ≡ Reuse range → word_raced steps k ≡ Option.Some w → i < k
        → IsTrue (counted_from (reading_of steps) w (era (reading_of steps) w k) i) → happens_before (acts_of steps) i k ≡ false → i ≤ j }
    ensures stays { (steps more : List Step) (k : ℕ) → k < length steps → unordered_with (steps ++ more) k ≡ unordered_with steps k }
{}
