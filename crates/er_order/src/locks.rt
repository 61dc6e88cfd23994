//! The law that ties happens-before to locks: the function does nothing, and its contract is proved of the definitions in `specs/`.
ghost use Rattle.std.specs.Prelude.{◌<◌, ◌≤◌, ◌||◌, ℕ, suc, List, IsTrue, IsFalse};
ghost use Rattle.er_event.specs.Lockset.{has, is_level_lock};
ghost use Rattle.er_event.specs.declared.steps.Step.{Step};
ghost use Rattle.er_model.specs.Answers.{reading_of};
ghost use Rattle.er_model.specs.Words.{counts, cover_of, writes, era, counted_from};
ghost use Rattle.er_order.specs.Exclusion.{IsExclusive};
ghost use Rattle.er_order.specs.Order.{acts_of, happens_before};
ghost use Rattle.er_order.specs.Races.{is_race};

/// A lock that excludes orders what it covers: of two counted accesses, one of them a write, that one lock covers, the earlier one
/// happens before the later one. So a word that such a lock covers throughout an era has no unordered access in it. Level locks order
/// nothing.
pub fn a_common_lock_orders()
    ensures pair { (steps : List Step) (l i k v w : ℕ) → IsFalse (is_level_lock l) → IsExclusive steps l k → i < k
        → IsTrue (counts (reading_of steps i) v) → IsTrue (counts (reading_of steps k) w)
        → IsTrue (writes (reading_of steps i) || writes (reading_of steps k)) → IsTrue (has (cover_of (reading_of steps i)) l)
        → IsTrue (has (cover_of (reading_of steps k)) l) → IsTrue (happens_before (acts_of steps) i k) }
    ensures word { (steps : List Step) (l w k : ℕ) → IsFalse (is_level_lock l) → IsExclusive steps l k
        → ((j : ℕ) → j ≤ k → IsTrue (counted_from (reading_of steps) w (era (reading_of steps) w (suc k)) j)
        → IsTrue (has (cover_of (reading_of steps j)) l)) → IsFalse (is_race (happens_before (acts_of steps)) (reading_of steps) w k) }
{}
