//! The laws of races by happens-before: each function does nothing, and its contract is proved of the definitions in `specs/`.
ghost use Rattle.std.specs.Prelude.{◌≡◌, ◌<◌, ◌⊎◌, ◌||◌, slice_get, Option, ℕ, suc, List, false, IsTrue};
ghost use Rattle.er_model.specs.Answers.{reading_of};
ghost use Rattle.er_model.specs.Words.{Reading, counts, thread_of, writes, era, counted_from};
ghost use Rattle.er_event.specs.Lockset.{has};
ghost use Rattle.er_event.specs.declared.steps.Step.{Step};
ghost use Rattle.er_order.specs.Order.{Act, Effect, sync_of, acts_of, happens_before};
ghost use Rattle.er_order.specs.Races.{Order, latest_from, is_race, had_race, is_reported};
ghost use Rattle.er_order.specs.Following.{kept_at};
ghost use Rattle.er_order.specs.Locality.{clocked_on};

/// If more steps are in order, no further access is a race.
pub fn more_order_fewer_races()
    ensures race { (less more : Order) (r : Reading) (w k : ℕ) → ((j k : ℕ) → IsTrue (less j k) → IsTrue (more j k))
        → IsTrue (is_race more r w k) → IsTrue (is_race less r w k) }
{}

/// An era that has a race has exactly one report.
pub fn an_era_is_reported_once()
    ensures reported { (order : Order) (r : Reading) (w n : ℕ) → IsTrue (had_race order r w n)
        → (i : ℕ) × (i < n) × (era r w (suc i) ≡ era r w n) × IsTrue (counts (r i) w) × IsTrue (is_reported order r w i) }
    ensures once { (order : Order) (r : Reading) (w i k : ℕ) → i < k → era r w (suc i) ≡ era r w (suc k) → IsTrue (is_reported order r w i)
        → IsTrue (is_reported order r w k) → ⊥ }
{}

/// Two conflicting accesses of an era of which the earlier one doesn't come before the later one in order make a race in that era. So
/// a counted write and another thread's access of the word make one if no step of either thread happens before a step of the other,
/// and in a list with no acquire, release, start, join, signal or await.
pub fn with_no_order_each_shared_write_races()
    ensures pair { (order : Order) (r : Reading) (w n j k : ℕ) → j < k → k < n → IsTrue (counted_from r w (era r w n) j)
        → IsTrue (counted_from r w (era r w n) k) → IsTrue (writes (r j) || writes (r k)) → order j k ≡ false → IsTrue (had_race order r w n) }
    ensures threads { (steps : List Step) (w n i k : ℕ)
        → ((a b : Act) (x y : ℕ) → acts_of steps x ≡ Option.Some a → acts_of steps y ≡ Option.Some b
        → ((a.thread ≡ thread_of (reading_of steps i)) × (b.thread ≡ thread_of (reading_of steps k)))
        ⊎ ((a.thread ≡ thread_of (reading_of steps k)) × (b.thread ≡ thread_of (reading_of steps i))) → happens_before (acts_of steps) x y ≡ false)
        → i < n → k < n → IsTrue (counted_from (reading_of steps) w (era (reading_of steps) w n) i)
        → IsTrue (counted_from (reading_of steps) w (era (reading_of steps) w n) k) → IsTrue (writes (reading_of steps i))
        → (thread_of (reading_of steps i) ≡ thread_of (reading_of steps k) → ⊥)
        → IsTrue (had_race (happens_before (acts_of steps)) (reading_of steps) w n) }
    ensures none { (steps : List Step)
        → ((k : ℕ) (step : Step) → slice_get steps k ≡ Option.Some step → sync_of step.event ≡ Effect.Local)
        → (w n i k : ℕ) → i < n → k < n → IsTrue (counted_from (reading_of steps) w (era (reading_of steps) w n) i)
        → IsTrue (counted_from (reading_of steps) w (era (reading_of steps) w n) k) → IsTrue (writes (reading_of steps i))
        → (thread_of (reading_of steps i) ≡ thread_of (reading_of steps k) → ⊥)
        → IsTrue (had_race (happens_before (acts_of steps)) (reading_of steps) w n) }
{}

/// Of two of the latest reads neither comes before the other in order, so they are of two threads.
pub fn the_latest_reads_are_apart()
    ensures apart { (order : Order) (r : Reading) (w start n i j : ℕ) → i < j → IsTrue (has (latest_from order r w start n) i)
        → IsTrue (has (latest_from order r w start n) j) → order i j ≡ false }
{}

/// What is kept of a word depends on the marks that touch it and on the clocks of their threads alone.
pub fn a_word_is_local()
    ensures kept { (steps others : List Step) (w m n : ℕ)
        → clocked_on (acts_of steps) (reading_of steps) w m ≡ clocked_on (acts_of others) (reading_of others) w n
        → kept_at steps w m ≡ kept_at others w n }
{}
