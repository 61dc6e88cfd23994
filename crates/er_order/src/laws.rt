//! The laws of order and of its clocks: each function does nothing, and its contract is proved of the definitions in `specs/`.
ghost use Rattle.std.specs.Prelude.{◌≡◌, ◌<◌, ◌≤◌, ◌++◌, ◌+◌, ◌==◌, ◌&&◌, cond, max, get_or, slice_get, length, Option, [], ◌∷◌, ℕ, suc, Bool, List, false, IsTrue};
ghost use Rattle.er_event.specs.declared.steps.Event.TheVariants.{Access};
ghost use Rattle.er_event.specs.declared.steps.Kind.{Kind};
ghost use Rattle.er_event.specs.declared.steps.Mode.{Mode};
ghost use Rattle.er_event.specs.declared.steps.Step.{Step};
ghost use Rattle.er_model.specs.Holdings.{holdings_at};
ghost use Rattle.er_order.specs.Order.{Effect, Act, Acts, acts_of, leads_from, happens_before};
ghost use Rattle.er_order.specs.Clocks.{Keeper, Clocks, OfThread, is_own, is_of_releases, is_of_object, found, seen, clocks_after, clocks_at, own_count, covers};
ghost use Rattle.er_order.specs.ClockLists.{ClockLists, StandForClocks, lists_after, merged};
ghost use Rattle.er_order.specs.Following.{act_by};

/// A step happens before each later one that it leads to, and before each step to which such steps lead on. Order is the least relation of
/// that kind, so it is closed under chains.
pub fn order_is_by_chains()
    ensures leads { (acts : Acts) (j k : ℕ) → j < k → IsTrue (leads_from (acts j) (acts k)) → IsTrue (happens_before acts j k) }
    ensures chain { (acts : Acts) (i j k : ℕ) → IsTrue (happens_before acts i j) → IsTrue (happens_before acts j k)
        → IsTrue (happens_before acts i k) }
    ensures least { (acts : Acts) (p : ℕ → ℕ → Bool) → ((j k : ℕ) → j < k → IsTrue (leads_from (acts j) (acts k)) → IsTrue (p j k))
        → ((i j k : ℕ) → IsTrue (p i j) → j < k → IsTrue (leads_from (acts j) (acts k)) → IsTrue (p i k))
        → (j k : ℕ) → IsTrue (happens_before acts j k) → IsTrue (p j k) }
    ensures earlier { (acts : Acts) (j k : ℕ) → IsTrue (happens_before acts j k) → j < k }
{}

/// A step happens before a later one exactly if the later one's clock covers its epoch; and no clock knows as much of a thread as
/// the thread's own.
pub fn clocks_decide_order()
    ensures decide { (acts : Acts) (j k : ℕ) (a b : Act) → j < k → acts j ≡ Option.Some a → acts k ≡ Option.Some b
        → happens_before acts j k ≡ covers (seen (clocks_at acts k) b) (a.thread, own_count acts j a.thread) }
    ensures ahead { (acts : Acts) (n u : ℕ) (c : Keeper) → is_own c u ≡ false → clocks_at acts n c u < clocks_at acts n (OfThread u) u }
{}

/// The clocks after a step follow from those before it and from whether its thread's holdings refuse it. An access moves no clock. Steps
/// that come later change nothing at an earlier point.
pub fn a_clock_follows_its_step()
    ensures act { (steps : List Step) (k : ℕ) (step : Step) → slice_get steps k ≡ Option.Some step
        → acts_of steps k ≡ act_by (holdings_at steps step.thread k) step }
    ensures clocks { (steps : List Step) (k u : ℕ) (step : Step) (c : Keeper) → slice_get steps k ≡ Option.Some step
        → clocks_at (acts_of steps) (suc k) c u ≡ clocks_after (clocks_at (acts_of steps) k) (act_by (holdings_at steps step.thread k) step) c u }
    ensures end { (steps : List Step) (step : Step) (c : Keeper) (u : ℕ)
        → clocks_at (acts_of (steps ++ step ∷ [])) (suc (length steps)) c u
        ≡ clocks_after (clocks_at (acts_of steps) (length steps)) (act_by (holdings_at steps step.thread (length steps)) step) c u }
    ensures access { (steps : List Step) (step : Step) (w site : ℕ) (kind : Kind) (c : Keeper) (u : ℕ) → step.event ≡ Access kind w site
        → clocks_at (acts_of (steps ++ step ∷ [])) (suc (length steps)) c u ≡ clocks_at (acts_of steps) (length steps) c u }
    ensures earlier { (steps more : List Step) (n : ℕ) → n ≤ length steps
        → clocks_at (acts_of (steps ++ more)) n ≡ clocks_at (acts_of steps) n }
{}

/// What each step does to the clocks. An acquire and an await take what they find into the thread's clock. A release, a signal and a
/// start put the thread's clock into the lock's, the object's or the started thread's, and then the thread's own count rises. A join
/// takes the joined thread's clock, and then the joined thread's own count rises. Nothing else changes a clock.
pub fn a_step_moves_its_clocks()
    ensures acquired { (clocks : Clocks) (t l u : ℕ) (m : Mode) (k : Keeper)
        → clocks_after clocks (Option.Some (record { thread = t; sync = Effect.Acquired l m })) k u
        ≡ cond (is_own k t) (max (clocks k u) (found clocks (Effect.Acquired l m) u)) (clocks k u) }
    ensures awaited { (clocks : Clocks) (t x u : ℕ) (k : Keeper)
        → clocks_after clocks (Option.Some (record { thread = t; sync = Effect.Awaited x })) k u
        ≡ cond (is_own k t) (max (clocks k u) (found clocks (Effect.Awaited x) u)) (clocks k u) }
    ensures released { (clocks : Clocks) (t l u : ℕ) (m : Mode) (k : Keeper)
        → clocks_after clocks (Option.Some (record { thread = t; sync = Effect.Released l m })) k u
        ≡ cond (is_of_releases k l m) (max (clocks k u) (clocks (OfThread t) u)) (clocks k u) + cond (is_own k t && t == u) 1 0 }
    ensures signalled { (clocks : Clocks) (t x u : ℕ) (k : Keeper)
        → clocks_after clocks (Option.Some (record { thread = t; sync = Effect.Signalled x })) k u
        ≡ cond (is_of_object k x) (max (clocks k u) (clocks (OfThread t) u)) (clocks k u) + cond (is_own k t && t == u) 1 0 }
    ensures started { (clocks : Clocks) (t v u : ℕ) (k : Keeper)
        → clocks_after clocks (Option.Some (record { thread = t; sync = Effect.Started v })) k u
        ≡ cond (is_own k v) (max (clocks k u) (clocks (OfThread t) u)) (clocks k u) + cond (is_own k t && t == u) 1 0 }
    ensures joined { (clocks : Clocks) (t v u : ℕ) (k : Keeper)
        → clocks_after clocks (Option.Some (record { thread = t; sync = Effect.Joined v })) k u
        ≡ cond (is_own k t) (max (clocks k u) (clocks (OfThread v) u)) (clocks k u) + cond (is_own k v && v == u) 1 0 }
    ensures local { (clocks : Clocks) (t u : ℕ) (k : Keeper)
        → clocks_after clocks (Option.Some (record { thread = t; sync = Effect.Local })) k u ≡ clocks k u }
{}

/// Lists of counts that stand for the clocks still do so after a step.
pub fn clock_lists_stand_for_clocks()
    ensures step { (lists : ClockLists) (clocks : Clocks) (o : Option Act) → StandForClocks lists clocks
        → StandForClocks (lists_after lists o) (clocks_after clocks o) }
    ensures merged { (xs ys : List ℕ) (u : ℕ) → get_or (merged xs ys) u 0 ≡ max (get_or xs u 0) (get_or ys u 0) }
{}
