//! Worked cases: what happens-before answers to short lists, and what an access is unordered with.
ghost use Rattle.std.specs.Prelude.{◌≡◌, [], ◌∷◌, Option};
ghost use Rattle.er_model.specs.Examples.{done, quiet, race, not_counted, refused_for};
ghost use Rattle.er_model.specs.Answers.{answers};
ghost use Rattle.er_order.specs.Races.{order_answers};
ghost use Rattle.er_order.specs.Reasons.{unordered_with};
ghost use Rattle.er_order.specs.Examples.{queue, no_lock, too_early, chain, readers_joined, one_reader_joined, only_read, rounds, joined_late, semaphore, awaited_early, read_locks, read_and_write_locks, double_checked, double_checked_in_order, reuse_between, reuse_joined, reuse_too_early, reuse_locked, reuse_after_race, reuse_in_bracket, reuse_of_three, refused_release, two_holders, levels, bracket, locked_later, other_reader_joined, two_readers};

use er_event::Refusal;

/// What happens-before answers to short lists, and what the lockset rule answers to two of them.
pub fn worked_races()
    ensures queue { order_answers queue ≡ quiet ∷ done ∷ done ∷ done ∷ done ∷ quiet ∷ [] }
    ensures queue_by_locks { answers queue ≡ quiet ∷ done ∷ done ∷ done ∷ done ∷ race ∷ [] }
    ensures locked_later { order_answers locked_later ≡ quiet ∷ done ∷ race ∷ done ∷ [] }
    ensures locked_later_by_locks { answers (locked_later) ≡ quiet ∷ done ∷ quiet ∷ done ∷ [] }
    ensures no_lock { order_answers no_lock ≡ quiet ∷ race ∷ [] }
    ensures too_early { order_answers too_early ≡ quiet ∷ done ∷ done ∷ done ∷ done ∷ race ∷ [] }
    ensures chain { order_answers chain ≡ quiet ∷ done ∷ done ∷ done ∷ done ∷ done ∷ done ∷ quiet ∷ race ∷ [] }
    ensures readers_joined { order_answers readers_joined ≡ quiet ∷ done ∷ done ∷ quiet ∷ quiet ∷ done ∷ done ∷ quiet ∷ [] }
    ensures one_reader_joined { order_answers one_reader_joined ≡ quiet ∷ done ∷ done ∷ quiet ∷ quiet ∷ done ∷ race ∷ [] }
    ensures only_read { order_answers only_read ≡ quiet ∷ quiet ∷ quiet ∷ [] }
    ensures rounds { order_answers rounds ≡ quiet ∷ done ∷ quiet ∷ done ∷ quiet ∷ done ∷ quiet ∷ done ∷ quiet ∷ [] }
    ensures joined_late { order_answers joined_late ≡ quiet ∷ done ∷ quiet ∷ race ∷ done ∷ [] }
    ensures semaphore { order_answers semaphore ≡ quiet ∷ done ∷ done ∷ quiet ∷ [] }
    ensures awaited_early { order_answers awaited_early ≡ quiet ∷ done ∷ done ∷ race ∷ [] }
    ensures read_locks { order_answers read_locks ≡ done ∷ quiet ∷ done ∷ done ∷ race ∷ [] }
    ensures read_and_write_locks { order_answers read_and_write_locks
        ≡ done ∷ quiet ∷ done ∷ done ∷ quiet ∷ done ∷ done ∷ quiet ∷ [] }
    ensures double_checked { order_answers double_checked ≡ done ∷ quiet ∷ quiet ∷ done ∷ race ∷ race ∷ [] }
    ensures double_checked_in_order { order_answers double_checked_in_order ≡ done ∷ quiet ∷ done ∷ done ∷ done ∷ quiet ∷ [] }
    ensures reuse_between { order_answers reuse_between ≡ quiet ∷ race ∷ quiet ∷ race ∷ quiet ∷ [] }
    ensures reuse_between_by_locks { answers reuse_between ≡ quiet ∷ done ∷ quiet ∷ race ∷ quiet ∷ [] }
    ensures reuse_joined { order_answers reuse_joined ≡ done ∷ quiet ∷ done ∷ done ∷ quiet ∷ [] }
    ensures reuse_too_early { order_answers reuse_too_early ≡ done ∷ quiet ∷ race ∷ done ∷ done ∷ [] }
    ensures reuse_locked { order_answers reuse_locked ≡ done ∷ quiet ∷ done ∷ done ∷ done ∷ done ∷ [] }
    ensures reuse_after_race { order_answers reuse_after_race ≡ quiet ∷ race ∷ done ∷ done ∷ [] }
    ensures reuse_in_bracket { order_answers reuse_in_bracket ≡ quiet ∷ done ∷ done ∷ done ∷ quiet ∷ [] }
    ensures reuse_of_three { order_answers reuse_of_three ≡ quiet ∷ quiet ∷ quiet ∷ quiet ∷ race ∷ quiet ∷ [] }
    ensures refused_release { order_answers refused_release ≡ quiet ∷ refused_for Refusal.NotHeld ∷ done ∷ race ∷ [] }
    ensures two_holders { order_answers two_holders ≡ done ∷ done ∷ quiet ∷ done ∷ done ∷ done ∷ quiet ∷ [] }
    ensures levels { order_answers levels ≡ done ∷ quiet ∷ done ∷ done ∷ race ∷ [] }
    ensures bracket { order_answers bracket ≡ quiet ∷ done ∷ not_counted ∷ done ∷ quiet ∷ [] }
{}

/// What an access is unordered with: of several the last one, and none that comes before it in order.
pub fn worked_reasons()
    ensures no_lock { unordered_with no_lock 1 ≡ Option.Some 0 }
    ensures queue { unordered_with queue 5 ≡ Option.None }
    ensures chain { unordered_with chain 8 ≡ Option.Some 7 }
    ensures one_reader_joined { unordered_with one_reader_joined 6 ≡ Option.Some 4 }
    ensures other_reader_joined { unordered_with other_reader_joined 6 ≡ Option.Some 3 }
    ensures two_readers { unordered_with two_readers 2 ≡ Option.Some 1 }
    ensures double_checked { unordered_with double_checked 5 ≡ Option.Some 1 }
    ensures reuse_between { unordered_with reuse_between 3 ≡ Option.Some 2 }
    ensures reuse_itself { unordered_with reuse_between 1 ≡ Option.Some 0 }
    ensures reuse_joined { unordered_with reuse_joined 3 ≡ Option.None }
    ensures reuse_of_three { unordered_with reuse_of_three 4 ≡ Option.Some 3 }
{}
