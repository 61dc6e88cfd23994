//! The laws of accesses of some bytes of their words: each function does nothing, and its contract is proved of the definitions in `specs/`.
ghost use Rattle.std.specs.Prelude.{◌≡◌, ◌<◌, ◌≤◌, ◌++◌, ◌||◌, ◌&&◌, not, filter, find, is_some, length, [], ◌∷◌, ℕ, suc, List, false, IsTrue, IsFalse};
ghost use Rattle.er_model.specs.Words.{Reading, counts, writes, reuses};
ghost use Rattle.er_event.specs.declared.steps.Step.{Step};
ghost use Rattle.er_order.specs.Order.{acts_of};
ghost use Rattle.er_order.specs.Clocks.{OfThread, clocks_at};
ghost use Rattle.er_order.specs.Races.{Order, conflicts, is_race, last_use, order_answer};
ghost use Rattle.er_order.specs.Reasons.{last_unordered, unordered_with};
ghost use Rattle.er_order.specs.ByBytes.{Touched, whole, meet, by_bytes, accesses, answer_by_bytes, unordered_by_bytes};
ghost use Rattle.er_order.specs.Parts.{Part, is_of_use, ArePartsAlike, IsPartNoted};
ghost use Rattle.er_order.specs.declared.bytes.Bytes.{Bytes as ByteRange};

/// The bytes of its word that an access touches, from the first to the last, both included. A word has the bytes 0 to 3.
#[derive(Clone, Copy, PartialEq)]
pub struct Bytes {
    /// The first one.
    pub first: u8,
    /// The last one.
    pub last: u8,
}

/// An access is a race by its bytes exactly if an earlier access of the word's era conflicts with it, doesn't come before it in order, and
/// has a byte in common with it. So bytes make no further access a race; and where all accesses touch whole words, the answers and what
/// they name are those without bytes.
pub fn a_race_has_a_common_byte()
    ensures race { (touched : Touched) (order : Order) (r : Reading) (w k : ℕ) → IsTrue (is_race (by_bytes touched order) r w k)
        → (j : ℕ) × (j < k) × IsTrue (conflicts r w j k) × IsTrue (meet (touched j) (touched k)) × (order j k ≡ false) }
    ensures pair { (touched : Touched) (order : Order) (r : Reading) (w j k : ℕ) → j < k → IsTrue (conflicts r w j k)
        → IsTrue (meet (touched j) (touched k)) → order j k ≡ false → IsTrue (is_race (by_bytes touched order) r w k) }
    ensures common { (a b : ByteRange) → a.first ≤ a.last → b.first ≤ b.last → IsTrue (meet a b)
        → (i : ℕ) × (a.first ≤ i) × (i ≤ a.last) × (b.first ≤ i) × (i ≤ b.last) }
    ensures meet { (a b : ByteRange) (i : ℕ) → a.first ≤ i → i ≤ a.last → b.first ≤ i → i ≤ b.last → IsTrue (meet a b) }
    ensures fewer { (touched : Touched) (order : Order) (r : Reading) (w k : ℕ) → IsTrue (is_race (by_bytes touched order) r w k)
        → IsTrue (is_race order r w k) }
    ensures answers { (touched : Touched) (steps : List Step) (k : ℕ) → ((j : ℕ) → touched j ≡ whole)
        → answer_by_bytes touched steps k ≡ order_answer steps k }
    ensures named { (touched : Touched) (steps : List Step) (k : ℕ) → ((j : ℕ) → touched j ≡ whole)
        → unordered_by_bytes touched steps k ≡ unordered_with steps k }
{}

/// The access that one more is unordered with is the first one that passes, from the end of its era on. It is a race if there is one.
pub fn an_era_is_searched_from_its_end()
    ensures unordered { (touched : Touched) (order : Order) (r : Reading) (w k : ℕ) → IsTrue (counts (r k) w)
        → last_unordered (by_bytes touched order) r w k
        ≡ find (λ j. (writes (r j) || writes (r k)) && (meet (touched j) (touched k) && not (order j k))) (accesses r w k) }
    ensures used { (order : Order) (r : Reading) (w k : ℕ) → last_use order r w k ≡ find (λ j. not (order j k)) (accesses r w k) }
    ensures race { (order : Order) (r : Reading) (w k : ℕ) → is_race order r w k ≡ is_some (last_unordered order r w k) }
    ensures accessed { (r : Reading) (w n : ℕ) → IsTrue (counts (r n) w) → accesses r w (suc n) ≡ n ∷ accesses r w n }
    ensures renewed { (r : Reading) (w n : ℕ) → IsTrue (reuses (r n) w) → accesses r w (suc n) ≡ [] }
    ensures other { (r : Reading) (w n : ℕ) → IsFalse (counts (r n) w) → IsFalse (reuses (r n) w) → accesses r w (suc n) ≡ accesses r w n }
{}

/// Once an access is kept, an earlier one may go if it comes before that one in order, has no other byte, and is no write before a read:
/// whatever a later clock would find of it, it finds of the kept one. Lists that are alike stay so after more steps, and after one more
/// access of both.
pub fn what_is_of_no_use_may_go()
    ensures noted { (clock : ℕ → ℕ) (before : List Part) (access : Part)
        → IsPartNoted (λ (part : Part). part) clock before access (access ∷ filter (is_of_use clock access) before) }
    ensures grows { (steps : List Step) (step : Step) (stored all : List Part) → ArePartsAlike (λ (part : Part). part) steps stored all
        → ArePartsAlike (λ (part : Part). part) (steps ++ step ∷ []) stored all }
    ensures accessed { (steps : List Step) (step : Step) (t : ℕ) (access : Part) (stored all after : List Part)
        → access.epoch ≡ (t, clocks_at (acts_of steps) (length steps) (OfThread t) t) → ArePartsAlike (λ (part : Part). part) steps stored all
        → IsPartNoted (λ (part : Part). part) (clocks_at (acts_of steps) (length steps) (OfThread t)) stored access after
        → ArePartsAlike (λ (part : Part). part) (steps ++ step ∷ []) after (access ∷ all) }
{}
