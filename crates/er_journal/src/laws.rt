//! The law of merges: its function does nothing, and its contract is proved of the definitions in `specs/`.
ghost use Rattle.std.specs.Prelude.{◌≡◌, ◌<◌, ℕ, List, Option, slice_get, Ok};
ghost use Rattle.er_event.specs.declared.steps.Step.{Step};
ghost use Rattle.er_model.specs.Answers.{answer, state_end};
ghost use Rattle.er_journal.specs.Journals.{IsLegalJournal, journal_state};
ghost use Rattle.er_journal.specs.Merges.{IsMerge, IsLegalSeat, reply_at, shard_of};

use crate::{Call, Entry};
use er_event::Reply;

/// In a merge of legal seats and journals every reply is the one that the whole list gives, and each word's state in its shard's journal is its state at the list's end.
pub fn a_merge_is_legal()
    ensures replies { (shards : ℕ) (steps : List Step) (replies : List Reply) (calls : ℕ → List Call) (journals : ℕ → List Entry)
        → 0 < shards → IsMerge shards steps replies calls journals → ((i : ℕ) → i < shards → IsLegalJournal (journals i))
        → ((t : ℕ) → IsLegalSeat t (calls t)) → (k : ℕ) (step : Step) → slice_get steps k ≡ Option.Some step
        → answer steps k ≡ Ok (reply_at replies k) }
    ensures states { (shards : ℕ) (steps : List Step) (replies : List Reply) (calls : ℕ → List Call) (journals : ℕ → List Entry)
        → 0 < shards → IsMerge shards steps replies calls journals → (w : ℕ)
        → journal_state (journals (shard_of shards w)) w ≡ state_end steps w }
{}
