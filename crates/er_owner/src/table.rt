//! What an access makes of a word, by the word's state.
ghost use Rattle.std.specs.Prelude.{◌≡◌, ◌<◌, ◌^◌, ℕ, List};
ghost use Rattle.er_event.specs.declared.steps.Kind.{Kind};
ghost use Rattle.er_model.specs.Table.{advanced, reports};
ghost use Rattle.er_owner.specs.declared.states.NumberedState.{NumberedState};
ghost use Rattle.er_owner.specs.Advancing.{need_of, advanced_to, shared_at, has_no_candidates, reports_race};
ghost use Rattle.er_owner.specs.Numbering.{state_in, IsNumbered, IsRefined};

use crate::{Need, NumberedState, Shadow};
use er_event::{Kind, ThreadId};

/// Which set an access of a word by a thread needs. Candidates are refined from the second thread's first access on, and with it.
#[inline]
pub fn need(shadow: Shadow, thread: ThreadId, _kind: Kind) -> Need
    ensures { result ≡ need_of shadow thread }
{
    match shadow.state() {
        NumberedState::Virgin => Need::Nothing,
        NumberedState::Exclusive(owner) => {
            if owner == thread {
                Need::Nothing
            } else {
                Need::Fresh
            }
        }
        NumberedState::Shared(set) | NumberedState::SharedModified(set) => Need::Meet(set),
    }
}

/// The word after an access, and whether the access is reported as a race: a word is reported once. `set` is the number of the set
/// that the access needs. It has no effect if the access needs none.
#[inline]
pub fn advance(shadow: Shadow, thread: ThreadId, kind: Kind, set: u32) -> (Shadow, bool)
    requires { set < 2 ^ 30 }
    ensures state { result.0 ≡ advanced_to shadow thread kind set }
    ensures race { result.1 ≡ reports_race shadow (advanced_to shadow thread kind set) }
{
    match shadow.state() {
        NumberedState::Virgin => (Shadow::exclusive(thread), false),
        NumberedState::Exclusive(owner) => {
            if owner == thread {
                (shadow, false)
            } else {
                shared_by(kind, set)
            }
        }
        NumberedState::Shared(_) => shared_by(kind, set),
        NumberedState::SharedModified(old) => (Shadow::shared_modified(set), set == 0 && old != 0),
    }
}

// The word that an access of this kind makes a shared one, and whether that is reported.
#[inline]
fn shared_by(kind: Kind, set: u32) -> (Shadow, bool)
    requires { set < 2 ^ 30 }
    ensures state { result.0 ≡ shared_at kind set }
    ensures race { result.1 ≡ has_no_candidates (shared_at kind set) }
{
    match kind {
        Kind::Read => (Shadow::shared(set), false),
        Kind::Write => (Shadow::shared_modified(set), set == 0),
    }
}

/// With the set for each number, words go from state to state by the table of states, and are reported if it reports them.
#[tactic(auto, using(crate::proofs::Following::state_follows, crate::proofs::Following::race_follows, crate::proofs::Following::numbered_follows))]
pub fn a_numbered_state_follows_the_table()
    ensures state { (sets : List (List ℕ)) (s : NumberedState) (t : ℕ) (kind : Kind) (locks : List ℕ) (m : ℕ) → IsRefined sets (need_of s t) locks m
        → state_in sets (advanced_to s t kind m) ≡ advanced (state_in sets s) t kind locks }
    ensures race { (sets : List (List ℕ)) (s : NumberedState) (t : ℕ) (kind : Kind) (locks : List ℕ) (m : ℕ) → IsNumbered sets s → IsRefined sets (need_of s t) locks m
        → reports_race s (advanced_to s t kind m) ≡ reports (state_in sets s) (advanced (state_in sets s) t kind locks) }
    ensures numbered { (sets : List (List ℕ)) (s : NumberedState) (t : ℕ) (kind : Kind) (locks : List ℕ) (m : ℕ) → IsNumbered sets s → IsRefined sets (need_of s t) locks m
        → IsNumbered sets (advanced_to s t kind m) }
{}
