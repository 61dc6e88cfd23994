//! The answers of a replay, kept small. A `Result<Reply, Refusal>` takes 72 bytes, since a state holds its locks in place; here an
//! answer takes 8, and each state of a show 56 more in a list beside.
ghost use Rattle.std.specs.Prelude.{◌≡◌, ◌<◌, ◌≤◌, ◌++◌, ◌∷◌, ◌↔◌, [], length, replicate, take, IsTrue, IsFalse, IsOk, IfOk, OnOk, OnErr, Ok, Some, slice_get, slice_set, MatchOption};
ghost use Rattle.er_journal.specs.AnswerList.{shown, is_state};
ghost use Rattle.er_journal.specs.Inner.Briefs.{IsBrief, KeepsStates};

use er_event::{NoRoom, Refusal, Reply, WordState};
use std::alloc::{AllocError, Global};
use std::marker::Model;

/// A view of one answer.
#[derive(Clone, Copy)]
pub enum Answer<'a> {
    /// A lock, reuse, ignore or level event took effect.
    Done,
    /// An access that reports nothing.
    Quiet,
    /// An access that reports a race.
    Race,
    /// An access inside an ignore bracket.
    Ignored,
    /// What a show found.
    State(&'a WordState),
    /// The step changed nothing.
    Refused(Refusal),
}

/// One answer in brief, where a show has the number of its state.
#[derive(Clone, Copy, Debug, PartialEq, Eq)]
enum Brief {
    Done,
    Quiet,
    Race,
    Ignored,
    Shown(u32),
    Refused(Refusal),
}

/// Answers in order, any of which can be looked up. Contracts see it as the list of what was answered.
#[derive(Drop)]
pub struct Answers {
    briefs: Vec<Brief>,
    states: Vec<WordState>,
}

impl Model for Answers {
    ghost use Rattle.std.specs.Prelude.{List, Result, length};
    ghost use Rattle.std.specs.List.{All};
    ghost use Rattle.er_event.specs.declared.refusals.Refusal.{Refusal};
    ghost use Rattle.er_event.specs.declared.steps.Reply.{Reply};
    ghost use Rattle.er_journal.specs.Inner.Briefs.{answers_of, HasState};

    ghost Value = { List (Result Reply Refusal) };

    ghost view = { λ a. answers_of a.states.items a.briefs.items };

    ghost invariant = { λ a. All (HasState (length a.states.items)) a.briefs.items };
}

impl Answers {
    /// No answers.
    #[tactic(auto, unfolding(crate::specs::Inner::Briefs::answers_of))]
    pub fn new(alloc: Global) -> Self
        ensures { result ≡ [] }
    {
        Answers {
            briefs: Vec::new(alloc),
            states: Vec::new(alloc),
        }
    }

    /// How many answers there are.
    #[tactic(auto, unfolding(crate::specs::Inner::Briefs::answers_of))]
    pub fn len(&self) -> usize
        ensures { result ≡ length self.now }
    {
        self.briefs.len()
    }

    /// Whether there are none.
    #[tactic(auto, unfolding(crate::specs::Inner::Briefs::answers_of))]
    pub fn is_empty(&self) -> bool
        ensures { IsTrue result ↔ (self.now ≡ []) }
    {
        self.briefs.is_empty()
    }

    /// Makes room for so many more answers. A show may still want memory for its state.
    pub fn reserve(&mut self, additional: usize) -> Result<(), AllocError>
        ensures { self.new ≡ self.old }
    {
        self.briefs.reserve(additional)
    }

    /// So many answers, each `Done` until it is set.
    #[tactic(auto, unfolding(crate::specs::Inner::Briefs::answers_of))]
    pub fn of_len(alloc: Global, len: usize) -> Result<Self, AllocError>
        ensures { IfOk result (λ answers. answers ≡ replicate len (Ok Reply.Done)) }
    {
        Ok(Answers {
            briefs: vec![in alloc; Brief::Done; len]?,
            states: Vec::new(alloc),
        })
    }

    /// Adds one answer.
    pub fn push(&mut self, answer: Result<Reply, Refusal>) -> Result<(), AllocError>
        ensures ok { OnOk result (self.new ≡ self.old ++ answer ∷ []) }
        ensures err { OnErr result (self.new ≡ self.old) }
    {
        self.briefs.reserve(1)?;
        let brief = brief_of(&mut self.states, answer)?;
        self.briefs.push_reserved(brief);
        Ok(())
    }

    /// Puts an answer in a place. Only a show's may want memory, for its state.
    pub fn set(&mut self, at: usize, answer: Result<Reply, Refusal>) -> Result<(), AllocError>
        requires { at < length self.old }
        ensures ok { OnOk result (self.new ≡ slice_set self.old at answer) }
        ensures err { OnErr result (self.new ≡ self.old) }
        ensures free { IsFalse (is_state answer) → IsOk result }
    {
        self.briefs[at] = brief_of(&mut self.states, answer)?;
        Ok(())
    }

    /// Keeps the first `len` answers alone.
    #[tactic(auto, unfolding(crate::specs::Inner::Briefs::answers_of))]
    pub fn truncate(&mut self, len: usize)
        ensures { self.new ≡ take len self.old }
    {
        self.briefs.truncate(len);
    }

    /// The answer at a place, if there is one.
    #[tactic(auto, unfolding(crate::specs::Inner::Briefs::answers_of))]
    pub fn get(&self, at: usize) -> Option<Answer<'_>>
        ensures { MatchOption result (length self.now ≤ at) (λ answer. slice_get self.now at ≡ Some (shown answer)) }
    {
        let brief = self.briefs.get(at)?;
        Some(match *brief {
            Brief::Done => Answer::Done,
            Brief::Quiet => Answer::Quiet,
            Brief::Race => Answer::Race,
            Brief::Ignored => Answer::Ignored,
            Brief::Shown(number) => Answer::State(&self.states[number as usize]),
            Brief::Refused(why) => Answer::Refused(why),
        })
    }
}

// The answer in brief. A show's state goes behind the others.
fn brief_of(
    states: &mut Vec<WordState>,
    answer: Result<Reply, Refusal>,
) -> Result<Brief, AllocError>
    ensures ok { IfOk result (λ brief. IsBrief states.new.items answer brief) }
    ensures kept { KeepsStates states.old.items states.new.items }
    ensures err { OnErr result (states.new.items ≡ states.old.items) }
    ensures free { IsFalse (is_state answer) → IsOk result }
{
    Ok(match answer {
        Ok(Reply::Done) => Brief::Done,
        Ok(Reply::Quiet) => Brief::Quiet,
        Ok(Reply::Race) => Brief::Race,
        Ok(Reply::Ignored) => Brief::Ignored,
        Ok(Reply::State(state)) => {
            let Ok(number) = u32::try_from(states.len()) else {
                return Err(AllocError);
            };
            states.push(state)?;
            Brief::Shown(number)
        }
        Err(why) => Brief::Refused(why),
    })
}

/// What a replay of a list of steps comes to.
#[derive(Drop)]
pub struct Outcome {
    /// The answers, one for each step before the stop.
    pub answers: Answers,
    /// Where the replay ended early, if it did.
    pub stopped: Option<Stopped>,
}

/// The end of a replay for want of room.
#[derive(Clone, Copy, Debug, PartialEq, Eq, Drop)]
pub struct Stopped {
    /// The place in the list, from 0, of the step that found no room.
    pub at: u64,
    /// What had no room.
    pub cause: NoRoom,
}
