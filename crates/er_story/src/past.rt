//! `Past`, what one pass over the steps keeps of a word.
ghost use Rattle.std.specs.Prelude.{◌≡◌, ◌+◌, ◌<◌, ◌≤◌, ◌^◌, length, IfOk, OnOk};
ghost use Rattle.er_story.specs.Inner.Past.{fresh, accessed, past_after, past_at};
ghost use Rattle.er_story.specs.Story.{empties, same_state, has_none_left};
ghost use Rattle.er_model.specs.Table.{advanced, is_racy, reports, shared_by};

use crate::Made;
use crate::story::{Turn, WordStory};
use er_event::{Event, Kind, Lockset, Site, Step, ThreadId, Word, WordState};
use er_held::{Held, ThreadLocks};
use er_places::Place;
use er_trace::Trace;
use std::alloc::Global;
use std::marker::Model;

/// The state after an access by a thread that holds these locks for it.
pub(crate) fn advance(
    before: &WordState,
    thread: ThreadId,
    kind: Kind,
    locks: &Lockset,
) -> Made<WordState>
    ensures { IfOk result (λ after. after ≡ advanced before.now thread kind locks.now) }
{
    match before {
        WordState::Virgin => Ok(WordState::Exclusive(thread)),
        WordState::Exclusive(owner) if *owner == thread => Ok(WordState::Exclusive(thread)),
        WordState::Exclusive(_) => Ok(shared_by(kind, locks.copy()?)),
        WordState::Shared(candidates) => Ok(shared_by(kind, candidates.intersect(locks)?)),
        WordState::SharedModified(candidates) => {
            Ok(WordState::SharedModified(candidates.intersect(locks)?))
        }
    }
}

fn shared_by(kind: Kind, candidates: Lockset) -> WordState
    ensures { result ≡ shared_by kind candidates }
{
    match kind {
        Kind::Read => WordState::Shared(candidates),
        Kind::Write => WordState::SharedModified(candidates),
    }
}

fn same_state(one: &WordState, other: &WordState) -> bool
    ensures { result ≡ same_state one.now other.now }
{
    one == other
}

pub(crate) fn reports(before: &WordState, after: &WordState) -> bool
    ensures { result ≡ reports before.now after.now }
{
    is_racy(after) && !is_racy(before)
}

fn is_racy(state: &WordState) -> bool
    ensures { result ≡ is_racy state.now }
{
    matches!(state, WordState::SharedModified(candidates) if candidates.is_empty())
}

/// Whether the access between these states emptied the candidate set, or a second thread came by it without a lock.
pub(crate) fn empties(before: &WordState, after: &WordState) -> bool
    ensures { result ≡ empties before.now after.now }
{
    has_none_left(after) && !has_none_left(before)
}

// Whether several threads have used the word, and no lock is left.
fn has_none_left(state: &WordState) -> bool
    ensures { result ≡ has_none_left state.now }
{
    match state {
        WordState::Virgin | WordState::Exclusive(_) => false,
        WordState::Shared(left) | WordState::SharedModified(left) => left.is_empty(),
    }
}

/// What is known of a word, and how it came to be so since the word's last reuse.
#[derive(Drop)]
pub(crate) struct Past {
    pub(crate) state: WordState,
    pub(crate) accesses: u64,
    pub(crate) turns: Vec<Turn>,
}

impl Model for Past {
    ghost use Rattle.er_story.specs.Inner.Past.{PastView};

    ghost Value = { PastView };

    ghost view = { λ p. record { state = p.state; accesses = p.accesses; turns = p.turns.items } };
}

impl Past {
    fn new(alloc: Global) -> Past
        ensures { result ≡ fresh }
    {
        Past {
            state: WordState::Virgin,
            accesses: 0,
            turns: Vec::new(alloc),
        }
    }

    // Goes on by a step on this line, by a thread that holds this.
    fn follow(&mut self, alloc: Global, held: &Held, word: Word, line: u64, step: &Step) -> Made<()>
        requires { self.old.accesses < 2 ^ 63 }
        ensures { OnOk result (self.new ≡ past_after self.old word line held.now step.now.thread step.now.event) }
    {
        match step.event {
            Event::Access(kind, accessed, site) if accessed == word && !held.ignoring() => {
                self.access(alloc, held, line, step.thread, kind, site)?;
            }
            Event::Reuse(range) if range.contains(word) => *self = Past::new(alloc),
            _ => {}
        }
        Ok(())
    }

    // Goes on by an access on this line that counts.
    fn access(
        &mut self,
        alloc: Global,
        held: &Held,
        line: u64,
        thread: ThreadId,
        kind: Kind,
        site: Site,
    ) -> Made<()>
        requires { self.old.accesses < 2 ^ 63 }
        ensures { OnOk result (self.new ≡ accessed self.old held.now line thread kind site) }
    {
        let after = advance(&self.state, thread, kind, held.cover(kind))?;
        self.accesses += 1;
        if !same_state(&self.state, &after) {
            let turn = Turn {
                number: self.accesses,
                place: Place::of(alloc, held, line, thread, kind, site)?,
                state: after.copy()?,
                emptied: empties(&self.state, &after),
            };
            self.turns.push(turn)?;
        }
        self.state = after;
        Ok(())
    }

    /// What is told of the word, which the next step leaves in this state.
    pub(crate) fn told(self, word: Word, after: WordState) -> WordStory
        ensures { result ≡ record { word = word; before = self.state; after = after; accesses = self.accesses; turns = self.turns } }
    {
        WordStory {
            word,
            before: self.state,
            after,
            accesses: self.accesses,
            turns: self.turns,
        }
    }
}

/// What is known of a word after the first `end` steps.
pub(crate) fn past_of(alloc: Global, trace: &Trace, word: Word, end: usize) -> Made<Past>
    requires { end ≤ length trace.now.steps }
    ensures { IfOk result (λ past. past ≡ past_at trace.now word end) }
{
    let steps = trace.steps();
    let lines = trace.lines();
    prove!(steps.len() < 1 << 63);
    let mut locks = ThreadLocks::new(alloc);
    let mut past = Past::new(alloc);
    for at in 0..end {
        let step = &steps[at];
        past.follow(alloc, locks.get(step.thread), word, lines[at], step)?;
        locks.follow(alloc, step)?;
    }
    Ok(past)
}
