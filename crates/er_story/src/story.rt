//! What a story says.

use er_event::{Lockset, Refusal, Reply, Step, Word, WordState};
use er_places::Place;
use std::marker::Model;

/// A counted access that changed what is known of its word.
#[derive(Drop)]
pub struct Turn {
    /// Which of the word's counted accesses since its last reuse it is, from 1.
    pub number: u64,
    /// Where it stood, and what its thread held.
    pub place: Place,
    /// The word's state after it.
    pub state: WordState,
    /// Whether it emptied the word's candidate set, or was the first access of a second thread, which held no lock.
    pub emptied: bool,
}

/// The story of one step.
#[derive(Drop)]
pub struct Story {
    /// The line of the trace.
    pub line: u64,
    /// The step.
    pub step: Step,
    /// What it is answered.
    pub answer: Result<Reply, Refusal>,
    /// The locks that its thread held before it, in any mode.
    pub held: Lockset,
    /// Those that it held in write mode.
    pub write_held: Lockset,
    /// What happened to its word, if it accesses or shows one.
    pub word: Option<WordStory>,
}

/// What happened to the word of a step. Contracts see it as a `WordTale`.
#[derive(Drop)]
pub struct WordStory {
    /// The word.
    pub word: Word,
    /// Its state before the step.
    pub before: WordState,
    /// Its state after the step.
    pub after: WordState,
    /// How many accesses of it counted before the step, since its last reuse.
    pub accesses: u64,
    /// Those of them that changed its state, in order.
    pub turns: Vec<Turn>,
}

impl Model for WordStory {
    ghost use Rattle.er_story.specs.Tale.{WordTale};

    ghost Value = { WordTale };

    ghost view = { λ s. record { word = s.word; before = s.before; after = s.after; accesses = s.accesses; turns = s.turns.items } };
}
