//! The machine: every thread's holdings and every word's state.
ghost use Rattle.std.specs.Prelude.{◌≡◌, ◌⊎◌, ◌<◌, ◌≤◌, ◌++◌, ◌∷◌, [], ◌&&◌, ℕ, true, false, List, IsTrue, IsFalse, IsOk, IsErr, IfOk, IfErr, IsErrOf, MatchResult, OnOk, OnErr, Ok, Err, None, Some};
ghost use Rattle.er_event.specs.declared.steps.Event.{Event as Events};
ghost use Rattle.er_event.specs.declared.steps.Step.{Step as Steps};
ghost use Rattle.er_event.specs.declared.steps.WordState.{WordState as WordStates};
ghost use Rattle.er_held.specs.ThreadLocks.{changes_holdings};
ghost use Rattle.er_model.specs.Answers.{answer_next, state_end};
ghost use Rattle.er_model.specs.Following.{answered, marked, replied, state_after};
ghost use Rattle.er_model.specs.Holdings.{refused_by, after_step, holdings_end};
ghost use Rattle.er_model.specs.Table.{moved};
ghost use Rattle.er_journal.specs.AnswerList.{is_state};
ghost use Rattle.er_model.specs.Events.{is_show};
ghost use Rattle.er_replay.specs.Wants.{is_access, asks_by, may_want, wants_memory};
ghost use Rattle.er_table.specs.Sets.{most_sets};

use crate::threads::Threads;
use er_event::{Event, Kind, Refusal, Reply, Step, ThreadId, Word, WordState};
use er_held::Held;
use er_keys::HashKeys;
use er_shadow::{OwnWords, ShadowMap, Words};
use er_table::{Grow, LocksetTable, Owned, Shared, Store};
use std::alloc::{AllocError, Global};
use std::marker::Model;

/// What an accepted step is answered, in one byte: a [`Reply`] has room for the state that a show finds.
#[derive(Clone, Copy, Debug, PartialEq, Eq)]
pub enum Brief {
    /// A lock, reuse, ignore, level or order event took effect.
    Done,
    /// An access that reports nothing.
    Quiet,
    /// One that reports nothing and is known to be the first of its word, or the first since its last reuse.
    First,
    /// An access that reports a race.
    Race,
    /// An access inside an ignore bracket.
    Ignored,
    /// A show, which finds the state of its word.
    Shown,
}

/// Each thread's holdings and each word's state.
#[derive(Drop)]
pub struct MachineIn<S: Store> {
    threads: Threads,
    words: Words<S>,
}

/// A machine that shares its sets of locks by a table, which may make it wait.
pub type Machine<'t> = MachineIn<Shared<'t>>;

/// A machine that has its sets of locks for itself, and waits for nobody.
pub type OwnMachine = MachineIn<Owned>;

impl<S: Store> Model for MachineIn<S> {
    ghost use Rattle.er_replay.specs.Standing.{Replayed};

    ghost Value = { Replayed };

    ghost view = { λ m. record { threads = m.threads; words = m.words } };
}

impl<'t> MachineIn<Shared<'t>> {
    ghost use Rattle.er_replay.specs.Standing.{Stands};

    /// A machine that has taken no step. The sets of locks that its words need go into the table. Whoever chooses the pages that are accessed,
    /// or the threads that take locks, can make it slow: see [`keyed`](Machine::keyed).
    pub fn new(alloc: Global, table: &'t LocksetTable) -> Result<Machine<'t>, AllocError>
        ensures { IfOk result (λ machine. Stands machine []) }
    {
        Machine::keyed(alloc, table, HashKeys::KNOWN)
    }

    /// A machine that has taken no step, and finds each page and each thread by these keys. The sets of locks that its words need go into the table.
    pub fn keyed(
        alloc: Global,
        table: &'t LocksetTable,
        keys: HashKeys,
    ) -> Result<Machine<'t>, AllocError>
        ensures { IfOk result (λ machine. Stands machine []) }
    {
        Ok(MachineIn::over(alloc, ShadowMap::keyed(alloc, table, keys)?, keys))
    }
}

impl MachineIn<Owned> {
    ghost use Rattle.er_replay.specs.Standing.{Stands};

    /// A machine that has taken no step, whose words may need `max_sets` sets of locks. It finds each page, thread and set by these keys.
    pub fn keyed(alloc: Global, max_sets: u32, keys: HashKeys) -> Result<OwnMachine, AllocError>
        requires few { max_sets ≤ most_sets }
        ensures { IfOk result (λ machine. Stands machine []) }
    {
        Ok(MachineIn::over(alloc, OwnWords::keyed(alloc, max_sets, keys)?, keys))
    }
}

impl<S: Store> MachineIn<S> {
    ghost use Rattle.er_replay.specs.Standing.{holding, states, state_shown, in_full, Stands, found_no_room, IsFirst};
    ghost use Rattle.er_shadow.specs.Shadows.{states as states_among};

    fn over(alloc: Global, words: Words<S>, keys: HashKeys) -> MachineIn<S>
        requires virgin { (w : ℕ) → states_among words w ≡ WordStates.Virgin }
        ensures { Stands result [] }
    {
        MachineIn {
            threads: Threads::new(alloc, keys),
            words,
        }
    }

    /// Takes one step and says what it is answered.
    pub fn step<R>(&mut self, rt: &R, step: Step) -> Result<Reply, Refusal>
    where
        S: Grow<R>,
        ensures answer { (past : List Steps) → Stands self.old past → IsFalse (found_no_room result) → result ≡ answer_next past step }
        ensures goes_on { (past : List Steps) → Stands self.old past → IsFalse (found_no_room result) → Stands self.new (past ++ step ∷ []) }

        // After any refusal the machine stands for the lists that it stood for.
        ensures err { (past : List Steps) → Stands self.old past → OnErr result (Stands self.new past) }

        // Where the definitions refuse the event, the answer is that refusal and no other. Any other refusal says that there was no
        // room, of a kind that the event may want with these holdings and states.
        ensures refused { (why : Refusal) → refused_by (holding self.old step.thread) step.event ≡ Some why → result ≡ Err why }
        ensures room { refused_by (holding self.old step.thread) step.event ≡ None → IfErr result (λ why. IsTrue (may_want (holding self.old step.thread) (states self.old) step.thread step.event why)) }
        ensures table_full { IsErrOf result Refusal.TableFull → IsTrue (asks_by (holding self.old step.thread) (states self.old) step.thread step.event) }
        ensures ignored { 0 < (holding self.old step.thread).depth → IsTrue (is_access step.event) → IsOk result }

        // A show alone is answered with a state, and changes nothing.
        ensures shows { IsTrue (is_state result) → IsTrue (is_show step.event) }
        ensures still { IsTrue (is_show step.event) → (past : List Steps) → Stands self.old past → Stands self.new past }

        // The same by the machine's own holdings and states, for one that stands for no list because it has passed steps.
        ensures answered { IsFalse (found_no_room result) → result ≡ answered (holding self.old step.thread) (states self.old) step }
        ensures holdings { IsFalse (found_no_room result) → (t : ℕ) → holding self.new t ≡ after_step (holding self.old t) t step }
        ensures states { IsFalse (found_no_room result) → (w : ℕ) → states self.new w ≡ state_after (holding self.old step.thread) (states self.old w) w step }
    {
        let taken = &step;
        let (brief, _changed) = self.take(rt, *taken);
        self.in_full(taken, brief)
    }

    /// Takes one step as `step` does, but answers it in brief, and a show always. [`in_full`](Machine::in_full) then gives the whole answer. Returns
    /// also whether the step may have changed a word's state: `true` at each reuse, and at an access that changed what stands for its word, `false`
    /// at any other step.
    // Two loops take steps. A call at each step would add 3 % to a replay.
    #[inline(always)]
    pub fn take<R>(&mut self, rt: &R, step: Step) -> (Result<Brief, Refusal>, bool)
    where
        S: Grow<R>,
        ensures answer { (past : List Steps) → Stands self.old past → IsFalse (found_no_room result.0) → in_full (states self.new) step.event result.0 ≡ answer_next past step }
        ensures goes_on { (past : List Steps) → Stands self.old past → IsFalse (found_no_room result.0) → Stands self.new (past ++ step ∷ []) }
        ensures unchanged { (past : List Steps) → Stands self.old past → IsFalse (found_no_room result.0) → result.1 ≡ false → (w : ℕ) → state_end (past ++ step ∷ []) w ≡ state_end past w }

        // After any refusal the machine stands for the lists that it stood for.
        ensures err { (past : List Steps) → Stands self.old past → OnErr result.0 (Stands self.new past) }

        // As with `step`, the definitions' refusals come, and otherwise only a want of room.
        ensures refused { (why : Refusal) → refused_by (holding self.old step.thread) step.event ≡ Some why → result.0 ≡ Err why }
        ensures room { refused_by (holding self.old step.thread) step.event ≡ None → IfErr result.0 (λ why. IsTrue (may_want (holding self.old step.thread) (states self.old) step.thread step.event why)) }
        ensures table_full { IsErrOf result.0 Refusal.TableFull → IsTrue (asks_by (holding self.old step.thread) (states self.old) step.thread step.event) }
        ensures ignored { 0 < (holding self.old step.thread).depth → IsTrue (is_access step.event) → IsOk result.0 }

        // A show alone is answered with a state, and changes nothing.
        ensures shows { result.0 ≡ Ok Brief.Shown → IsTrue (is_show step.event) }
        ensures still { IsTrue (is_show step.event) → (past : List Steps) → Stands self.old past → Stands self.new past }

        // The same by the machine's own holdings and states, for one that stands for no list because it has passed steps.
        ensures answered { IsFalse (found_no_room result.0) → in_full (states self.new) step.event result.0 ≡ answered (holding self.old step.thread) (states self.old) step }
        ensures holdings { IsFalse (found_no_room result.0) → (t : ℕ) → holding self.new t ≡ after_step (holding self.old t) t step }
        ensures states { IsFalse (found_no_room result.0) → (w : ℕ) → states self.new w ≡ state_after (holding self.old step.thread) (states self.old w) w step }
        ensures same { result.1 ≡ false → (w : ℕ) → states self.new w ≡ states self.old w }

        // An access that is answered so is the first that counts of its word since its last reuse.
        ensures first { result.0 ≡ Ok Brief.First → IsFirst (states self.old) (marked (holding self.old step.thread) step.thread step.event) }
    {
        self.follow(rt, step)
    }

    /// The whole answer to the step that was taken last, if this is its answer in brief. Only a show takes memory: where there is none, the answer
    /// says so.
    #[inline(never)]
    pub fn in_full(&self, step: &Step, brief: Result<Brief, Refusal>) -> Result<Reply, Refusal>
        ensures { (result ≡ in_full (states self.now) step.now.event brief) ⊎ ((brief ≡ Ok Brief.Shown) × (result ≡ Err Refusal.OutOfMemory)) }
    {
        match brief {
            Ok(Brief::Done) => Ok(Reply::Done),
            Ok(Brief::Quiet | Brief::First) => Ok(Reply::Quiet),
            Ok(Brief::Race) => Ok(Reply::Race),
            Ok(Brief::Ignored) => Ok(Reply::Ignored),
            Ok(Brief::Shown) => self.shown(step.event),
            Err(why) => Err(why),
        }
    }

    /// Takes what a step makes of its thread's holdings, and leaves every word as it is: for a step whose word another machine keeps. A
    /// step that the definitions refuse changes nothing. The only error is that there is no memory, which changes nothing either.
    // A worker of a parallel replay takes each access of the others by it, where it does nothing.
    #[inline(always)]
    pub fn pass(&mut self, step: Step) -> Result<(), AllocError>
        ensures holdings { OnOk result ((t : ℕ) → holding self.new t ≡ after_step (holding self.old t) t step) }
        ensures states { (w : ℕ) → states self.new w ≡ states self.old w }
        ensures err { OnErr result ((t : ℕ) → holding self.new t ≡ holding self.old t) }

        // Only a step that changes its thread's holdings may find no memory.
        ensures memory { IsErr result → (refused_by (holding self.old step.thread) step.event ≡ None) × IsTrue (changes_holdings step.event && wants_memory step.event) }
    {
        let Step { thread, event } = step;
        match event {
            Event::Access(..) | Event::Reuse(_) | Event::Show(_) | Event::Sync(_) => Ok(()),
            _ => match self.threads.change(thread, event) {
                Ok(()) => Ok(()),
                Err(Refusal::OutOfMemory) => Err(AllocError),
                Err(_) => Ok(()),
            },
        }
    }

    // What a step does, by the machine's own holdings and states. Split for the prover.
    #[inline(always)]
    fn follow<R>(&mut self, rt: &R, step: Step) -> (Result<Brief, Refusal>, bool)
    where
        S: Grow<R>,
        ensures answer { IsFalse (found_no_room result.0) → in_full (states self.new) step.event result.0 ≡ answered (holding self.old step.thread) (states self.old) step }
        ensures holdings { IsFalse (found_no_room result.0) → (t : ℕ) → holding self.new t ≡ after_step (holding self.old t) t step }
        ensures states { IsFalse (found_no_room result.0) → (w : ℕ) → states self.new w ≡ state_after (holding self.old step.thread) (states self.old w) w step }
        ensures same { result.1 ≡ false → (w : ℕ) → states self.new w ≡ states self.old w }
        ensures first { result.0 ≡ Ok Brief.First → IsFirst (states self.old) (marked (holding self.old step.thread) step.thread step.event) }
        ensures same_holdings { OnErr result.0 ((t : ℕ) → holding self.new t ≡ holding self.old t) }
        ensures same_states { OnErr result.0 ((w : ℕ) → states self.new w ≡ states self.old w) }
        ensures refused { (why : Refusal) → refused_by (holding self.old step.thread) step.event ≡ Some why → result.0 ≡ Err why }
        ensures room { refused_by (holding self.old step.thread) step.event ≡ None → IfErr result.0 (λ why. IsTrue (may_want (holding self.old step.thread) (states self.old) step.thread step.event why)) }
    {
        let Step { thread, event } = step;
        match event {
            Event::Access(kind, word, _) => match self.access_noting(rt, thread, kind, word) {
                Ok((brief, changed)) => (Ok(brief), changed),
                Err(why) => (Err(why), false),
            },
            Event::Reuse(range) => {
                self.words.reset(range);
                (Ok(Brief::Done), true)
            }
            Event::Show(_) => (Ok(Brief::Shown), false),
            Event::Sync(_) => (Ok(Brief::Done), false),
            // An acquire and a release are built again, so that the compiler knows which event `change` gets, and tests for it only once.
            Event::Acquire(lock, mode) => {
                brief_of(self.threads.change(thread, Event::Acquire(lock, mode)))
            }
            Event::Release(lock, mode) => {
                brief_of(self.threads.change(thread, Event::Release(lock, mode)))
            }
            Event::IgnoreOn | Event::IgnoreOff | Event::Level(_) => {
                brief_of(self.threads.change(thread, event))
            }
        }
    }

    // The state that a show asks for.
    fn shown(&self, event: Event) -> Result<Reply, Refusal>
        ensures { (result ≡ Ok (Reply.State (state_shown (states self.now) event))) ⊎ (result ≡ Err Refusal.OutOfMemory) }
    {
        let Event::Show(word) = event else {
            return Ok(Reply::State(WordState::Virgin));
        };
        match self.words.state_of(word) {
            Ok(state) => Ok(Reply::State(state)),
            Err(_) => Err(Refusal::OutOfMemory),
        }
    }

    // An access, which isn't counted while its thread ignores, and whether it changed its word.
    #[inline(always)]
    fn access_noting<R>(
        &mut self,
        rt: &R,
        thread: ThreadId,
        kind: Kind,
        word: Word,
    ) -> Result<(Brief, bool), Refusal>
    where
        S: Grow<R>,
        ensures reply { IfOk result (λ answer. (now : ℕ → WordStates) (event : Events) → in_full now event (Ok answer.0) ≡ Ok (replied (holding self.old thread) (states self.old) thread (Event.Access kind word 0))) }
        ensures ok { OnOk result ((w : ℕ) → states self.new w ≡ moved (states self.old w) w (marked (holding self.old thread) thread (Event.Access kind word 0))) }
        ensures same { IfOk result (λ answer. answer.1 ≡ false → (w : ℕ) → states self.new w ≡ states self.old w) }
        ensures err { OnErr result ((w : ℕ) → states self.new w ≡ states self.old w) }
        ensures first { IfOk result (λ answer. answer.0 ≡ Brief.First → IsFirst (states self.old) (marked (holding self.old thread) thread (Event.Access kind word 0))) }
        ensures threads { self.new.threads ≡ self.old.threads }
        ensures room { IfErr result (λ why. IsTrue (may_want (holding self.old thread) (states self.old) thread (Event.Access kind word 0) why)) }
    {
        let held = self.threads.get(thread);
        if held.ignoring() {
            return Ok((Brief::Ignored, false));
        }
        let locks = held.cover(kind);
        // Without this a full table would refuse an access of a word that has no candidates left. No clause sees that, but tests/probe/steps.txt.
        // A return in each arm: if one of them computed the answer from the flag, a replay would test both once more.
        match self.words.access_quickly(thread, word, kind, locks) {
            Some(true) => return Ok((Brief::First, true)),
            Some(false) => return Ok((Brief::Quiet, false)),
            None => {}
        }
        let noted = self.words.access_noting(rt, thread, word, kind, locks)?;
        let brief = if noted.is_race {
            Brief::Race
        } else {
            Brief::Quiet
        };
        Ok((brief, noted.has_changed))
    }

    /// Each few steps reads the states of the words that the next few access, so that they come from memory side by side. `at` is the
    /// place of the step that is answered next. It only saves time, and a caller that leaves it out gets the same answers.
    #[inline(always)]
    pub fn look_ahead(&mut self, steps: &[Step], at: usize)
        ensures { self.new ≡ self.old }
    {
        if at % ShadowMap::AHEAD == 0 {
            let end = at.saturating_add(ShadowMap::AHEAD).min(steps.len());
            self.words.look_ahead(&steps[at.min(end)..end]);
        }
    }

    /// What a thread holds after the steps so far.
    pub fn held(&self, thread: ThreadId) -> &Held
        ensures past { (past : List Steps) → Stands self.now past → result.now ≡ holdings_end past thread }

        // The same of the machine's own holdings, for one that stands for no list because it has passed steps.
        ensures own { result.now ≡ holding self.now thread }
    {
        self.threads.get(thread)
    }

    /// What is known of a word.
    pub fn state_of(&self, word: Word) -> Result<WordState, AllocError>
        ensures { (past : List Steps) → Stands self.now past → IfOk result (λ state. state ≡ state_end past word) }
    {
        self.words.state_of(word)
    }
}

// The answer in brief to a change of a thread's holdings, and that no word has changed.
#[inline(always)]
fn brief_of(done: Result<(), Refusal>) -> (Result<Brief, Refusal>, bool)
    ensures { MatchResult done (λ _. result ≡ (Ok Brief.Done, false)) (λ why. result ≡ (Err why, false)) }
{
    match done {
        Ok(()) => (Ok(Brief::Done), false),
        Err(why) => (Err(why), false),
    }
}
