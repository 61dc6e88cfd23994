//! What threads do, and what they are answered.
ghost use Rattle.std.specs.Prelude.{◌≡◌, IfOk};

use crate::{Level, LockId, Lockset, PageRange, Site, ThreadId, Word};
use std::alloc::AllocError;

/// How a lock is held.
#[derive(Clone, Copy, Debug, PartialEq, Eq)]
pub enum Mode {
    /// It protects what the thread reads.
    Read,
    /// It protects what the thread reads and what it writes.
    Write,
}

/// What an access does.
#[derive(Clone, Copy, Debug, PartialEq, Eq)]
pub enum Kind {
    /// It reads the word.
    Read,
    /// It writes the word.
    Write,
}

/// What orders the steps of two threads and holds no lock.
#[derive(Clone, Copy, Debug, PartialEq, Eq)]
pub enum Sync {
    /// Starts the thread: what it has done so far happens before the steps of that thread.
    Start(ThreadId),
    /// Waits for the thread's end: the steps of that thread so far happen before what it does from now on.
    Join(ThreadId),
    /// Signals the object, as a thread does that releases a semaphore or stores with release order.
    Signal(LockId),
    /// Awaits the object: the earlier signals of it happen before what the thread does from now on.
    Await(LockId),
}

/// What a thread does in one step.
#[derive(Clone, Copy, Debug, PartialEq, Eq)]
pub enum Event {
    /// Takes the lock in the mode.
    Acquire(LockId, Mode),
    /// Gives up the lock, which it says to hold in the mode.
    Release(LockId, Mode),
    /// Reads or writes the word.
    Access(Kind, Word, Site),
    /// Puts the words to a new use.
    Reuse(PageRange),
    /// Opens a bracket in which accesses aren't counted.
    IgnoreOn,
    /// Closes the innermost one.
    IgnoreOff,
    /// Asks for the word's state.
    Show(Word),
    /// Goes to this interrupt level.
    Level(Level),
    /// Comes before or after other threads' steps in order. It is never refused, and locks and words don't see it.
    Sync(Sync),
}

/// One step of one thread.
#[derive(Clone, Copy, Debug, PartialEq, Eq)]
pub struct Step {
    /// The thread that takes the step.
    pub thread: ThreadId,
    /// What it does.
    pub event: Event,
}

/// What is known of a word.
#[derive(Debug, PartialEq, Eq, Drop)]
pub enum WordState {
    /// No access counts yet.
    Virgin,
    /// One thread alone has accessed the word.
    Exclusive(ThreadId),
    /// Several threads have read the word, and none has written it since the second came. The set has the locks that were held at
    /// each of these accesses.
    Shared(Lockset),
    /// Several threads have accessed the word, and one has written it since the second came.
    SharedModified(Lockset),
}

impl WordState {
    /// The same state again.
    pub fn copy(&self) -> Result<WordState, AllocError>
        ensures { IfOk result (λ copied. copied ≡ self.now) }
    {
        match self {
            WordState::Virgin => Ok(WordState::Virgin),
            WordState::Exclusive(thread) => Ok(WordState::Exclusive(*thread)),
            WordState::Shared(locks) => Ok(WordState::Shared(locks.copy()?)),
            WordState::SharedModified(locks) => Ok(WordState::SharedModified(locks.copy()?)),
        }
    }
}

/// What an accepted step is answered.
#[derive(Debug, PartialEq, Eq, Drop)]
pub enum Reply {
    /// A lock, reuse, ignore, level or order event took effect.
    Done,
    /// An access that reports nothing.
    Quiet,
    /// An access that reports a race.
    Race,
    /// An access inside an ignore bracket.
    Ignored,
    /// What a show found.
    State(WordState),
}
