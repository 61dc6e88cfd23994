//! A word's states, and what an access in them needs.
use er_event::ThreadId;

/// What is known of a word, with a number in place of the set of locks.
#[derive(Clone, Copy, Debug, PartialEq, Eq)]
pub enum NumberedState {
    /// No access counts yet.
    Virgin,
    /// One thread alone has accessed the word.
    Exclusive(ThreadId),
    /// Several threads have read the word: the number of the locks that were held at each of these accesses.
    Shared(u32),
    /// Several threads have accessed the word, and one has written it.
    SharedModified(u32),
}

/// Which set of locks an access refines a word to.
#[derive(Clone, Copy, Debug, PartialEq, Eq)]
pub enum Need {
    /// None.
    Nothing,
    /// The thread's locks.
    Fresh,
    /// The thread's locks among the set of this number.
    Meet(u32),
}
