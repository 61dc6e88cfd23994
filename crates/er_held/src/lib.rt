//! What one thread holds: its locks, each in a mode, its interrupt level and its open ignore brackets.
//!
//! Begin with [`Held`]. It is seen as the holdings of the model: the locks that are held in any mode, those that are held in
//! write mode, the level, whose locks are among both, and the depth of the brackets. [`ThreadLocks`] keeps the holdings of all
//! threads as steps go by.
//!
//! What it promises, by the names of clauses: a call is refused exactly where and why the model refuses the event (`refused`,
//! `accepted`), what it makes of the holdings is what the model makes of them (`ok`), a call that failed changed nothing
//! (`err`), and what gives up a lock, a bracket or a level takes no memory (`free`).
//!
//! ```text
//! let mut held = Held::new(alloc);
//! held.acquire(lock, Mode::Read)?;
//! held.release(lock, Mode::Write) // Err(Refusal::WrongMode), and the lock is still held
//! ```
#![tactic(auto)]

pub use holding::Held;
pub use thread_locks::ThreadLocks;

mod holding;
mod thread_locks;
