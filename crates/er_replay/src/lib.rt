//! Replay of recorded steps by one machine.
//!
//! Begin with [`Machine`]: it has each thread's holdings and each word's state, and `step` answers one more step. [`run`] takes the
//! steps of a list in turn and stops where there is no room for one.
//!
//! What it promises, by the names of clauses: a machine that stands for a list of steps answers the next step as the definitions
//! answer it at that list's end (`answer`), and then stands for the longer list (`goes_on`). Where the definitions refuse the
//! step, the answer is that refusal and no other (`refused`); any other refusal says that there was no room, of a kind that the
//! step may want (`room`, `table_full`, `ignored`). After a refusal the machine stands for the list that it stood for (`err`). A
//! run's answers are those of the list up to its stop (`answers`). The stop is at a step that the definitions don't refuse, or at the first
//! step if there is no memory for the list of answers (`cause`). A caller that takes the steps one by one finds a want of room by
//! [`no_room`], and what a thread holds by [`Machine::held`].
//!
//! A worker whose machine keeps only some of the words calls [`Machine::pass`] at a step on any other word: `pass` follows the holdings
//! and leaves the words. Such a machine may stand for no list. So `step` also says what it answers and changes by the machine's own
//! holdings and states (`answered`, `holdings`, `states`).
//!
//! An [`OwnMachine`] has its sets of locks for itself, and takes no table: where no other machine meets the same sets, each set is kept once.
//!
//! [`Threads`] has the threads' holdings alone, for a machine of another analysis.
//!
//! [`Machine::take`] takes a step as `step` does, but answers it by one byte, of which [`Machine::in_full`] makes the whole answer where one is wanted
//! (`in_full`). It says also whether the step may have changed a word's state. If it says no, each word has the state that it had (`unchanged`, and
//! `same` by the machine's own states).
//!
//! ```text
//! let table = LocksetTable::new(alloc, 1_048_576)?;
//! let mut machine = Machine::new(alloc, &table)?;
//! machine.step(rt, Step { thread, event: Event::Access(Kind::Write, word, site) })?;
//! let outcome = run(rt, alloc, &mut machine, steps);
//! ```
#![tactic(auto)]

pub use machine::{Brief, Machine, MachineIn, OwnMachine};
pub use runs::{no_room, run};
pub use threads::Threads;

mod machine;
mod runs;
mod threads;
