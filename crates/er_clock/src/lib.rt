//! Vector clocks: what each thread, lock and object knows of the threads' steps.
//!
//! Begin with [`Clocks`], the clocks of a list of steps. It goes on by one step at a time, and a thread's [`ThreadClock`] says which epochs
//! happen before what the thread does now.
//!
//! What it promises, by the names of clauses: clocks that stand for a list of steps stand for the longer list after one more step
//! (`goes_on`), where a refused step moves nothing; an error changes no count, and says which limit the step is beyond (`err`, `limit`).
//!
//! ```text
//! let mut clocks = Clocks::new(alloc);
//! clocks.follow(&Step { thread, event: Event::Sync(Sync::Signal(object)) }, true)?;
//! clocks.clock(other).covers(epoch)
//! ```
#![tactic(auto)]

pub use clock::{Epoch, Limit, NoTick};
pub use clocks::Clocks;
use std::alloc::AllocError;
pub use threads::ThreadClock;

// What it comes to that clocks change, for which memory may be refused.
type Put = Result<(), AllocError>;

// The same of a step, which may be beyond a limit, too.
type Moved = Result<(), NoTick>;

mod block;
mod clock;
mod clocks;
mod room;
mod rows;
mod table;
mod takers;
mod threads;
