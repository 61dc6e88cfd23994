//! Replay of recorded steps by several workers.
//!
//! Begin with [`replay_parallel`], which answers a list of steps with as many workers as are asked for. A [`ReplayConfig`] says in how
//! many shards the words are and how many sets of locks a worker keeps. A [`ReplayFault`] says why there are no answers. Each worker
//! enters a [`Gate`] for each of its shards before its first step. Tests use it to see that workers are at work at once.
//!
//! A [`Crew`] answers a list batch after batch: `take` returns the answers of a batch that aren't the usual ones, each with its position
//! ([`Unusual`]). It stands for the steps that it has taken (`HaveAnswered`), and its answers are those of the definitions for the whole
//! list so far (`answers`), for any number of workers and shards. If it is asked to, it also returns each access that changed its word's
//! state (`noted`).
//!
//! A worker has a machine of its own, which answers the steps of the worker's shards and passes all others. It shares nothing with another worker, so
//! its sets of locks are its own, too.
//!
//! What it promises, by the names of clauses: where there is an outcome nothing stopped (`stopped`), and the answers are those that the
//! definitions give to the list, whatever the numbers of workers and shards (`answers`). The fault that the table is full comes only
//! if some step of the list asks for a set of locks (`table_full`).
//!
//! ```text
//! let config = ReplayConfig::new(8, 1_048_576).ok_or("out of the limits")?;
//! let outcome = replay_parallel(rt, alloc, config, steps, 4, &OpenGate)?;
//! ```
//!
//! A crew answers one batch while its caller reads the next:
//!
//! ```text
//! let mut crew = Crew::new(rt, alloc, config, 4)?;
//! let (unusual, read) = thread::join_mut(rt, &mut || crew.take(rt, steps, false, &OpenGate), &mut || read_more(&mut next));
//! ```
#![tactic(auto)]

pub use config::{ReplayConfig, ReplayFault};
pub use crew::Crew;
pub use er_gate::{Gate, OpenGate, PairGate};
pub use replay::replay_parallel;
pub use worker::{Unusual, usual_answer};

mod config;
mod crew;
mod replay;
mod worker;
