//! What is written down of a run: the answers of a replay, the explanation of a race, the journal of a shard, the calls of a seat.
//!
//! Begin with [`Answers`], what a replay answered, step by step, and with [`Entry`] and [`Call`], what shards and seats keep.
//! `specs/Journals` says when a journal is legal, and `specs/Merges` when calls and journals are parts of one run.
//!
//! What it promises: answers are the list of what was answered, and a call that found no memory changed nothing (`err`); a reply in
//! one byte is the reply; in a merge of legal journals and seats each reply is the one that the whole list gives (the law
//! `a_merge_is_legal`).
//!
//! ```
//! let mut answers = Answers::new(alloc);
//! answers.push(Ok(Reply::Quiet))?;
//! answers.push(Err(Refusal::NotHeld))?;
//! if let Some(Answer::Refused(why)) = answers.get(1) {
//!     println!(rt; "{why}")?;
//! }
//! ```
#![tactic(auto)]

pub use answers::{Answer, Answers, Outcome, Stopped};
pub use calls::Call;
pub use entries::{Entry, Stamp};
pub use explanations::{Explanation, Uncovered};
pub use laws::a_merge_is_legal;
pub use locks::HeldLocks;
pub use replies::BriefReply;
pub use tickets::Ticket;

mod accesses;
mod answers;
mod calls;
mod entries;
mod explanations;
mod laws;
mod locks;
mod replies;
mod tickets;
