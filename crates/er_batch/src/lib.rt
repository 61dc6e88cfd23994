//! What replays of every kind share: what they are asked for, who sees them, what they come to, and the pass that has the steps of a text
//! answered.
//!
//! Begin with [`analyse`]. It reads a text batch after batch, has each batch answered by an [`Analyst`], and forgets it. The lockset rule is
//! one, by one worker ([`LocksetAnalyst`]) or by several ([`CrewAnalyst`]), `er_unordered` has another, and `er_run` one that looks for damage.
//! A [`Pair`] of two is one too.
//!
//! What it promises, by the name of its clause: an analyst that stands for no steps before the pass stands for all steps of the text behind it
//! (`answered`), and a fault is the text's first (`fault`).
//!
//! ```text
//! let lockset = LocksetAnalyst::new(alloc, &rules, &Options::usual())?;
//! let found = analyse(&rt, alloc, &mut reader, &ByText, &Options::usual(), 1, lockset, &mut Unwatched)?;
//! let report = found.analyst.finish();
//! ```
//!
//! [`Options`] says how a replay is run, a [`Watch`] sees how far it has come, and a [`Verdict`] is what it comes to.
#![tactic(auto)]

pub use analyst::{Analyst, Answered, Pair};
pub use answering::{answer_batch, has_room, is_plain};
pub use crew::CrewAnalyst;
pub use lockset::LocksetAnalyst;
pub use options::Options;
pub use passes::{Analysed, analyse};
pub use verdict::Verdict;
pub use watching::{Progress, Unwatched, Watch};

mod analyst;
mod answering;
mod crew;
mod lockset;
mod options;
mod passes;
mod verdict;
mod watching;
