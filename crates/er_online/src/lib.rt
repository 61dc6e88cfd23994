//! A shard that answers accesses as they come and keeps nothing of them but its shadow words: for programs that run for days.
//!
//! Begin with [`Shard`]: `access` takes a counted access with the locks that cover it, `reset` a reuse, and `state_of` returns what is known of a
//! word. Contracts see a shard as the list of the calls that it took. That list exists in contracts only, so memory grows by the words alone.
//!
//! What it promises, by the names of clauses: an accepted call lengthens the list by exactly itself (`taken`), its answer is the one that the
//! definitions give of the list (`reply`), a refused call leaves all as it was (`err`), and the words have the states that the definitions give of
//! the list (`state`). An access that changed no word's state says so (`settled`), and may be left out when it comes again
//! (`settled_accesses_may_be_left_out`).
//!
//! ```text
//! let mut shard = Shard::new(alloc, 1_048_576)?;
//! let noted = shard.access(thread, Kind::Write, word, held.write_held())?;
//! shard.reset(range);
//! ```
#![tactic(auto)]

pub use calls::ShardCall;
pub use er_shadow::Noted;
pub use laws::settled_accesses_may_be_left_out;
pub use shard::{Shard, Spanned};

mod calls;
mod history;
mod laws;
mod shard;
