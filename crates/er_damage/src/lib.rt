//! What is damaged in a trace: a refused step, a lock that two threads hold at once, a last line without its LF, a missing `end`, and events
//! that are lost by the last comment.
//!
//! Begin with [`Inspector`]. It follows the steps of a trace, batch by batch, and knows the line of the first step that is refused and
//! that of the first step by which a lock is held twice. A recorder that works writes neither: a thread that takes a lock that another
//! holds waits for it. So either shows that the recording lacks steps, or has them in another order than the program took them. At the
//! end it makes the [`Damage`] of the trace of these and of how the text ended.
//!
//! What it promises, by the names of clauses: an inspector that stands for a recording's steps stands for the longer recording after
//! `follow` (`goes_on`), and then `damage` is what the definitions say of those steps and of the text (`told`). In a text without damage
//! no two threads hold one lock at once, one of them to write (`no_damage_means_exclusion`).
//!
//! It keeps its own account of what each thread holds and of how many threads hold each lock, and so needs no machine's answers. The
//! account costs memory by the threads and the locks, and a look at an access costs nothing.
#![tactic(auto)]

pub use damage::Damage;
pub use inspector::Inspector;
pub use laws::no_damage_means_exclusion;

mod counter;
mod damage;
mod inspector;
mod laws;
