//! One shadowed word in 32 bits, and the four states that its accesses lead it through.
//!
//! Begin with [`Shadow`]: two bits of state and thirty of a number, a thread's or a set's. Contracts see it as its
//! [`NumberedState`]. [`need`] says which set of locks an access refines the word to, and [`advance`] makes the word's next state of
//! that set's number.
//!
//! What it promises, by the names of clauses: the bits are those of the format (`bits_of`), an access needs what the table of
//! states says (`need_of`), and leads where it says (`state`, `race`). `a_numbered_state_follows_the_table` ties the numbers to the
//! sets that they stand for.
//!
//! ```text
//! let shadow = Shadow::exclusive(first);
//! match need(shadow, second, Kind::Write) {
//!     Need::Nothing => ..
//!     Need::Fresh => advance(shadow, second, Kind::Write, number_of_held_set),
//!     Need::Meet(candidates) => ..
//! }
//! ```
#![tactic(auto)]

pub use shadow::Shadow;
pub use states::{Need, NumberedState};
pub use table::{a_numbered_state_follows_the_table, advance, need};

mod shadow;
mod states;
mod table;
