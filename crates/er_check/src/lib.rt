//! Whether an explanation shows why an access is a race, for whoever trusts neither the report nor what made it.
//!
//! Begin with [`check_explanation`]. It takes a list of steps, a position in it and an [`Explanation`], and answers yes or no.
//!
//! What it promises, by the names of clauses: it says yes only if the explanation is one by the definitions (`explains`), and says yes to each that
//! is one, unless memory is refused (`accepts`). By the law `an_explanation_explains` of `er_explain` a step that has an explanation is answered with
//! a race.
//!
//! It searches for no explanation: it sees that no position before one that the explanation names would have served. That takes one pass back to the
//! start of the word's era and one forward, with a look at each pair for each access of the word after the joining. More pairs than the joining has
//! locks are refused there at once.
//!
//! ```
//! // The steps are `t1 write 0x1000` and `t2 write 0x1000`.
//! let explanation = Explanation { first: 0, join: 1, write: 1, uncovered: Vec::new(alloc) };
//! assert!(check_explanation(alloc, &steps, 1, &explanation)?);
//! assert!(!check_explanation(alloc, &steps, 0, &explanation)?);
//! ```
#![tactic(auto)]

pub use checking::check_explanation;
pub use er_journal::{Explanation, Uncovered};

mod checking;
