//! Rules that keep races out of a report, and the texts that write them.
//!
//! Begin with [`Suppressions`], a list of rules in order. A [`Rule`] takes races by the site of the access or by its word, and the
//! first rule that takes a race is the one that counts it. Sites go by their names, or by patterns of names, since rules are written in another
//! text than the trace is. [`read_suppressions`] reads them from a text of either edition.
//!
//! What it promises, by the names of clauses: the rule that is found is the first that takes the race, as the definitions say
//! (`matching_rule`), and a push that found no memory changed nothing (`err`). Sites are looked up in a map, and words in a binary indexed tree
//! of how far the words of rules reach, so that many rules cost little more than a few. Patterns are tried one after another.
//! What a trace says of the program is not known here: rules that ask for it take no race by `matching_rule`. A text is its rules or has a fault, by its grammar
//! (`told`, `rules_or_fault`).
//!
//! ```
//! let mut suppressions = Suppressions::new(alloc);
//! suppressions.push(Rule::Site(None))?;
//! suppressions.push(Rule::Words(Some(WordSpan { first: word, last: word })))?;
//! // An access of that word at no site is for the first rule, and one at a site for the second.
//! assert_eq!(suppressions.matching_rule(None, word), Some(0));
//! assert_eq!(suppressions.matching_rule(Some("main.c:7"), word), Some(1));
//! ```
#![tactic(auto)]

pub use laws::rules_or_fault;
pub use patterns::pattern_takes;
pub use rules::{FactKind, Rule, Suppressions, WordSpan};
pub use texts::read_suppressions;

mod index;
mod laws;
mod patterns;
mod reach;
mod rules;
mod texts;

/// What was put into a list of rules, unless memory was refused.
type Put = Result<(), std::alloc::AllocError>;

/// What was read, unless a fault ended it.
type Done = Result<(), er_lines::ReadFault>;
