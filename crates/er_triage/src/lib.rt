//! What else reports are good for: rules that take their races, rules that took none, and their first races alone.
//!
//! Begin with [`triage`]. It does with the reports of a trace what [`Wishes`] ask for. [`known_races`] goes over the lines of the reports and
//! makes a rule for each race that no rule before it takes: by the site of an access, or by its word if it has no site, and by the words of
//! a reuse. [`known_races_text`] is a suppression text of these rules. [`unused_rules_text`] names the rules that took no race of any report,
//! [`take_by_facts`] takes races by what a trace says of the program, [`keep_first_races`] leaves the lines of the other races out, and
//! [`append_rules`] puts the rules of several files together.
//!
//! What it promises, by the names of clauses: each race of each report is taken by one of the rules (`taken`), and there is no rule but
//! those that the races ask for (`rules`). A rule's comment says how many races of all reports it takes, and the first of them (`counted`). If
//! the text is within the limit and the names are those of a trace, the rules that are written are those that are read again
//! (`written_rules_are_read_back`). The texts are defined in `specs/Texts`, and the first races in `specs/First`.
//!
//! ```
//! let known = known_races(alloc, &replayed.reports, trace.names())?;
//! let text = known_races_text(alloc, &known, trace.names())?;
//! // A run of `t1 write 0x1000 a.c:1` and `t2 write 0x1000 a.c:1` on lines 2 and 3 has this rule, below a comment:
//! // site a.c:1
//! ```
#![tactic(auto)]

pub use facts::take_by_facts;
pub use known::{KnownRace, append_rules, known_races};
pub use texts::{
    known_races_text, left_out_text, names_of_a_trace_are_sound, put_rule, unused_rules_text,
    written_rules_are_read_back,
};
pub use wishes::{Triaged, Wishes, keep_first_races, triage};

mod facts;
mod known;
mod texts;
mod wishes;
