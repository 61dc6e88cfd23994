//! One trace on many machines: which steps each of several parts answers.
//!
//! Begin with [`Part`]. It says which steps of a trace are of use to one of so many parts, and keeps these alone. What a word is answered depends on
//! its own accesses and the locks of their threads, so a part needs the accesses of its own pages and every event that is of no page.
//!
//! What it promises, by the names of clauses: a part keeps the steps that `kept` names, each with its line and its site
//! (clauses of `keep`), and these are answered as they are among all steps (`a_part_answers_as_the_whole`). The reports of all parts, merged in
//! whatever order, are the report of the whole recording (`parts_make_the_whole`) if it is in the order of its text, as that of each trace is
//! (`a_trace_is_ordered`). What the pages with races and shows give is the report of the whole but for its counts (`pages_of_the_lines_make_the_whole`).
//!
//! ```
//! // Pages 0, 4, 8 .. are those of the first of four parts. The word at 0x1000 is on page 1.
//! let part = Part::new(1, 4)?;
//! part.keep(&mut steps, &mut lines, &mut sites);
//! ```
#![tactic(auto)]

pub use laws::{
    a_part_answers_as_the_whole, a_trace_is_ordered, pages_of_the_lines_make_the_whole,
    parts_make_the_whole,
};
pub use part::Part;

mod laws;
mod part;
