//! Happens-before: a machine that answers a list of steps, and an analyst that gives the report of a trace's unordered accesses and reuses.
//!
//! Begin with [`OrderAnalyst`]. `er_batch::analyse` has it answer the batches of a text, alone or beside the lockset rule (`er_run` does
//! both). By happens-before, a race is an access that conflicts with an earlier access, has a byte in common with it and is not ordered after it. Behind the
//! analyst is [`OrderMachine`]: it has each thread's holdings, the clocks, and what is kept of each word, and `step` answers one more step.
//!
//! What they promise, by the names of clauses: a machine that stands for a list of steps answers the next step as the definitions answer it at
//! that list's end (`answer`), and then stands for the longer list (`goes_on`). A race names the access that it is unordered with, by the tag that
//! the caller gave it (`named`). After an error, which names what is lacking, the machine stands for the list that it stood for (`err`). An
//! analyst that stands for no steps before the pass (`stands` of `new`) stands for all of them behind it, and then gives the report that the
//! definitions give (`report` of `finish`), or says why a step can't be answered (`fault`): memory was refused, a thread's own count is 2^32 - 1 at
//! a step where it would rise, a step orders a thread whose number is 65,536 or more, or the clocks are too large.
//!
//! ```text
//! let analyst = OrderAnalyst::new(alloc, &rules, false, NameKeys::KNOWN)?;
//! let found = analyse(&rt, alloc, &mut reader, &ByText, &Options::usual(), 1, analyst, &mut Unwatched)?;
//! let report = found.analyst.finish();
//! ```
//!
//! What accesses touch is handed beside each batch, by the numbers of lines. Of a text nothing is said of it, and its report is that by words
//! (`a_text_has_whole_words`).
//!
//! A refused step is in this report as in that of the lockset rule. A step that asks for a word's state is done and has no line: a state
//! is the lockset rule's. If reasons are asked for, a line behind that of an unordered access names the last earlier access that it
//! conflicts with and that doesn't come before it in order.
#![tactic(auto)]

pub use laws::a_text_has_whole_words;
pub use machine::{OrderAnswer, OrderMachine};
pub use ordering::{Machines, OrderAnalyst};

mod answering;
mod laws;
mod machine;
mod ordering;
mod reasons;
mod touching;
