//! What a run of a trace came to, line by line.
//!
//! Begin with [`ReportBuilder`]. It takes the steps of a trace one after another, each with its line, its answer and the locks that
//! its thread holds, and finishes a [`Report`]: a [`Line`] for each race that no rule takes, each refusal and each word shown, where
//! the run stopped, how many races each rule took, and how many there were of each sort. [`summarise`] does this for a run whose
//! answers are in a list.
//!
//! What it promises, by the names of clauses: after the first steps of a recording were added, the builder holds the report of these
//! steps (`built_by`), and what it finishes is the report that the definitions give of the answered steps under the rules (`report`), with
//! the locks that a thread held at its race, the reasons of the race if they are asked for ([`Because`]), and each race that a rule
//! takes counted for the first such rule alone. Each number in it that needs a name to be printed has one (`named`). The laws
//! [`the_counts_add_up`] and [`each_reason_is_told`] say more of such a report.
//!
//! The clauses `built_by`, `report_by` and `named_by` hold for the answers of any analysis, those of the lockset rule among them, and for a
//! report without reasons. The others speak of the lockset rule.
//!
//! The builder keeps no step and no answer. A set of locks is copied for a line alone, so memory goes by the number of lines and rules,
//! and not of steps. Rules are looked at for a race alone. If reasons are asked for, each step is also explained once it was added:
//! the builder then keeps a book of each word that is accessed, and memory also goes by their number.
//!
//! Most steps have no line and leave no reason behind. Any number of them is added by one call ([`ReportBuilder::add_plain`]).
//!
//! ```
//! // The trace is `t1 write 0x1000` and `t2 write 0x1000`, on lines 2 and 3.
//! let report = summarise(alloc, &trace, &outcome, &Suppressions::new(alloc), false)?;
//! assert_eq!(report.races, 1);
//! if let [Line::Race { line, details, .. }] = report.lines.as_slice() {
//!     // Here `line` is 3, and `details` is None: the thread held no lock, and no reasons were asked for.
//! }
//! ```
#![tactic(auto)]

pub use builder::{ReportBuilder, view_of};
pub use er_check::check_explanation;
pub use er_explain::{Explanation, Uncovered, an_explanation_explains, explain};
pub use laws::{a_report_goes_on, each_reason_is_told, the_counts_add_up};
pub use report::{Because, Deed, Details, Label, Line, Race, Report, reasons_in};
pub use reports::{Analysis, Form, Reports};
pub use rules::name_of;
use std::alloc::AllocError;
pub use summary::summarise;

// What a call returns that memory may be refused.
type Made<T> = Result<T, AllocError>;

mod builder;
mod explainer;
mod laws;
mod reasons;
mod report;
mod reports;
mod rules;
mod summary;
