//! How a command line ends: the exit statuses of its faults, the lines that the program writes by itself, what helps people behind them, and demos.
//!
//! [`report_fault`] writes the line of a [`Fault`] and returns its status. [`advise`] looks at the file once more and writes behind that line the file,
//! the system's reason or the faulty line, and a hint: each byte is printable ASCII or a line feed, whatever the file has (`plain`). Which hint stands
//! behind a fault is tested, and not proved. [`add_notes`] adds the lines of [`TextNotes`] on a trace, [`heading_of`] makes the first line of the report of a part, and [`run_demo`] runs a workload and writes its
//! line. This crate needs none of the crates that replay a trace, so that it is proved beside them.
#![tactic(auto)]

pub use advice::{Trouble, advise, is_ordinary, open_ordinary, text_size};
pub use demos::run_demo;
pub use faults::{Fault, TextNotes, add_notes, put, report_fault};
pub use parts::heading_of;

mod advice;
mod demos;
mod faults;
mod hints;
mod parts;
mod plain;
