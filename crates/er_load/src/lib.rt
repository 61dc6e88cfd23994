//! Workloads on threads, each at a detector of its own.
//!
//! Begin with [`run_workload`], which runs one of the [`Workload`]s and settles it: it returns the [`Run`] that the threads made, or
//! why there is none, a [`LoadFault`].
//!
//! What it promises, by the names of clauses: thread by thread the run's steps are the workload's (`events`), and so it has as many as
//! all threads make (`count`); each reply is the one that the whole run gives (`replies`). So a run tells what a detector reports of
//! threads that run at once, in whatever order they came. A fault is never a refusal that the definitions give (`faults`).
//!
//! ```text
//! for workload in Workload::ALL {
//!     let run = run_workload(rt, alloc, workload, &OpenGate)?;
//!     println!(rt; "{}: steps {}", workload.name(), run.steps.len())?;
//! }
//! ```
#![tactic(auto)]

pub use er_detector::{Run, Unsettled};
pub use runs::run_workload;
pub use workloads::{LoadFault, Workload};

mod runner;
mod runs;
mod workloads;
