//! Whether seats' calls and shards' journals agree, and the one run that they make.
//!
//! Begin with [`SeatView`] and [`JournalView`], which borrow what a detector's seats and shards kept, and pass them to
//! [`settle_lists`]. It returns the [`Run`] that they make, or the first thing that is wrong, an [`Unsettled`].
//!
//! What it promises, by the names of clauses: a fault other than `Memory` is the first that applies (`first`), and if there
//! is a run, none applies (`settled`); the run is a merge of the seats' calls and the journals (`merge`), in the stated order
//! (`order`); each of its replies, and each word's state in its journal, is what the whole run gives (`replies`, `states`).
//!
//! The checks and the merge are one pass each: over names, over numbers, over each list, and over all entries by least next
//! ticket. Nothing is sorted.
//!
//! ```text
//! let seats = [SeatView::new(7, ThreadId::new(0), seat.calls())];
//! let journals = [JournalView::new(shard.journal())];
//! match settle_lists(alloc, 7, 1, &seats, &journals) {
//!     Ok(run) => println!(rt; "{} steps", run.steps.len())?,
//!     Err(fault) => println!(rt; "unsettled: {}", fault.text())?,
//! }
//! ```
#![tactic(auto)]

pub use settling::{Run, settle_lists};
use std::alloc::AllocError;
pub use unsettled::Unsettled;
pub use views::{JournalView, SeatView};

// What a call returns that memory may be refused.
type Made<T> = Result<T, AllocError>;

mod call_order;
mod entry_matches;
mod seat_checks;
mod settling;
mod unsettled;
mod views;
