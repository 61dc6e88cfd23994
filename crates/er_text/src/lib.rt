//! The text of a trace: read byte by byte, as its grammar says of whole lines.
//!
//! Begin with [`read_trace`]: it reads a text from any reader, in whatever pieces it comes, and gives its [`Trace`](er_trace::Trace)
//! or the fault of its first faulty line. [`TraceReader`] reads a trace batch by batch, so that a caller need not keep its steps.
//! Both go over the reader of lines of [`er_lines`].
//!
//! What they promise, by the names of clauses: the answer for a text is its trace, or its fault by the grammar
//! (`told`), and every text has exactly one of these (`trace_or_fault`); batches, one after another, are the
//! trace of the whole text, also if the caller clears the trace between them (`told` of `next_batch`, `a_batch_may_be_forgotten`);
//! at the end of a text the reader of batches knows whether its last line lacks its LF, whether a text 3 has its line `end`, and how many
//! events are lost by its last comment (`ends`); a fault of the reader is reported if and only if the reader failed (`failed`); no reading
//! takes more than `byte_limit` and 1,025 bytes (`taken`).
//!
//! ```
//! let mut reader = Device::new(b"eraser trace 1\nt1 lock m\nt1 write 0x1000 save.c:12\n".as_slice());
//! match read_trace(rt.alloc(), &mut reader, 1 << 20) {
//!     // Two steps of one thread, of the lines 2 and 3.
//!     Ok(trace) => println!(rt; "{} steps", trace.steps().len())?,
//!     Err(ReadFault::Text(fault)) => println!(rt; "line {}: {}", fault.line, fault.kind.text())?,
//!     Err(fault) => println!(rt; "{fault:?}")?,
//! }
//! ```
#![tactic(auto)]

pub use endings::{Ending, Lost};
pub use er_lines::{ReadFault, TextFault, TextKind};
pub use laws::{a_batch_may_be_forgotten, steps_are_named, trace_or_fault};
pub use pieces::Piece;
pub use reading::{Batch, TraceReader, read_trace, read_trace_keyed};
pub use verbs::Version;

mod adding;
mod endings;
mod fast_path;
mod laws;
mod naming;
mod numbers;
mod parsing;
mod pieces;
mod reading;
mod ready;
mod stages;
mod verbs;

/// What was put into a trace, unless memory was refused.
type Put = Result<(), std::alloc::AllocError>;

/// What was read, unless a fault ended it.
type Done = Result<(), ReadFault>;
