//! Reports, written to the byte.
//!
//! Begin with [`write_report`]. It writes an [`er_report::Report`] on a [`er_device::Device`], with the names of a trace for the
//! numbers that stand in it.
//!
//! What it promises, by the names of clauses: what it writes is the report's text and nothing else, or nothing at all for want of
//! memory, or a prefix of the text where the writer failed (`bytes`); and it tells a fault of the writer exactly where the writer
//! failed (`failed`). The text is defined line by line in `specs/Printed`, and whole as `report_text`.
//!
//! The text is built whole, in one list of bytes, before the first byte is written.
//!
//! Every form of a report is put in parts: a [`Piece`] is a value with the bytes before it, [`put_all`] puts a list of them, and a [`Style`]
//! says how names are written. [`write_text`] writes what was built.
//!
//! ```
//! let mut device = Device::new(Vec::new(alloc));
//! write_report(alloc, &mut device, &report, trace.names())?;
//! // A run of `t1 write 0x1000` and `t2 write 0x1000` on lines 2 and 3 has this text:
//! // line 3: race: t2 write 0x000000001000 at -, holds none
//! // steps 2, races 1, suppressed 0, refused 0
//! ```
#![tactic(auto)]

pub use er_lines::put_number;
pub use lines::{ReportKind, bytes_of, put_end, put_lost};
pub use naming::{event_verb, put_address, verb};
pub use pieces::{Piece, put_all};
pub use report::{Built, Put, WriteFault, report_text, reports_text, write_report, write_text};
pub use styles::{Style, comma_before, put_escaped, put_short, put_string};

mod lines;
mod naming;
mod pieces;
mod report;
mod styles;
