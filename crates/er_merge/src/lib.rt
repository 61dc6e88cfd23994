//! One report of the reports of a trace's parts.
//!
//! Begin with [`merge_reports`]: it takes the texts of the reports of all parts and makes the text of the one report. Each text has a first line that
//! says which part it is of, which [`put_heading`] writes, and behind that a report as `er_print` writes it.
//!
//! What it promises, by the definitions of `specs/Merging`: the one report has the lines of all, in the order of the lines of the trace that they name,
//! and the sums of their counts. Otherwise a fault says which text is no report of a part, and on which line, which report is of another trace, or
//! which part is there twice or missing. A line is known by its bytes alone (`specs/Lines`), so no names are needed. What the definitions say of a text
//! they say of it as it is read, by [`PartReport`], [`ReportLine`] and the types of their parts.
//!
//! ```
//! // The texts of the reports of `eraser replay --part 1/2` and `--part 2/2`.
//! let merged = merge_reports(alloc, &[first, second])?;
//! // Here `merged.text` has the bytes of the report of the whole trace, and `merged.counts.races` says how many races it has.
//! ```
#![tactic(auto)]

mod faults;
mod headings;
mod laws;
mod lines;
mod merging;
mod parts;

pub use faults::{LineFault, MergeFault};
pub use headings::{NO_DIGEST, PartHeading, digest_after, put_heading};
pub use lines::{Place, ReportLine, Totals};
pub use merging::{Figure, Gap, Merged, merge_reports};
pub use parts::{Content, Entry, Heading, PartReport};
