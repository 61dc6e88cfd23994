//! Reports as JSON, for programs: documents of our own, and SARIF 2.1.0 for code hosts.
//!
//! Begin with [`json_text`] or [`sarif_text`]. A reason of a race says where its access was and what its thread held, if the places given know it.
//! What else they know of a race is there too: the variable or the block of memory, the functions, and in JSON where its threads were started and the
//! lives of its locks began.
//!
//! [`json_text`] writes a document for each report of [`er_report::Reports`]: the races, the refused steps, the words that were shown, the stop,
//! what the suppressions took, and the totals. The document by happens-before says so in its first line, and two documents are the items of a
//! list. A race, a refused step and a word shown have a line each, so that tools that read lines can find them too.
//!
//! [`sarif_text`] writes a run for each report. A run has a result for each site and kind of race, in the order of the first race of each, with
//! how many there are and what is known of the first, and one for each reuse without a site. Behind them comes a result for each rule of
//! suppressions that takes a race. A report has no line for such a race, so this result has the number alone. The run by happens-before has rules
//! of its own and an id, so that a code host keeps the two apart. Memory goes by the number of sites and results, and time by that of races.
//!
//! What they promise: the bytes are those of the documents, or of the log, and nothing else, or nothing at all for want of memory.
//! `specs/Document` defines a document value by value, and all of them as `json_reports`. `specs/Sarif` defines the log member by member, and whole
//! as `sarif_reports`; `specs/Places` says which sites name a file and a line, and `specs/Uris` how a file is written as a URI.
//!
//! ```
//! let text = json_text(alloc, &reports, &Legend { names: trace.names(), places: &places })?;
//! // {"format":1,
//! // "races":[
//! // {"line":3,"thread":"t2","kind":"write","address":"0x000000001000","site":null,"held":[],"reasons":[]}],
//! // "refused":[],
//! // "shown":[],
//! // "stop":null,
//! // "suppressions":[],
//! // "totals":{"steps":2,"races":1,"suppressed":0,"refused":0}}
//! ```
#![tactic(auto)]

pub use document::json_text;
pub use sarif::sarif_text;

mod document;
mod locations;
mod results;
mod rows;
mod sarif;
mod stacks;
mod suppressed;
