//! The reports of a trace in each form that they are written in.
//!
//! Begin with [`render`]. It makes the bytes of any [`er_report::Form`] of the reports of any analysis, and `er_print::write_text` writes them.
//! The page is made here. Other crates make the other forms: `er_print`, `er_sites` and `er_json`. `specs/Forms` says which definition each has.
//!
//! The page needs no other file. It has the reports as JSON, lines of source files as JSON ([`Excerpt`]), and a script that makes tables and
//! pictures of both in the reader's browser. [`html_text`] promises, by the names of clauses: the bytes are the page of the reports and nothing
//! else, or nothing at all for want of memory (`text`). No byte of a name or of a source file can end the block that it stands in, as there is no
//! less-than sign in it (`inert`). `specs/Page` defines the page around the JSON of `er_json`. [`sites_of`], [`place_of`] and [`excerpt_around`]
//! say which sites get lines of source files, and which lines. The program reads the files.
//!
//! The parts that each page has are constants: `shell` is the markup, `style` how it looks, and `picture` and `script` are the script that makes
//! the rest. The script writes names as text and never as markup. It is tested in a browser and not proved.
//!
//! ```text
//! let text = render(alloc, Form::Json, &reports, trace.names(), &Places::new(alloc), &rules, &[])?;
//! ```
#![tactic(auto)]

pub use excerpts::{Excerpt, excerpt_around, place_of, sites_of};
pub use forms::render;
pub use page::html_text;

mod excerpts;
mod forms;
mod page;
mod picture;
mod script;
mod shell;
mod style;
