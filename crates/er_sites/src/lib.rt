//! Races by the site of their access: the text for people.
//!
//! Begin with [`sites_text`]. It makes a table of the sites with races, the site with most words first, and for each site one race
//! with its reasons in sentences. Behind a reason stands where its access was, and which locks it held, if the places given know it. What else they
//! know is named too: the variable or the block of memory, the functions, and behind all races where their threads were started and the lives of their
//! locks began. If there are reports of both analyses, the sites of the unordered accesses come first, and then the other sites of the lockset rule's races.
//!
//! What it promises: the bytes are those of such tables, as `AreSitesOf` says. In the table of a report each of its races counts at its own site and
//! at no other, and the sites come in falling order. The text is defined line by line in `specs/Text` and whole in `specs/Sites`, and the table
//! in `specs/Table`.
#![tactic(auto)]

pub use counts::{Counts, count_races};
pub use mentions::{MOST_THREADS, Mention, Numbers, mentioned_in};
pub use names::{did_text, is_system_name};
pub use row::SiteRow;
pub use standing::put_known;
pub use stories::put_subject;
pub use table::site_rows;
pub use text::sites_text;

mod counts;
mod mentions;
mod names;
mod row;
mod standing;
mod stories;
mod table;
mod text;
