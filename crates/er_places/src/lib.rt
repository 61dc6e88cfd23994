//! Where the accesses on given lines of a trace stood, and which locks their threads held.
//!
//! Begin with [`places_of_reports`]. It reads a trace text once more and gives the [`Places`] of the accesses that the reasons of the reports'
//! first races name. [`Places::of_reason`] is the place of the access that a reason names, and [`Places::of_race`] that of a race's own access.
//! What a binary trace says beside its text comes by [`Places::with_facts`]: [`Places::calls_of`] gives the calls that led to a place, and
//! [`Places::function_of`], [`Places::variable_of`], [`Places::block_of`], [`Places::start_of`] and [`Places::birth_of`] name what raced. [`facts_of_races`]
//! asks for that of each race alone.
//!
//! What it promises, by the names of clauses: of a text that is a trace, the places are those of the accesses on the wanted lines, and
//! each is what the definitions give of the steps before it (`found`); a fault of the text is the text's first fault (`fault`). A place
//! is given for a reason only if it has the reason's line, thread and kind (`place`). Each number of a place has a name among the places'
//! own names (`named`), so that nothing is wrong to print if the text has changed since the report was made.
//!
//! It keeps no step, and what each thread holds in one pass over batches of steps. So memory goes by the wanted lines, the threads and the
//! names, and not by the steps.
//!
//! ```
//! // The trace is `t1 write 0x1000 main.c:3` on its line 2, and `t2 write 0x1000` on line 3.
//! let places = places_of_reports(alloc, &mut again, limit, keys, &reports)?;
//! // The first reason of the race on line 3 names the write on line 2.
//! if let Some(place) = places.of_reason(&explained[0]) {
//!     // Here the place's site is `main.c:3`, and it has no lock.
//! }
//! ```
#![tactic(auto)]

pub use facts::{Birth, Block, Extent, Facts, Noting, Start, Variable};
pub use finding::{asked_of_races, facts_of_races, facts_of_reports, places_of_reports};
pub use places::{Legend, Place, Places};

mod facts;
mod finding;
mod follower;
mod places;
mod wanted;
