//! A trace: its steps, the line and the site of each, and the names of its numbers.
//!
//! Begin with [`Trace`]: whoever reads a text gives each name its number by [`Trace::thread`], [`Trace::lock`] and [`Trace::site`],
//! and then adds the step by [`Trace::push`]. [`Names`] gives the names back.
//!
//! What it promises, by the names of clauses: names of each sort are numbered by first appearance (`number`), equal names alone have
//! equal numbers (the law `equal_names_alone_share_a_number`), each number of a step has a name (`named`), and a call that found no
//! memory changed nothing (`err`).
//!
//! Names are hashed by [`NameKeys`], the `HashKeys` of `er_keys`. A program that reads traces of strangers makes them at random
//! ([`Trace::keyed`]).
#![tactic(auto)]

pub use appending::{NewNumbers, NewTable};
pub use er_keys::HashKeys as NameKeys;
pub use names::{Names, equal_names_alone_share_a_number};
pub use trace::Trace;

mod appending;
mod list;
mod names;
mod recent;
mod trace;
