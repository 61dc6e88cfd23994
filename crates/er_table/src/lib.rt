//! The sets of locks that several owners share, each stored once, and an owner's own numbers for them.
//!
//! Begin with [`Known`]: it numbers the sets that one owner meets, so that a set fits in a word and two sets are compared as
//! numbers. It stands on a [`LocksetTable`], which any number of owners, in any threads, share through a `&`. Sets are only ever
//! added to a table, so [`LocksetTable::get`] takes no lock.
//!
//! What it promises, by the names of clauses: a number stands for the set that it was given for (`names`) and keeps it (`kept`),
//! different numbers stand for different sets (`distinct`), a new number is the next one (`next`), number 0 is that of the empty
//! set (`empty`) and of no other (`only_empty`), a table is full only for a set that has no number (`full_only_if_new`), a set
//! that has one is always found (`found`), and a refused call changed no number (`err`). A book has each set once, and is full
//! exactly for a new set at its limit (`full`, `full_only_at_limit`). A reference to a set of a table gives that set for good.
//!
//! ```text
//! let table = LocksetTable::new(rt.alloc(), 1000)?;
//! let mut known = Known::new(rt.alloc(), &table)?;
//! let first = known.number_of(&rt, &candidates)?;
//! let second = known.number_of(&rt, &held)?;
//! let both = known.intersect(&rt, first, second)?;
//! let has_race = both == 0;
//! ```
#![tactic(auto)]

pub use book::{Book, Sets};
pub use known::{Known, KnownIn, OwnKnown};
pub use set_ref::SetRef;
pub use store::{Grow, Owned, Shared, Store};
pub use table::LocksetTable;

mod book;
mod known;
mod numbers;
mod set_ref;
mod store;
mod table;
