//! Keys by which maps hash what a stranger chose.
//!
//! Begin with [`HashKeys`]: a program that reads traces of strangers makes them at random, once. A map with a [`KeyedHasher`] or a
//! [`NumberHasher`] of these keys finds each of its keys as any other map does. Whoever doesn't know the hash keys can't choose keys of the
//! map that collide. That is not proved: the clauses say of a hash how it is computed, and nothing more. [`Hints`] and [`index_of`] find most
//! entries of a map without a hash.
#![tactic(auto)]

pub use hints::{Hints, index_of};
pub use keys::{HashKeys, KeyedHasher};
pub use number_hasher::NumberHasher;

mod hints;
mod keys;
mod number_hasher;
