//! Why accesses are answered with a race.
//!
//! Begin with [`explain`], which looks at one access of a list. An [`Explanation`] is seen as the model's. It names the first access of the word, the
//! access by which a second thread joined, and the first write from there on, and for each lock that covered the joining the first access since then
//! that the lock doesn't cover. The last of these accesses is the race.
//!
//! What it promises, by the names of clauses: `explain` finds an explanation where the access is a race (`explained`) and none elsewhere (`none`),
//! unless memory is refused. That this explanation is the model's, and that an explanation implies the race, is a law of the definitions
//! ([`an_explanation_explains`]).
//!
//! One book is kept of a word: its first access and thread, and once a second thread has joined the locks of the joining, each with the access that
//! was found for it. A reuse empties the book. `explain` goes over the steps once, and keeps the books of all words.
//!
//! [`WordBooks`] keeps the books of all words while the steps are answered, and no step. An [`Access`] is named there as the caller likes, by its
//! place or by its line, and by its thread and its kind. It promises that each word's book goes on as the definitions say (`follow`, and faster `begin`
//! for a first access), and what a book says of the joining (`joining`). A step that leaves the state of each word as it was needs not be followed
//! ([`a_kept_state_keeps_the_book`]).
//!
//! ```
//! // The steps are `t1 write 0x1000` and `t2 write 0x1000`.
//! if let Some(explanation) = explain(alloc, &steps, 1)? {
//!     println!(rt; "{} {} {}", explanation.first, explanation.join, explanation.write)?; // 0 1 1
//! }
//! assert!(explain(alloc, &steps, 0)?.is_none());
//! ```
#![tactic(auto)]

pub use book::{Access, Joint, Pair};
pub use er_journal::{Explanation, Uncovered};
pub use laws::{a_kept_state_keeps_the_book, an_explanation_explains};
pub use one_access::{cover_in, explain};
use std::alloc::AllocError;
pub use word_books::WordBooks;

// What a call returns that memory may be refused.
type Made<T> = Result<T, AllocError>;

mod block;
mod book;
mod laws;
mod one_access;
mod word_books;
