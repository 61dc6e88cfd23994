//! The story of one step of a trace, for a person.
//!
//! Begin with [`tell_line`]: it makes the [`Story`] of the step on a line of a trace, and [`write_story`] writes it. A story says what the step was, what its thread held, and what it was answered. If the step accesses a word, or shows one, the story has
//! the word's state before and after it, and each counted access since the word's last reuse that changed that state: these are the accesses that
//! narrowed the candidate set.
//!
//! What it promises, by the names of clauses: a story is that of the definitions (`story`), and each of its numbers has a name (`named`).
//! What is written is the story's text and nothing else, or nothing at all for want of memory, or a prefix of the text if the writer failed
//! (`bytes`). It reports a fault of the writer exactly if the writer failed (`failed`). The text is defined line by line in `specs/Text`,
//! and the story in `specs/Story`. It keeps the state of one word and what each thread holds, in one pass over the steps before. It needs no table of locksets.
//!
//! ```
//! // The steps are `t1 write 0x1000` and `t2 write 0x1000`, on lines 2 and 3.
//! if let Some(story) = tell_line(alloc, &trace, 3)? {
//!     write_story(alloc, &mut device, &story, trace.names())?;
//! }
//! ```
#![tactic(auto)]

use std::alloc::AllocError;
pub use story::{Story, Turn, WordStory};
pub use telling::{tell, tell_line};
pub use text::write_story;

// What a call returns that memory may be refused.
type Made<T> = Result<T, AllocError>;

mod past;
mod story;
mod telling;
mod text;
