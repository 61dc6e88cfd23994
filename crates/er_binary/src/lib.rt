//! The binary form of a trace, read as text.
//!
//! A binary trace is smaller than text, and has blocks with a checksum each. Begin with [`Decoded`]: it wraps a reader and gives the text that
//! its bytes mean. Bytes that don't begin as a binary trace does mean themselves, and go through as they are.
//!
//! What it promises, by the names of clauses: what a new `Decoded` gives is the text that the bytes of its reader mean (`fresh`), in whatever
//! pieces they come and it is asked for. The text of a damaged trace ends in a line that says at which byte the damage is. A [`Listener`] hears the
//! records that the text is made of. One that is asked to notes what accesses touch that don't touch their whole word (`note_touches`).
//!
//! ```
//! let mut reader = Decoded::new(alloc, b"eraser trace 1\n".as_slice());
//! let mut text = Vec::new(alloc);
//! reader.read_to_end(&mut text)?;
//! // Here `text` has the bytes `eraser trace 1\n`.
//! ```
#![tactic(auto)]

pub use decoded::{Decoded, Directly, Listener};
pub use decoder::Spot;
pub use laws::a_touch_says_which_bytes_of_a_word;
pub use names::{Names, number};
pub use nodes::{Node, Nodes};
pub use records::{Access, Head, Kind, Record, record_at};
pub use state::State;
pub use touches::Said;

mod decoded;
mod decoder;
mod laws;
mod names;
mod nodes;
mod records;
mod state;
mod text;
mod touches;
