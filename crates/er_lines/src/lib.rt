//! The lines of a text, and the words, numbers and names of a line, whatever sort of text it is.
//!
//! Begin with [`LineReader`]: it finds one line after another in the bytes that a reader gives, in whatever pieces they come, and keeps
//! a window of them. [`split_words`] gives the words of a line; [`number_of`], [`name_of`] and the calls beside them read a word. What is
//! wrong with a line is a [`TextKind`], and a [`TextFault`] says in which line it is.
//!
//! What it promises, by the names of clauses: the line that is found is the next one of the text, or its fault is that it is too long or
//! goes past the limit (`found`); a fault of the reader is reported if and only if the reader failed (`failed`); no more than the limit
//! and 1,025 bytes are taken from the reader (`taken`, `most`). What a [`Shortcut`] says of the bytes that accesses touch stays with the reader until it
//! is handed out (`touches`).
//!
//! For a second look at a text a [`Prefix`] gives the first lines of another reader alone, to the byte, and then ends (`remaining`).
//!
//! ```
//! let mut reader = Device::new(b"t1 write 0x1000\n".as_slice());
//! let mut lines = LineReader::new(alloc, 1 << 20, 65_536)?;
//! if let Some(front) = lines.find(&mut reader, &ByText)? {
//!     // The words `t1`, `write` and `0x1000`.
//!     let words = split_words(lines.bytes(front));
//!     assert_eq!(number_of(words.third), Some(0x1000));
//!     lines.pass(front);
//! }
//! ```
#![tactic(auto)]

pub use bytes::{is_ascii, is_comment, line_len, says_something, split_at_space};
pub use classes::{class_of, is_name_byte};
pub use faults::{ReadFault, TextFault, TextKind, fault_at};
pub use lines::{FrontLine, LineReader};
pub use naming::{
    is_lock_name, is_name, is_site_name, lock_name_of, name_of, name_text, site_text,
};
pub use numbers::{hex_digit, number_of, put_hex, put_number, value_in};
pub use prefix::{ByPrefix, Prefix};
pub use ready::{ByText, NameKind, ReadyLine, ReadyVerb, Shortcut, Touch, ready_width};
pub use words::{Words, number, split_words};

mod bytes;
mod classes;
mod faults;
mod lines;
mod naming;
mod numbers;
mod prefix;
mod ready;
mod windows;
mod words;
