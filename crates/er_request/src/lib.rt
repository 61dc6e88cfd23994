//! What a command line asks for: its words, read by `clap`.
//!
//! [`read_request`] returns a [`Request`], or the parser's error, whose text says what is wrong or is the help that was asked for. Each option is a row
//! of a table in `options`. This is a crate of its own, below no other but the program, so that the parser is proved while the rest is.
#![tactic(auto)]

mod options;
mod request;
mod words;

pub use request::{Demo, Explain, Replay, Request};
pub use words::read_request;
