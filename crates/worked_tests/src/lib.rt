//! What no row and no text for a program can say: reports of more steps than a text of a test has, a book of locksets with another vector
//! than before, threads that meet, and workers that run side by side. Nothing but tests. All other cases are rows for the program `probe`,
//! or texts that `tests/run` compares.
//!
//! Helpers say nothing of what they return, so that a test's proof has little to carry. A test ends where one of them can't answer.
#![tactic(auto)]

#[cfg(test)]
mod sets;
#[cfg(test)]
mod together;

#[cfg(test)]
use std::process::Abort;
#[cfg(test)]
use std::sync::Wait;
#[cfg(test)]
use std::thread::Threads;

/// What tests run on.
#[cfg(test)]
pub(crate) trait Host: Threads + Wait + Abort + AllocGlobal + Sync {}

#[cfg(test)]
impl<R: Threads + Wait + Abort + AllocGlobal + Sync> Host for R {}
