//! The text of a trace, read by several threads.
//!
//! Begin with [`PieceReader`]: it reads a trace batch by batch, as [`TraceReader`](er_text::TraceReader) does, and keeps that reader's
//! promises. Of the lines that were read ahead it makes pieces, one for each thread, and gives what each of them says as a [`Chunk`]. One thread adds
//! the names of the pieces. Where names get other numbers than in their piece, a second turn of threads numbers the steps.
#![tactic(auto)]

pub use chunks::Chunk;
pub use reading::PieceReader;

mod adding;
mod chunks;
mod cutting;
mod reading;
