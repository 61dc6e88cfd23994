//! Pieces added to a trace, in their order.
ghost use Rattle.std.specs.Prelude.{◌≡◌, ◌+◌, ◌++◌, ◌≤◌, ◌<◌, ℕ, All, List, Option, IfOk, OnOk, length, take, true};
ghost use Rattle.er_event.specs.declared.steps.Step.{Step};
ghost use Rattle.er_reading.specs.Chunks.{AreEmpty, AreFormed, chunk_lines, chunk_sites, chunk_steps};
ghost use Rattle.er_reading.specs.Inner.Adding.{AreEntered, AreReady, FitBehind, IsWhole, MayAllBeAdded, StandInFront, first_len, names_behind};
ghost use Rattle.er_text.specs.Batches.{HasRead};
ghost use Rattle.er_lines.specs.Lending.{taken_by};
ghost use Rattle.er_lines.specs.Lines.{bytes_past_limit};
ghost use Rattle.er_text.specs.Named.{KeepsNames};
ghost use Rattle.er_text.specs.Pieces.{ReadPiece};
ghost use Rattle.er_trace.specs.Names.{NameTable};

use crate::Chunk;
use crate::cutting::{number_pieces, read_pieces};
use er_text::{Piece, TraceReader};
use er_trace::Trace;
use std::alloc::AllocError;
use std::thread::Threads;

/// The least bytes of a piece: fewer aren't worth a thread.
const PIECE_BYTES: usize = 65_536;

/// What was put into a trace, unless memory was refused.
type Put = Result<(), AllocError>;

/// How many pieces stand before the first of which not all was read.
fn whole_count(pieces: &[Piece]) -> usize
    ensures within { result ≤ length pieces.now }
    ensures whole { All IsWhole (take result pieces.now) }
{
    for at in 0..pieces.len() {
        if !pieces[at].is_whole() {
            return at;
        }
    }
    pieces.len()
}

/// Adds the names of the pieces to a trace, in their order, and notes in each their numbers there and how many lines stand before it.
fn enter_pieces(trace: &mut Trace, before: u64, pieces: &mut [Piece]) -> Put
    requires { FitBehind before pieces.old }
    ensures names { OnOk result (trace.new ≡ record trace.old { names = names_behind trace.old.names pieces.old }) }
    ensures entered { OnOk result (AreEntered before trace.old.names pieces.old pieces.new) }
{
    let Some((first, others)) = pieces.split_first_mut() else {
        return Ok(());
    };
    let lines = first.lines();
    first.enter(trace, before)?;
    enter_pieces(trace, before + lines, others)
}

/// Adds the steps of pieces that were numbered, each to a chunk, and passes over their lines. Those for which there is no chunk are added to the trace.
fn add_numbered(
    lines: &mut TraceReader,
    trace: &mut Trace,
    pieces: &mut [Piece],
    chunks: &mut [Chunk],
) -> Put
    requires front { MayAllBeAdded lines.old trace.old pieces.old }
    requires empty { AreEmpty chunks.old }
    requires within { lines.old.place.start ≤ lines.old.place.limit }
    requires most { taken_by lines.old.place ≤ lines.old.place.limit + bytes_past_limit }
    ensures told { (text : List ℕ) (steps : List Step) (numbers sites : List ℕ) (known : Option (List ℕ)) (names : NameTable) (read : List ReadPiece)
        → StandInFront names lines.old read → All IsWhole read → AreReady lines.old.place.number names read pieces.old → trace.old.names ≡ names_behind names read
        → HasRead text steps numbers sites lines.old known (record trace.old { names = names })
        → OnOk result (HasRead text (steps ++ chunk_steps chunks.new) (numbers ++ chunk_lines chunks.new) (sites ++ chunk_sites chunks.new) lines.new known trace.new) }
    ensures names { OnOk result (trace.new.names ≡ trace.old.names) }
    ensures formed { OnOk result (AreFormed trace.old.names chunks.new) }
    ensures limit { lines.new.place.limit ≡ lines.old.place.limit }
    ensures start { OnOk result (lines.old.place.start + first_len pieces.old ≤ lines.new.place.start) }
    ensures within { lines.new.place.start ≤ lines.new.place.limit }
    ensures taken { taken_by lines.new.place ≡ taken_by lines.old.place }
    ensures most { taken_by lines.new.place ≤ lines.new.place.limit + bytes_past_limit }
{
    let Some((first, others)) = pieces.split_first_mut() else {
        return Ok(());
    };
    lines.add_piece(trace, first)?;
    match chunks.split_first_mut() {
        Some((chunk, more)) => {
            chunk.swap(trace);
            add_numbered(lines, trace, others, more)
        }
        None => add_numbered(lines, trace, others, chunks),
    }
}

/// Reads the whole lines that were read ahead into these pieces, by several threads, and adds what each says to a chunk. Their names are added one piece
/// after another, and steps that need other numbers get them, each piece in a thread. The steps of pieces for which there is no chunk are added to the trace.
/// Says whether it came to the end of the lines: it doesn't if they are too few to be worth it, or some of them can't be read apart. Then the first piece
/// of which not all was read is still in front.
pub(crate) fn add_ahead<R: Threads + Sync>(
    rt: &R,
    lines: &mut TraceReader,
    trace: &mut Trace,
    pieces: &mut [Piece],
    chunks: &mut [Chunk],
) -> Result<bool, AllocError>
    requires some { (1 ≤ length pieces.old) × (length pieces.old ≤ 16) }
    requires empty { AreEmpty chunks.old }
    requires within { lines.old.place.start ≤ lines.old.place.limit }
    requires most { taken_by lines.old.place ≤ lines.old.place.limit + bytes_past_limit }
    ensures told { (text : List ℕ) (steps : List Step) (numbers sites : List ℕ) (known : Option (List ℕ))
        → HasRead text steps numbers sites lines.old known trace.old
        → OnOk result (HasRead text (steps ++ chunk_steps chunks.new) (numbers ++ chunk_lines chunks.new) (sites ++ chunk_sites chunks.new) lines.new known trace.new) }
    ensures names { OnOk result (KeepsNames trace.old.names trace.new.names) }
    ensures formed { OnOk result (AreFormed trace.new.names chunks.new) }
    ensures limit { lines.new.place.limit ≡ lines.old.place.limit }
    ensures start { OnOk result (lines.old.place.start ≤ lines.new.place.start) }
    ensures more { IfOk result (λ all. all ≡ true → lines.old.place.start < lines.new.place.start) }
    ensures within { lines.new.place.start ≤ lines.new.place.limit }
    ensures taken { taken_by lines.new.place ≡ taken_by lines.old.place }
    ensures most { taken_by lines.new.place ≤ lines.new.place.limit + bytes_past_limit }
{
    let Some(version) = lines.version() else {
        return Ok(false);
    };
    let bytes = lines.ahead();
    if bytes.len() / PIECE_BYTES < pieces.len() {
        return Ok(false);
    }
    read_pieces(rt, version, trace.names(), bytes, pieces);
    let count = whole_count(pieces);
    let all = count == pieces.len();
    let before = lines.lines_before();
    let (whole, _broken) = pieces.split_at_mut(count);
    enter_pieces(trace, before, whole)?;
    number_pieces(rt, whole);
    add_numbered(lines, trace, whole, chunks)?;
    Ok(all)
}
