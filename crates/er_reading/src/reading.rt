//! A reader of a trace by several threads, batch by batch.
ghost use Rattle.std.specs.Prelude.{◌≡◌, ◌+◌, ◌++◌, ◌<◌, ◌≤◌, ◌^◌, ℕ, List, [], Some, OnOk, IfOk, length, false};
ghost use Rattle.er_device.specs.Device.{inner_of, has_failed, taken_of};
ghost use Rattle.er_event.specs.declared.steps.Step.{Step};
ghost use Rattle.er_text.specs.Batches.{HasRead, GivesBatch};
ghost use Rattle.er_text.specs.Ending.{KnowsEnd, IsEndingOf};
ghost use Rattle.er_lines.specs.Lending.{taken_by};
ghost use Rattle.er_lines.specs.Lines.{bytes_past_limit};
ghost use Rattle.er_reading.specs.Chunks.{AreFormed, chunk_lines, chunk_sites, chunk_steps};
ghost use Rattle.er_text.specs.Named.{KeepsNames};
ghost use Rattle.er_text.specs.Places.{no_tail};
ghost use Rattle.er_lines.specs.Faults.{HasFailedBy};
ghost use Rattle.er_lines.specs.Touches.{StaysKnown};
ghost use Rattle.er_trace.specs.Trace.{no_steps, without_steps};

use crate::Chunk;
use crate::adding::add_ahead;
use crate::chunks::clear_all;
use er_device::Device;
use er_lines::Shortcut;
use er_text::{Batch, Ending, Piece, ReadFault, TraceReader};
use er_trace::{NameKeys, Trace};
use std::alloc::{AllocError, Global};
use std::io::Read;
use std::marker::Model;
use std::thread::Threads;

/// How many bytes are read ahead for each thread that reads a piece. What is read of that many stays in a processor's cache.
const PIECE_WINDOW_BYTES: usize = 393_216;

/// How many bytes are read ahead if one thread reads them line by line.
const LINE_WINDOW_BYTES: usize = 65_536;

/// How many lines the first batch has, before those that are cut into pieces. The header is mostly among them.
const FIRST_LINES: u32 = 64;

/// How many lines a batch has if one thread reads and answers.
const LINES_OF_ONE: u32 = 1_024;

/// The same of ready lines. They are more, since each batch looks up its names anew.
const READY_LINES_OF_ONE: u32 = 4_096;

/// How many lines a batch has if there are several threads and the lines aren't read in pieces.
const BATCH_LINES: u32 = 16_384;

/// A reader of a trace text that gives its steps batch by batch, and reads each batch by several threads.
///
/// It does what a [`TraceReader`] does: each call of [`next_batch`](PieceReader::next_batch) takes the same device and the same trace, and
/// between two calls the caller may [`clear`](Trace::clear) the trace.
#[derive(Drop)]
pub struct PieceReader {
    lines: TraceReader,
    pieces: Vec<Piece>,
    is_alone: bool,
    // Whether the window was filled behind the last batch.
    is_filled: bool,
}

impl Model for PieceReader {
    ghost use Rattle.std.specs.Prelude.{◌+◌, ◌≤◌, length};
    ghost use Rattle.er_lines.specs.Lending.{taken_by};
    ghost use Rattle.er_lines.specs.Lines.{bytes_past_limit};
    ghost use Rattle.er_text.specs.Places.{Reached};

    ghost Value = { Reached };

    ghost view = { λ r. r.lines };

    ghost invariant = { λ r. (1 ≤ length r.pieces.items) × (length r.pieces.items ≤ 16) × (r.lines.place.start ≤ r.lines.place.limit) × (taken_by r.lines.place ≤ r.lines.place.limit + bytes_past_limit) };
}

impl PieceReader {
    /// A reader in front of a text of at most `limit` bytes, which reads by `readers` threads, 1 to 16. One thread reads line by line, and makes no
    /// pieces. Its batches are small if it is alone, so that they stay in the cache, and large if others answer them. Names are hashed by these keys.
    pub fn new(
        alloc: Global,
        limit: u64,
        keys: NameKeys,
        readers: u32,
        is_alone: bool,
    ) -> Result<PieceReader, AllocError>
        requires limit { limit ≤ 2 ^ 62 }
        requires readers { (1 ≤ readers) × (readers ≤ 16) }
        ensures limit { IfOk result (λ r. r.place.limit ≡ limit) }
        ensures number { IfOk result (λ r. r.place.number ≡ 1) }
        ensures start { IfOk result (λ r. r.place.start ≡ 0) }
        ensures ahead { IfOk result (λ r. length r.place.ahead ≡ 0) }
        ensures tail { IfOk result (λ r. r.tail ≡ no_tail) }
        ensures starts { IfOk result (λ r. (text : List ℕ) → HasRead text [] [] [] r (Some text) no_steps) }
    {
        let size = if readers == 1 {
            LINE_WINDOW_BYTES
        } else {
            PIECE_WINDOW_BYTES * readers as usize
        };
        let lines = TraceReader::with_window(alloc, limit, size)?;
        let mut pieces = Vec::with_capacity(alloc, readers as usize)?;
        for _ in 0..readers {
            pieces.push_reserved(Piece::new(alloc, keys));
        }
        Ok(PieceReader {
            lines,
            pieces,
            is_alone,
            is_filled: false,
        })
    }

    /// Reads some of the next lines, or those up to the end of the text, and moves their steps into the chunks, whose own are forgotten. Each piece of lines
    /// that are cut comes into a chunk, and all else behind them into the last one. If there are no more chunks than threads, the pieces behind are copied
    /// into the last one too. Without chunks all steps are added to the trace. The shortcut may have lines ready. If it has most of them ready, one thread
    /// takes them, and none are cut into pieces. Behind lines that were cut into pieces the next bytes are read ahead. If that read fails, so does the call.
    ///
    /// A text that ends without a header has a fault at its end. After a fault the reader is not to be called again: nothing is known
    /// of what it would read.
    pub fn next_batch<R: Threads + Sync, D: Read, S: Shortcut<D>>(
        &mut self,
        rt: &R,
        reader: &mut Device<D>,
        shortcut: &S,
        trace: &mut Trace,
        chunks: &mut [Chunk],
    ) -> Result<Batch, ReadFault>
        requires { has_failed reader.old ≡ false }

        // Of a text that was read so far it gives more steps, or the whole trace at the end, or the first fault of the text.
        ensures told { (text : List ℕ) (steps : List Step) (lines sites : List ℕ)
            → HasRead text steps lines sites self.old (D.remaining (inner_of reader.old)) trace.old
            → GivesBatch text (steps ++ chunk_steps chunks.new) (lines ++ chunk_lines chunks.new) (sites ++ chunk_sites chunks.new) self.new (D.remaining (inner_of reader.new)) trace.new result }

        ensures moved { 1 ≤ length chunks.old → OnOk result (trace.new ≡ without_steps trace.new) }
        ensures count { length chunks.new ≡ length chunks.old }

        // At the end of the text it knows how the text ends.
        ensures ends { (text : List ℕ) (steps : List Step) (lines sites : List ℕ)
            → HasRead text steps lines sites self.old (D.remaining (inner_of reader.old)) trace.old
            → IfOk result (λ batch. batch ≡ Batch.End → KnowsEnd text self.new) }

        // Names keep their numbers, and those of the chunks' steps have names.
        ensures names { OnOk result (KeepsNames trace.old.names trace.new.names) }
        ensures formed { OnOk result (AreFormed trace.new.names chunks.new) }

        ensures limit { self.new.place.limit ≡ self.old.place.limit }

        // A batch that isn't the last has passed over some bytes, within the limit.
        ensures more { IfOk result (λ batch. batch ≡ Batch.More → self.old.place.start < self.new.place.start) }
        ensures within { self.new.place.start ≤ self.new.place.limit }

        ensures failed { HasFailedBy (has_failed reader.new) result }
        ensures taken { taken_of reader.new + taken_by self.old.place ≤ taken_of reader.old + taken_by self.new.place }
        ensures most { taken_by self.new.place ≤ self.new.place.limit + bytes_past_limit }
        ensures touches { StaysKnown (S.touches (inner_of reader.old)) (S.touches (inner_of reader.new)) }
    {
        let front = chunks.len().saturating_sub(1);
        let (pieces, rest) = chunks.split_at_mut(front);
        let batch = self.read_batch(rt, reader, shortcut, trace, pieces)?;
        if let Some((last, _others)) = rest.split_first_mut() {
            last.take_all(trace);
        }
        Ok(batch)
    }

    // The same, but for what goes into the last chunk: that is added to the trace.
    fn read_batch<R: Threads + Sync, D: Read, S: Shortcut<D>>(
        &mut self,
        rt: &R,
        reader: &mut Device<D>,
        shortcut: &S,
        trace: &mut Trace,
        chunks: &mut [Chunk],
    ) -> Result<Batch, ReadFault>
        requires { has_failed reader.old ≡ false }

        // Of a text that was read so far it gives more steps, or the whole trace at the end, or the first fault of the text.
        ensures told { (text : List ℕ) (steps : List Step) (lines sites : List ℕ)
            → HasRead text steps lines sites self.old (D.remaining (inner_of reader.old)) trace.old
            → GivesBatch text (steps ++ chunk_steps chunks.new) (lines ++ chunk_lines chunks.new) (sites ++ chunk_sites chunks.new) self.new (D.remaining (inner_of reader.new)) trace.new result }

        // At the end of the text it knows how the text ends.
        ensures ends { (text : List ℕ) (steps : List Step) (lines sites : List ℕ)
            → HasRead text steps lines sites self.old (D.remaining (inner_of reader.old)) trace.old
            → IfOk result (λ batch. batch ≡ Batch.End → KnowsEnd text self.new) }

        // Names keep their numbers, and those of the chunks' steps have names.
        ensures names { OnOk result (KeepsNames trace.old.names trace.new.names) }
        ensures formed { OnOk result (AreFormed trace.new.names chunks.new) }

        ensures limit { self.new.place.limit ≡ self.old.place.limit }

        // A batch that isn't the last has passed over some bytes, within the limit.
        ensures more { IfOk result (λ batch. batch ≡ Batch.More → self.old.place.start < self.new.place.start) }
        ensures within { self.new.place.start ≤ self.new.place.limit }

        ensures failed { HasFailedBy (has_failed reader.new) result }
        ensures taken { taken_of reader.new + taken_by self.old.place ≤ taken_of reader.old + taken_by self.new.place }
        ensures most { taken_by self.new.place ≤ self.new.place.limit + bytes_past_limit }
        ensures touches { StaysKnown (S.touches (inner_of reader.old)) (S.touches (inner_of reader.new)) }
    {
        clear_all(chunks);
        let are_ready = shortcut.takes_most(reader.inner());
        if self.pieces.len() == 1 || are_ready {
            let most_lines = match (self.is_alone, are_ready) {
                (true, false) => LINES_OF_ONE,
                (true, true) => READY_LINES_OF_ONE,
                (false, _) => BATCH_LINES,
            };
            return self.lines.next_batch(reader, shortcut, trace, most_lines);
        }
        if !self.is_filled {
            self.lines.fill(reader, shortcut)?;
        }
        let all = add_ahead(
            rt,
            &mut self.lines,
            trace,
            self.pieces.as_mut_slice(),
            chunks,
        )?;
        self.is_filled = all;
        if all {
            // By the lockset rule others still answer the last batch meanwhile, and the next call starts its threads at once.
            self.lines.fill(reader, shortcut)?;
            return Ok(Batch::More);
        }
        let most_lines = if self.lines.lines_before() == 1 {
            FIRST_LINES
        } else {
            BATCH_LINES
        };
        self.lines.next_batch(reader, shortcut, trace, most_lines)
    }

    /// How the text ended, once a batch was the last.
    pub fn ending(&self) -> Ending
        ensures { (text : List ℕ) → KnowsEnd text self.now → IsEndingOf text result }
    {
        self.lines.ending()
    }
}
