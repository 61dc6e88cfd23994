//! The pass over a text: each batch of lines is read, answered and forgotten.
ghost use Rattle.std.specs.Prelude.{◌≡◌, ◌+◌, ◌++◌, ◌<◌, ◌≤◌, ◌∷◌, ◌^◌, [], ℕ, All, List, Option, Some, false, true, filter, length, max, nat_le, IfSome, IfOk, IfErr, IsOk, IsTrue, OnOk};
ghost use Rattle.std.specs.Thread.{IsSync};
ghost use Rattle.er_batch.specs.Analysts.{Asked, HasCounted, IsAnswered, IsFaultOfReading};
ghost use Rattle.er_batch.specs.Inner.Passes.{HasCome, HasEnded, StandsFor, Tells, TellsBetween, batch_of};
ghost use Rattle.er_batch.specs.Limits.{bytes_past_limit};
ghost use Rattle.er_batch.specs.Runs.{recorded};
ghost use Rattle.er_device.specs.Device.{inner_of, has_failed, taken_of};
ghost use Rattle.er_event.specs.declared.steps.Step.{Step as Steps};
ghost use Rattle.er_parts.specs.Parts.{kept, kept_beside, takes};
ghost use Rattle.er_reading.specs.Chunks.{AreEmpty, AreFormed, IsFormed, chunk_lines, chunk_sites, chunk_steps, step_lists};
ghost use Rattle.er_text.specs.Ending.{KnowsEnd, IsEndingOf};
ghost use Rattle.er_text.specs.Named.{KeepsNames};
ghost use Rattle.er_lines.specs.Lending.{taken_by};
ghost use Rattle.er_lines.specs.Faults.{HasFailedBy};
ghost use Rattle.er_lines.specs.declared.ready.Touch.{Touch as Touching};
ghost use Rattle.er_trace.specs.Names.{NameTable};
ghost use Rattle.er_trace.specs.Trace.{no_steps};

use crate::{Analyst, Options, Progress, Watch};
use er_device::Device;
use er_lines::{Shortcut, Touch};
use er_parts::Part;
use er_reading::{Chunk, PieceReader};
use er_text::{Batch, Ending, ReadFault};
use er_trace::Trace;
use std::alloc::{AllocError, Global};
use std::io::Read;
use std::mem;
use std::sync::Wait;
use std::thread::Threads;

/// A text that was read to its end, and what answered its steps.
#[derive(Drop)]
pub struct Analysed<A> {
    /// It stands for all steps of the text.
    pub analyst: A,
    /// It has the names of the numbers in the steps, most of which were forgotten.
    pub trace: Trace,
    /// How the text ended.
    pub ending: Ending,
    /// If only a part is replayed, how many of its steps are accesses, reuses or shows.
    pub of_pages: u64,
}

// What reads the lines, and what answers their steps. The last batch that was read is not yet answered: its chunks have its steps, and others have room for
// those of the next one. If only a part is replayed, it has counted the steps of its pages. It has what accesses touch on lines from this one on.
#[derive(Drop)]
struct Pass<A> {
    lines: PieceReader,
    trace: Trace,
    analyst: A,
    last: Vec<Chunk>,
    fresh: Vec<Chunk>,
    part: Option<Part>,
    of_pages: u64,
    touches: Vec<Touch>,
    from: u64,
    ghost some: { 1 ≤ length last.items },
    ghost others: { 1 ≤ length fresh.items },
}

impl<A: Drop> Pass<A> {
    fn new(
        alloc: Global,
        options: &Options,
        readers: u32,
        analyst: A,
    ) -> Result<Pass<A>, AllocError>
    where
        A: Analyst,
        requires readers { (1 ≤ readers) × (readers ≤ 16) }
        ensures come { (asked : Asked) → A.stands analyst asked no_steps []
            → IfOk result (λ pass. (told : Option (List ℕ)) → HasCome (StandsFor pass.part (λ r. A.stands pass.analyst asked r []) pass.of_pages) told told pass.lines pass.trace pass.last.items) }
        ensures formed { IfOk result (λ pass. AreFormed pass.trace.names pass.last.items) }
        ensures limit { IfOk result (λ pass. pass.lines.place.limit ≡ options.now.byte_limit) }
        ensures taken { IfOk result (λ pass. taken_by pass.lines.place ≡ 0) }
        ensures part { IfOk result (λ pass. pass.part ≡ options.now.part) }
        ensures touches { IfOk result (λ pass. pass.touches.items ≡ []) }
    {
        let is_alone = options.workers == 1;
        let lines = PieceReader::new(alloc, options.byte_limit, options.keys, readers, is_alone)?;
        let count = chunk_count(options.workers, readers);
        let last = empty_chunks(alloc, count)?;
        let fresh = empty_chunks(alloc, count)?;
        Ok(Pass {
            lines,
            trace: Trace::keyed(alloc, options.keys),
            analyst,
            last,
            fresh,
            part: options.part,
            of_pages: 0,
            touches: Vec::new(alloc),
            from: 0,
        })
    }

    // Keeps what is of use to the part of the last batch, if only a part is replayed.
    fn keep_last(&mut self)
    where
        A: Analyst,
        requires formed { AreFormed self.old.trace.names self.old.last.items }
        ensures kept { batch_of self.new.last.items self.old.trace.names ≡ kept self.old.part (batch_of self.old.last.items self.old.trace.names) }
        ensures formed { AreFormed self.old.trace.names self.new.last.items }
        ensures counted { (before : List Steps) → HasCounted self.old.part self.old.of_pages before → HasCounted self.old.part self.new.of_pages (before ++ chunk_steps self.new.last.items) }
        ensures trace { self.new.trace ≡ self.old.trace }
        ensures analyst { self.new.analyst ≡ self.old.analyst }
        ensures lines { self.new.lines ≡ self.old.lines }
        ensures part { self.new.part ≡ self.old.part }
        ensures fresh { self.new.fresh ≡ self.old.fresh }
        ensures touches { (self.new.touches.items ≡ self.old.touches.items) × (self.new.from ≡ self.old.from) }
    {
        if let Some(part) = self.part {
            self.of_pages = keep_chunks(part, self.of_pages, self.last.as_mut_slice());
        }
    }

    // Has the last batch answered, and forgets what its accesses touch. Its chunks and those of the next one change places. A line of the batch that
    // was answered before or doesn't come before the next one is reported as a want of memory. There is none.
    fn answer_last<R: Threads + Wait + Sync>(&mut self, rt: &R, next: u64) -> Result<(), AllocError>
    where
        A: Analyst,
        requires formed { AreFormed self.old.trace.names self.old.last.items }
        ensures answered { (asked : Asked) (past : List Steps) (lines sites : List ℕ) (names : NameTable) → KeepsNames names self.old.trace.names
            → A.stands self.old.analyst asked (recorded past lines sites names) (step_lists self.old.last.items)
            → IfSome asked.touches (λ all. TellsBetween all self.old.touches.items self.old.from next)
            → OnOk result (A.stands self.new.analyst asked (recorded (past ++ chunk_steps self.old.last.items) (lines ++ chunk_lines self.old.last.items) (sites ++ chunk_sites self.old.last.items) self.old.trace.names) []) }
        ensures next { OnOk result (self.new.last.items ≡ self.old.fresh.items) }
        ensures formed { OnOk result (AreFormed self.old.trace.names self.new.fresh.items) }
        ensures trace { OnOk result (self.new.trace ≡ self.old.trace) }
        ensures lines { self.new.lines ≡ self.old.lines }
        ensures part { (self.new.part ≡ self.old.part) × (self.new.of_pages ≡ self.old.of_pages) }
        ensures from { OnOk result (self.old.from ≤ self.new.from) }
        ensures touches { OnOk result (self.new.touches.items ≡ filter (λ touch. nat_le self.new.from touch.line) self.old.touches.items) }
    {
        let (analyst, trace) = (&mut self.analyst, &mut self.trace);
        let (chunks, touches) = (self.last.as_mut_slice(), self.touches.as_slice());
        let from = answer_chunks(rt, analyst, trace, chunks, touches, self.from, next)?;
        mem::swap(&mut self.last, &mut self.fresh);
        self.from = from;
        self.touches.retain(
            |touch| -> bool
                ensures { result ≡ nat_le from touch.now.line }
            { touch.line >= from },
        );
        Ok(())
    }

    // Has the last batch of all answered.
    fn answer_rest<R: Threads + Wait + Sync>(&mut self, rt: &R, next: u64) -> Result<(), AllocError>
    where
        A: Analyst,
        requires formed { AreFormed self.old.trace.names self.old.last.items }
        ensures answered { (asked : Asked) (past : List Steps) (lines sites : List ℕ) → StandsFor self.old.part (λ r. A.stands self.old.analyst asked r []) self.old.of_pages (recorded past lines sites self.old.trace.names)
            → IfSome asked.touches (λ all. TellsBetween all self.old.touches.items self.old.from next)
            → OnOk result (StandsFor self.new.part (λ r. A.stands self.new.analyst asked r []) self.new.of_pages (recorded (past ++ chunk_steps self.old.last.items) (lines ++ chunk_lines self.old.last.items) (sites ++ chunk_sites self.old.last.items) self.old.trace.names)) }
        ensures next { OnOk result (self.new.last.items ≡ self.old.fresh.items) }
        ensures trace { OnOk result (self.new.trace ≡ self.old.trace) }
        ensures lines { self.new.lines ≡ self.old.lines }
        ensures part { self.new.part ≡ self.old.part }
        ensures from { OnOk result (self.old.from ≤ self.new.from) }
        ensures touches { OnOk result (self.new.touches.items ≡ filter (λ touch. nat_le self.new.from touch.line) self.old.touches.items) }
    {
        self.keep_last();
        self.analyst.prepare(rt, self.last.as_slice(), &mut || ());
        self.answer_last(rt, next)
    }

    // Reads a batch, has the one before it answered, and says whether lines may follow. If none may, the batch itself is answered too.
    fn turn<R: Threads + Wait + Sync, D: Read, S: Shortcut<D>>(
        &mut self,
        rt: &R,
        reader: &mut Device<D>,
        shortcut: &S,
    ) -> Result<bool, ReadFault>
    where
        A: Analyst,
        requires open { has_failed reader.old ≡ false }
        requires formed { AreFormed self.old.trace.names self.old.last.items }
        ensures formed { OnOk result (AreFormed self.new.trace.names self.new.last.items) }
        ensures come { (asked : Asked) (told : Option (List ℕ)) → IfSome asked.touches (λ all. Tells all self.old.touches.items (S.touches (inner_of reader.old)) self.old.from 0)
            → HasCome (StandsFor self.old.part (λ r. A.stands self.old.analyst asked r []) self.old.of_pages) told (D.remaining (inner_of reader.old)) self.old.lines self.old.trace self.old.last.items
            → IfOk result (λ more. more ≡ true → HasCome (StandsFor self.new.part (λ r. A.stands self.new.analyst asked r []) self.new.of_pages) told (D.remaining (inner_of reader.new)) self.new.lines self.new.trace self.new.last.items) }
        ensures ended { (asked : Asked) (told : Option (List ℕ)) → IfSome asked.touches (λ all. Tells all self.old.touches.items (S.touches (inner_of reader.old)) self.old.from 0)
            → HasCome (StandsFor self.old.part (λ r. A.stands self.old.analyst asked r []) self.old.of_pages) told (D.remaining (inner_of reader.old)) self.old.lines self.old.trace self.old.last.items
            → IfOk result (λ more. more ≡ false → HasEnded (StandsFor self.new.part (λ r. A.stands self.new.analyst asked r []) self.new.of_pages) told self.old.lines.place.limit self.new.trace.names) }
        ensures ends { (asked : Asked) (told : Option (List ℕ)) → IfSome asked.touches (λ all. Tells all self.old.touches.items (S.touches (inner_of reader.old)) self.old.from 0)
            → HasCome (StandsFor self.old.part (λ r. A.stands self.old.analyst asked r []) self.old.of_pages) told (D.remaining (inner_of reader.old)) self.old.lines self.old.trace self.old.last.items
            → IfOk result (λ more. more ≡ false → IfSome told (λ text. KnowsEnd text self.new.lines)) }
        ensures fault { (asked : Asked) (told : Option (List ℕ)) → IfSome asked.touches (λ all. Tells all self.old.touches.items (S.touches (inner_of reader.old)) self.old.from 0)
            → HasCome (StandsFor self.old.part (λ r. A.stands self.old.analyst asked r []) self.old.of_pages) told (D.remaining (inner_of reader.old)) self.old.lines self.old.trace self.old.last.items
            → IfErr result (λ why. IsFaultOfReading told self.old.lines.place.limit why) }
        ensures limit { self.new.lines.place.limit ≡ self.old.lines.place.limit }
        ensures part { self.new.part ≡ self.old.part }
        ensures touches { (all : List Touching) → Tells all self.old.touches.items (S.touches (inner_of reader.old)) self.old.from 0
            → OnOk result (Tells all self.new.touches.items (S.touches (inner_of reader.new)) self.new.from 0) }
        ensures more { IfOk result (λ more. more ≡ true → self.old.lines.place.start < self.new.lines.place.start) }
        ensures within { self.new.lines.place.start ≤ self.new.lines.place.limit }
        ensures failed { HasFailedBy (has_failed reader.new) result }
        ensures taken { taken_of reader.new + taken_by self.old.lines.place ≤ taken_of reader.old + taken_by self.new.lines.place }
        ensures most { taken_by self.new.lines.place ≤ self.new.lines.place.limit + bytes_past_limit }
    {
        self.keep_last();
        let (lines, trace, chunks) = (&mut self.lines, &mut self.trace, self.fresh.as_mut_slice());
        let batch = self.analyst.prepare(
            rt,
            self.last.as_slice(),
            &mut ||
                requires { IsSync R.row × (has_failed reader.now ≡ false) }
            { lines.next_batch(rt, reader, shortcut, trace, chunks) },
        )?;
        let next = shortcut.hand_out(reader.inner_mut(), &mut self.touches)?;
        self.answer_last(rt, next)?;
        match batch {
            Batch::More => Ok(true),
            Batch::End => {
                self.answer_rest(rt, next)?;
                Ok(false)
            }
        }
    }

    // How far it has come.
    fn progress<D>(&self, reader: &Device<D>) -> Progress
    where
        A: Analyst,
        ensures bytes { result.bytes ≡ taken_of reader.now }
        ensures steps { result.steps ≡ A.answered self.now.analyst }
        ensures races { A.found self.now.analyst < 2 ^ 64 → result.races ≡ A.found self.now.analyst }
    {
        let (steps, races) = self.analyst.counts();
        Progress {
            bytes: reader.taken(),
            steps,
            races,
        }
    }

    // Reads and answers all batches, and says behind each how far it has come.
    fn run<R: Threads + Wait + Sync, D: Read, S: Shortcut<D>, V: Watch>(
        &mut self,
        rt: &R,
        reader: &mut Device<D>,
        shortcut: &S,
        watcher: &mut V,
    ) -> Result<(), ReadFault>
    where
        A: Analyst,
        requires open { has_failed reader.old ≡ false }
        requires formed { AreFormed self.old.trace.names self.old.last.items }
        ensures ended { (asked : Asked) (told : Option (List ℕ)) → IfSome asked.touches (λ all. Tells all self.old.touches.items (S.touches (inner_of reader.old)) self.old.from 0)
            → HasCome (StandsFor self.old.part (λ r. A.stands self.old.analyst asked r []) self.old.of_pages) told (D.remaining (inner_of reader.old)) self.old.lines self.old.trace self.old.last.items
            → OnOk result (HasEnded (StandsFor self.new.part (λ r. A.stands self.new.analyst asked r []) self.new.of_pages) told self.old.lines.place.limit self.new.trace.names) }
        ensures ends { (asked : Asked) (told : Option (List ℕ)) → IfSome asked.touches (λ all. Tells all self.old.touches.items (S.touches (inner_of reader.old)) self.old.from 0)
            → HasCome (StandsFor self.old.part (λ r. A.stands self.old.analyst asked r []) self.old.of_pages) told (D.remaining (inner_of reader.old)) self.old.lines self.old.trace self.old.last.items
            → OnOk result (IfSome told (λ text. KnowsEnd text self.new.lines)) }
        ensures fault { (asked : Asked) (told : Option (List ℕ)) → IfSome asked.touches (λ all. Tells all self.old.touches.items (S.touches (inner_of reader.old)) self.old.from 0)
            → HasCome (StandsFor self.old.part (λ r. A.stands self.old.analyst asked r []) self.old.of_pages) told (D.remaining (inner_of reader.old)) self.old.lines self.old.trace self.old.last.items
            → IfErr result (λ why. IsFaultOfReading told self.old.lines.place.limit why) }
        ensures part { self.new.part ≡ self.old.part }
        ensures failed { HasFailedBy (has_failed reader.new) result }
        ensures taken { taken_of reader.new + taken_by self.old.lines.place ≤ taken_of reader.old + self.old.lines.place.limit + bytes_past_limit }
    {
        while self.turn(rt, reader, shortcut)? {
            watcher.come_to(self.progress(reader));
        }
        watcher.come_to(self.progress(reader));
        Ok(())
    }
}

/// Reads a trace text of at most so many bytes to its end by so many threads, and has each batch of its steps answered and then forgotten. The analyst gets
/// ready for a batch while the next one is read. The shortcut may have lines ready, which one thread takes; what it hands out of the bytes that
/// accesses touch goes to the analyst. The watcher is told behind each batch how far the pass has come.
///
/// # Errors
/// The text's first fault, a failed read, or a want of memory wherever it is met.
pub fn analyse<R: Threads + Wait + Sync, D: Read, S: Shortcut<D>, V: Watch, A: Analyst + Drop>(
    rt: &R,
    alloc: Global,
    reader: &mut Device<D>,
    shortcut: &S,
    options: &Options,
    readers: u32,
    analyst: A,
    watcher: &mut V,
) -> Result<Analysed<A>, ReadFault>
    requires reader { has_failed reader.old ≡ false }
    requires readers { (1 ≤ readers) × (readers ≤ 16) }
    ensures answered { (asked : Asked) → asked.touches ≡ S.touches (inner_of reader.old) → A.stands analyst asked no_steps []
        → IfOk result (λ found. IsAnswered (λ r. A.stands found.analyst asked r [] × HasCounted options.now.part found.of_pages r.steps) options.now.part (D.remaining (inner_of reader.old)) options.now.byte_limit found.trace.names) }
    ensures ending { (asked : Asked) → asked.touches ≡ S.touches (inner_of reader.old) → A.stands analyst asked no_steps [] → IfOk result (λ found. IfSome (D.remaining (inner_of reader.old)) (λ text. IsEndingOf text found.ending)) }
    ensures fault { (asked : Asked) → asked.touches ≡ S.touches (inner_of reader.old) → A.stands analyst asked no_steps [] → IfErr result (λ why. IsFaultOfReading (D.remaining (inner_of reader.old)) options.now.byte_limit why) }
    ensures failed { HasFailedBy (has_failed reader.new) result }
    ensures taken { taken_of reader.new ≤ taken_of reader.old + options.now.byte_limit + bytes_past_limit }
{
    let mut pass = Pass::new(alloc, options, readers, analyst)?;
    match pass.run(rt, reader, shortcut, watcher) {
        Ok(()) => {
            let ending = pass.lines.ending();
            Ok(Analysed {
                analyst: pass.analyst,
                trace: pass.trace,
                ending,
                of_pages: pass.of_pages,
            })
        }
        Err(why) => Err(why),
    }
}

// How many chunks a batch comes in: one for each piece and one for the rest. It is one if one thread reads, or if several answer: each chunk starts theirs.
fn chunk_count(workers: u32, readers: u32) -> usize
    ensures { 1 ≤ result }
{
    if readers == 1 || workers.saturating_sub(readers) > 1 {
        return 1;
    }
    readers as usize + 1
}

// So many chunks without steps.
fn empty_chunks(alloc: Global, count: usize) -> Result<Vec<Chunk>, AllocError>
    ensures count { IfOk result (λ chunks. length chunks.items ≡ count) }
    ensures empty { IfOk result (λ chunks. AreEmpty chunks.items) }
{
    let mut chunks = Vec::with_capacity(alloc, count)?;
    for _ in 0..count {
        chunks.push_reserved(Chunk::new(alloc));
    }
    Ok(chunks)
}

// Keeps what is of use to the part of these chunks, and returns how many steps of pages it has come to.
fn keep_chunks(part: Part, of_pages: u64, chunks: &mut [Chunk]) -> u64
    requires { (names : NameTable) × AreFormed names chunks.old }
    ensures steps { chunk_steps chunks.new ≡ filter (takes part) (chunk_steps chunks.old) }
    ensures lines { chunk_lines chunks.new ≡ kept_beside part (chunk_steps chunks.old) (chunk_lines chunks.old) }
    ensures sites { chunk_sites chunks.new ≡ kept_beside part (chunk_steps chunks.old) (chunk_sites chunks.old) }
    ensures count { length chunks.new ≡ length chunks.old }
    ensures formed { (names : NameTable) → AreFormed names chunks.old → AreFormed names chunks.new }
    ensures counted { (before : List Steps) → HasCounted (Some part) of_pages before → HasCounted (Some part) result (before ++ chunk_steps chunks.new) }
{
    let Some((first, others)) = chunks.split_first_mut() else {
        return of_pages;
    };
    let counted = part.keep(&mut first.steps, &mut first.lines, &mut first.sites);
    keep_chunks(part, of_pages.saturating_add(counted), others)
}

// Has the steps of these chunks answered, and returns the last of their lines. `AllocError`: as below, or the analyst has found no memory.
fn answer_chunks<R: Threads + Wait + Sync, A: Analyst>(
    rt: &R,
    analyst: &mut A,
    trace: &mut Trace,
    chunks: &mut [Chunk],
    touches: &[Touch],
    from: u64,
    next: u64,
) -> Result<u64, AllocError>
    requires some { 1 ≤ length chunks.old }
    requires formed { AreFormed trace.old.names chunks.old }
    ensures answered { (asked : Asked) (past : List Steps) (lines sites : List ℕ) (names : NameTable) → KeepsNames names trace.old.names
        → A.stands analyst.old asked (recorded past lines sites names) (step_lists chunks.old) → IfSome asked.touches (λ all. TellsBetween all touches.now from next)
        → OnOk result (A.stands analyst.new asked (recorded (past ++ chunk_steps chunks.old) (lines ++ chunk_lines chunks.old) (sites ++ chunk_sites chunks.old) trace.old.names) []) }
    ensures formed { OnOk result (AreFormed trace.old.names chunks.new) }
    ensures trace { OnOk result (trace.new ≡ trace.old) }
    ensures count { length chunks.new ≡ length chunks.old }
    ensures from { IfOk result (λ line. from ≤ line) }
{
    let Some((first, others)) = chunks.split_first_mut() else {
        return Ok(from);
    };
    let last = answer_chunk(rt, analyst, trace, first, touches, from, next)?;
    if others.is_empty() {
        return Ok(last);
    }
    answer_chunks(rt, analyst, trace, others, touches, last, next)
}

// The same of one chunk, behind which others may be to be answered.
fn answer_chunk<R: Threads + Wait + Sync, A: Analyst>(
    rt: &R,
    analyst: &mut A,
    trace: &mut Trace,
    chunk: &mut Chunk,
    touches: &[Touch],
    from: u64,
    next: u64,
) -> Result<u64, AllocError>
    requires formed { IsFormed trace.old.names chunk.old }
    ensures answered { (asked : Asked) (past : List Steps) (lines sites : List ℕ) (names : NameTable) (more : List (List Steps)) → KeepsNames names trace.old.names
        → A.stands analyst.old asked (recorded past lines sites names) (chunk.old.steps.items ∷ more) → IfSome asked.touches (λ all. TellsBetween all touches.now from next)
        → OnOk result (A.stands analyst.new asked (recorded (past ++ chunk.old.steps.items) (lines ++ chunk.old.lines.items) (sites ++ chunk.old.sites.items) trace.old.names) more) }
    ensures formed { OnOk result (IsFormed trace.old.names chunk.new) }
    ensures trace { OnOk result (trace.new ≡ trace.old) }
    ensures from { IfOk result (λ line. from ≤ line) }
{
    let last = last_between(chunk.lines.as_slice(), from, next)?;
    chunk.swap(trace);
    analyst.answer(rt, trace, touches)?;
    chunk.swap(trace);
    Ok(last)
}

// The last of these lines, or the one from which on they are to be. `AllocError`: one of them isn't from there on, or not before the next one.
fn last_between(lines: &[u64], from: u64, next: u64) -> Result<u64, AllocError>
    ensures between { OnOk result (All (λ line. (from ≤ line) × (line < next)) lines.now) }
    ensures only { All (λ line. (from ≤ line) × (line < next)) lines.now → IsOk result }
    ensures last { IfOk result (λ line. from ≤ line) }
{
    if !are_between(lines, from, next) {
        return Err(AllocError);
    }
    Ok(lines.last().copied().unwrap_or(from).max(from))
}

// Whether all of these lines are between these bounds. Without a branch at each line several are compared at once.
fn are_between(lines: &[u64], from: u64, next: u64) -> bool
    ensures between { IsTrue result → All (λ line. (from ≤ line) × (line < next)) lines.now }
    ensures only { All (λ line. (from ≤ line) × (line < next)) lines.now → IsTrue result }
{
    let mut between = true;
    for at in 0..lines.len() {
        between = between & (lines[at] >= from) & (lines[at] < next);
    }
    between
}
